//! Runs jobs one after another.

pub(crate) mod directory_steps;
pub(crate) mod finish;
pub(crate) mod image_steps;
pub(crate) mod values;

ghost use Rattle.std.specs.Prelude.{◌≡◌, length};
ghost use Rattle.tiff_encode.specs.Calls as calls;
ghost use Rattle.tiff_encode.specs.Jobs.{offsets_in};
ghost use Rattle.tiff_encode.specs.Running.{DirectoryGoesOn, DirectoryRunsOn, IsEmptyWithRoom, ImageGoesOn, ImageRunsOn, NamesLink, link_in, linked_from, step_count};
ghost use Rattle.tiff_encode.specs.Stepping.{JobMoves, offsets_answered};

use crate::encoder::TiffEncoder;
use crate::encoder::directory::encoder::DirectoryEncoder;
use crate::encoder::directory::state::DirectoryState;
use crate::encoder::image::state::ImageState;
use crate::encoder::kind::TiffKind;
use crate::encoder::script::{DirectoryJob, EndReply, ImageJob, Job, JobReply, StepReply};
use crate::encoder::settings::Compression;
use tiff_base::error::{TiffError, TiffResult, UsageError};
use tiff_base::io::Sink;
use tiff_base::tags::Predictor;
use tiff_value::encoder::color_visitor::{ColorVisitor, by_name};
use tiff_value::encoder::colortype::NamedColorType;
use tiff_value::encoder::horizontal_predictor::Sample;

impl DirectoryState {
    // Sets the offset of the link that points to the directory when it ends, if there is one.
    fn link_from(&mut self, parent: Option<u64>)
        ensures { self.new ≡ linked_from parent self.old }
    {
        if let Some(link) = parent {
            self.set_parent(link);
        }
    }
}

impl<W: Sink, K: TiffKind> TiffEncoder<W, K> {
    // `with_predictor`
    fn set_predictor(&mut self, predictor: Predictor)
        ensures { self.new ≡ calls.with_predictor predictor self.old }
    {
        self.predictor = predictor;
    }

    // `with_compression`
    fn set_compression(&mut self, compression: Compression)
        ensures { self.new ≡ calls.with_compression compression self.old }
    {
        self.compression = compression;
    }
}

// ---- directories

// Runs the steps of an open directory, and ends it. `steps` has room for their replies.
fn lead_directory<W: Sink, K: TiffKind>(
    encoder: &mut TiffEncoder<W, K>,
    state: DirectoryState,
    job: &DirectoryJob,
    mut steps: Vec<TiffResult<StepReply>>,
) -> JobReply
    requires { IsEmptyWithRoom (length job.now.steps.items) steps }
    ensures { DirectoryGoesOn state job.now result encoder.old encoder.new }
{
    let mut directory = DirectoryEncoder { encoder, state };
    directory.steps(&job.steps, &mut steps);
    let last = directory.end(job.end);
    JobReply { steps, last }
}

// Returns the offset of the link of the directory that a job finished, or `None` if its reply has
// no offsets.
fn link_of(reply: &JobReply) -> Option<u64>
    ensures { result ≡ link_in (offsets_in reply.now.last) }
{
    match &reply.last {
        Ok(EndReply::Offsets { pointer: _, link }) => Some(*link),
        _ => None,
    }
}

// Returns the offset of the link of the parent, which is the directory of an earlier job, or
// `Ok(None)` if there is no parent. Returns `UsageError(ParentNotWritten)` if that job doesn't
// exist or its reply has no offsets.
fn named_link(earlier: &[JobReply], parent: Option<usize>) -> TiffResult<Option<u64>>
    ensures { NamesLink (offsets_answered earlier.now) parent result }
{
    let Some(job) = parent else {
        return Ok(None);
    };
    let Some(reply) = earlier.get(job) else {
        return Err(TiffError::UsageError(UsageError::ParentNotWritten));
    };
    match link_of(reply) {
        Some(link) => return Ok(Some(link)),
        None => return Err(TiffError::UsageError(UsageError::ParentNotWritten)),
    }
}

// Runs a job that writes a directory, in the IFD chain or outside it.
fn run_directory<W: Sink, K: TiffKind>(
    encoder: &mut TiffEncoder<W, K>,
    job: &DirectoryJob,
    parent: Option<u64>,
    steps: Vec<TiffResult<StepReply>>,
) -> JobReply
    requires { IsEmptyWithRoom (length job.now.steps.items) steps }
    ensures { DirectoryRunsOn parent job.now result encoder.old encoder.new }
{
    match encoder.begin_directory(job.chained) {
        Ok(mut state) => {
            state.link_from(parent);
            return lead_directory(encoder, state, job, steps);
        }
        Err(fault) => {
            return JobReply {
                steps,
                last: Err(fault),
            };
        }
    }
}

// ---- images

// Runs the steps of an open image, and ends it. `steps` has room for their replies.
fn run_image_steps<W: Sink, K: TiffKind, T: Sample>(
    encoder: &mut TiffEncoder<W, K>,
    state: ImageState<T>,
    job: &ImageJob<'_>,
    mut steps: Vec<TiffResult<StepReply>>,
) -> JobReply
    requires { IsEmptyWithRoom (length job.now.steps.items) steps }
    ensures { ImageGoesOn state job.now result encoder.old encoder.new }
{
    let mut image = DirectoryEncoder { encoder, state };
    image.image_steps(&job.steps, &mut steps);
    let last = image.end_image(&job.end);
    JobReply { steps, last }
}

// Runs a job that writes an image. `C` is the color type that the job names.
fn run_image<W: Sink, K: TiffKind, C: NamedColorType>(
    encoder: &mut TiffEncoder<W, K>,
    job: &ImageJob<'_>,
    steps: Vec<TiffResult<StepReply>>,
) -> JobReply
    requires named { job.now.color ≡ C.name }
    requires room { IsEmptyWithRoom (length job.now.steps.items) steps }
    ensures { ImageRunsOn job.now result encoder.old encoder.new }
{
    let (width, height) = (job.width, job.height);
    match encoder.new_image::<C>(width, height) {
        Ok(image) => {
            let DirectoryEncoder { encoder, state } = image;
            return run_image_steps(encoder, state, job, steps);
        }
        Err(fault) => {
            return JobReply {
                steps,
                last: Err(fault),
            };
        }
    }
}

// A job that writes an image, and room for the replies of its steps.
struct ImageRun<'a> {
    job: &'a ImageJob<'a>,
    steps: Vec<TiffResult<StepReply>>,
}

// Runs a job that writes an image of a color type.
struct RunsImage;

impl<'a, W: Sink, K: TiffKind> ColorVisitor<TiffEncoder<W, K>, ImageRun<'a>, JobReply>
    for RunsImage {
    ghost use Rattle.std.specs.Prelude.{◌≡◌, length};
    ghost use Rattle.tiff_encode.specs.Running.{ImageRunsOn, IsEmptyWithRoom};

    ghost takes = { λ name _ run. (run.job.now.color ≡ name)
        × IsEmptyWithRoom (length run.job.now.steps.items) run.steps };

    ghost visits = { λ _ old run reply new. ImageRunsOn run.job.now reply old new };

    fn visit<C: NamedColorType>(state: &mut TiffEncoder<W, K>, input: ImageRun<'a>) -> JobReply {
        let ImageRun { job, steps } = input;
        run_image::<W, K, C>(state, job, steps)
    }
}

// Runs a job that writes an image of the color type that it names.
fn run_named<W: Sink, K: TiffKind>(
    encoder: &mut TiffEncoder<W, K>,
    job: &ImageJob<'_>,
    steps: Vec<TiffResult<StepReply>>,
) -> JobReply
    requires { IsEmptyWithRoom (length job.now.steps.items) steps }
    ensures { ImageRunsOn job.now result encoder.old encoder.new }
{
    by_name::<_, _, _, RunsImage>(job.color, encoder, ImageRun { job, steps })
}

// ---- jobs

// Runs a job of any kind.
fn run_by_kind<W: Sink, K: TiffKind>(
    encoder: &mut TiffEncoder<W, K>,
    job: &Job<'_>,
    earlier: &[JobReply],
    steps: Vec<TiffResult<StepReply>>,
) -> JobReply
    requires { IsEmptyWithRoom (step_count job.now) steps }
    ensures { encoder.new.kind ≡ encoder.old.kind
        → JobMoves job.now earlier.now result encoder.old encoder.new }
{
    match job {
        Job::Predictor(predictor) => {
            encoder.set_predictor(*predictor);
            return JobReply {
                steps,
                last: Ok(EndReply::Nothing),
            };
        }
        Job::Compression(compression) => {
            encoder.set_compression(*compression);
            return JobReply {
                steps,
                last: Ok(EndReply::Nothing),
            };
        }
        Job::Directory(job) => match named_link(earlier, job.parent) {
            Ok(parent) => return run_directory(encoder, job, parent, steps),
            Err(fault) => {
                return JobReply {
                    steps,
                    last: Err(fault),
                };
            }
        },
        Job::Image(job) => return run_named(encoder, job, steps),
    }
}

/// Runs a job after the jobs that have the replies `earlier`. `steps` has room for the replies of
/// its steps.
pub(crate) fn run_job<W: Sink, K: TiffKind>(
    encoder: &mut TiffEncoder<W, K>,
    job: &Job<'_>,
    earlier: &[JobReply],
    steps: Vec<TiffResult<StepReply>>,
) -> JobReply
    requires { IsEmptyWithRoom (step_count job.now) steps }
    ensures { JobMoves job.now earlier.now result encoder.old encoder.new }
{
    encoder.fact_kind();
    let reply = run_by_kind(encoder, job, earlier, steps);
    encoder.fact_kind();
    reply
}
