//! Lists of calls of the encoder, and the replies to them.

ghost use Rattle.std.specs.Prelude.{◌≡◌, ◌+◌, ◌++◌, ◌∷◌, [], ◌<◌, ◌≤◌, length, vec_capacity, vec_len, IfOk, MatchResult};
ghost use Rattle.tiff_base.specs.declared.error.TiffError.TheVariants.{OutOfMemory};
ghost use Rattle.tiff_encode.specs.Jobs.{RunsJobs};
ghost use Rattle.tiff_encode.specs.Running.{AreRooms, JobsMove, RunsJobsIn, step_count};

use crate::encoder::TiffEncoder;
pub use crate::encoder::job_samples::{CutSamples, JobSamples};
use crate::encoder::jobs::run_job;
use crate::encoder::kind::TiffKind;
use crate::encoder::settings::Compression;
use std::alloc::Global;
use tiff_base::directory::{Directory, Entry};
use tiff_base::error::{TiffError, TiffResult};
use tiff_base::io::Sink;
use tiff_base::tags::{
    Bits32, Bits64, ByteOrder, CompressionMethod, ExtraSamples, PhotometricInterpretation,
    PlanarConfiguration, Predictor, ResolutionUnit, SampleFormat, Tag, Type,
};
use tiff_value::encoder::colortype::ColorTypeName;
use tiff_value::encoder::tiff_value::{Ifd, Ifd8, Rational, SRational};

/// A value for a field: several scalars of one type, or a text.
#[derive(Drop)]
pub enum JobValue {
    U8(Vec<u8>),
    I8(Vec<i8>),
    U16(Vec<u16>),
    I16(Vec<i16>),
    U32(Vec<u32>),
    I32(Vec<i32>),
    U64(Vec<u64>),
    I64(Vec<i64>),
    Bits32(Vec<Bits32>),
    Bits64(Vec<Bits64>),
    CompressionMethod(Vec<CompressionMethod>),
    PhotometricInterpretation(Vec<PhotometricInterpretation>),
    PlanarConfiguration(Vec<PlanarConfiguration>),
    Predictor(Vec<Predictor>),
    ResolutionUnit(Vec<ResolutionUnit>),
    SampleFormat(Vec<SampleFormat>),
    ExtraSamples(Vec<ExtraSamples>),
    Ifd(Vec<Ifd>),
    Ifd8(Vec<Ifd8>),
    Rational(Vec<Rational>),
    SRational(Vec<SRational>),
    Text(String),
}

/// Values as bytes, in a byte order.
#[derive(Drop)]
pub struct JobBuffer {
    pub data_type: Type,
    pub order: ByteOrder,
    pub bytes: Vec<u8>,
}

// What a step sets a tag to: a value, or the values of a buffer.
#[derive(Clone, Copy)]
pub(crate) enum JobField<'a> {
    Value(&'a JobValue),
    Buffer(&'a JobBuffer),
}

/// A call of an open directory.
#[derive(Drop)]
pub enum DirectoryStep {
    WriteTag(Tag, JobValue),
    WriteTagBuf(Tag, JobBuffer),
    WriteData(JobValue),
    WriteDataBuf(JobBuffer),
    WriteEntry(JobValue),
    WriteEntryBuf(JobBuffer),
    WriteEntryBytes(Type, Vec<u8>),
    ExtendFrom(Directory),
}

/// A call of an open image. Each number of a list of samples is cut to the lowest bits, as many as
/// a sample of the color type has.
#[derive(Drop)]
pub enum ImageStep<'a> {
    /// A call of the image's directory.
    Directory(DirectoryStep),
    ExtraSamples(Vec<ExtraSamples>),
    Tiles(u32, u32),
    Planar,
    NextStripSampleCount,
    NextChunkSampleCount,
    WriteStrip(JobSamples<'a>),
    WriteChunk(JobSamples<'a>),
    Resolution(ResolutionUnit, Rational),
    ResolutionUnit(ResolutionUnit),
    XResolution(Rational),
    YResolution(Rational),
    RowsPerStrip(u32),
}

/// How a directory ends: `Finish` means `finish_with_offsets`, and `Discard` means `discard`.
#[derive(Clone, Copy, Drop)]
pub enum DirectoryEnd {
    Finish,
    Discard,
}

/// How an image ends: by `write_data`, `finish` or `discard`.
#[derive(Drop)]
pub enum ImageEnd<'a> {
    WriteData(JobSamples<'a>),
    Finish,
    Discard,
}

/// A job that writes a directory, in the IFD chain or outside it. `parent` is the number of an
/// earlier job, counted from 0: the link of the directory of that job points to this directory.
#[derive(Drop)]
pub struct DirectoryJob {
    pub chained: bool,
    pub parent: Option<usize>,
    pub steps: Vec<DirectoryStep>,
    pub end: DirectoryEnd,
}

/// A job that writes an image, with its color type and its size in pixels.
#[derive(Drop)]
pub struct ImageJob<'a> {
    pub color: ColorTypeName,
    pub width: u32,
    pub height: u32,
    pub steps: Vec<ImageStep<'a>>,
    pub end: ImageEnd<'a>,
}

/// A job: a directory, an image, or a setting for the images after it.
#[derive(Drop)]
pub enum Job<'a> {
    Predictor(Predictor),
    Compression(Compression),
    Directory(DirectoryJob),
    Image(ImageJob<'a>),
}

/// The reply to a step. A number is an offset in bytes or a number of samples.
#[derive(Drop)]
pub enum StepReply {
    Nothing,
    Number(u64),
    Written(Entry),
}

/// The reply to the end of a job: nothing, or the offset of its directory and the offset of that
/// directory's link.
#[derive(Drop)]
pub enum EndReply {
    Nothing,
    Offsets { pointer: u64, link: u64 },
}

/// The reply to a job: the replies to its steps in their order, and the reply to its end.
#[derive(Drop)]
pub struct JobReply {
    pub steps: Vec<TiffResult<StepReply>>,
    pub last: TiffResult<EndReply>,
}

// Returns the number of steps of a job.
fn step_count(job: &Job<'_>) -> usize
    ensures { result ≡ step_count job.now }
{
    match job {
        Job::Predictor(_) => 0,
        Job::Compression(_) => 0,
        Job::Directory(job) => job.steps.len(),
        Job::Image(job) => job.steps.len(),
    }
}

// Returns for each job an empty list with room for the replies to its steps. The list of the last
// job is the first.
fn rooms<T: Drop>(alloc: Global, jobs: &[Job<'_>]) -> TiffResult<Vec<Vec<T>>>
    ensures count { MatchResult result (λ v. vec_len v ≡ length jobs.now) (λ e. e ≡ OutOfMemory) }
    ensures rooms { MatchResult result (λ v. AreRooms jobs.now v.items) (λ e. e ≡ OutOfMemory) }
{
    let mut rooms = Vec::with_capacity(alloc, jobs.len())?;
    for behind in 0..jobs.len() {
        let count = step_count(&jobs[jobs.len() - 1 - behind]);
        let room = Vec::with_capacity(alloc, count)?;
        rooms.push_reserved(room);
    }
    Ok(rooms)
}

// Removes the last item of a list, and returns it.
fn take_last<T: Drop>(items: &mut Vec<T>) -> T
    requires { 0 < vec_len items.old }
    ensures items { items.old.items ≡ items.new.items ++ result ∷ [] }
    ensures len { vec_len items.old ≡ vec_len items.new + 1 }
{
    match items.pop() {
        Some(item) => item,
        None => unreachable!(),
    }
}

// Drops a value. A list of replies is dropped here, because in a function that isn't generic the
// drop takes long to prove.
fn drop_value<T: Drop>(_value: T) {}

// Makes room for the replies to jobs. Returns for each job an empty list with room for the replies
// to its steps.
fn make_rooms<T: Drop>(
    alloc: Global,
    jobs: &[Job<'_>],
    replies: &mut Vec<JobReply>,
) -> TiffResult<Vec<Vec<T>>>
    ensures same { replies.new.items ≡ replies.old.items }
    ensures room { IfOk result (λ _. vec_len replies.new + length jobs.now ≤ vec_capacity replies.new) }
    ensures count { MatchResult result (λ v. vec_len v ≡ length jobs.now) (λ e. e ≡ OutOfMemory) }
    ensures rooms { MatchResult result (λ v. AreRooms jobs.now v.items) (λ e. e ≡ OutOfMemory) }
{
    match replies.try_reserve(jobs.len()) {
        Ok(()) => return rooms(alloc, jobs),
        Err(_) => return Err(TiffError::OutOfMemory),
    }
}

// Runs jobs one after another. `replies` has room for their replies.
fn run_all<W: Sink, K: TiffKind>(
    encoder: &mut TiffEncoder<W, K>,
    jobs: &[Job<'_>],
    rooms: &mut Vec<Vec<TiffResult<StepReply>>>,
    replies: &mut Vec<JobReply>,
)
    requires count { vec_len rooms.old ≡ length jobs.now }
    requires rooms { AreRooms jobs.now rooms.old.items }
    requires room { vec_len replies.old + length jobs.now ≤ vec_capacity replies.old }
    ensures { JobsMove jobs.now replies.old.items replies.new.items encoder.old encoder.new }
{
    let start = replies.len();
    for job in jobs {
        let room = take_last(rooms);
        let reply = run_job(encoder, job, &replies[start..], room);
        replies.push_reserved(reply);
    }
}

// Makes an encoder, and runs jobs with it. `replies` has room for their replies.
fn run_new<W: Sink, K: TiffKind>(
    alloc: Global,
    sink: W,
    jobs: &[Job<'_>],
    rooms: &mut Vec<Vec<TiffResult<StepReply>>>,
    replies: &mut Vec<JobReply>,
) -> TiffResult<W>
    requires count { vec_len rooms.old ≡ length jobs.now }
    requires rooms { AreRooms jobs.now rooms.old.items }
    requires room { vec_len replies.old + length jobs.now ≤ vec_capacity replies.old }
    ensures { RunsJobs W.contents W.failures W.fault K.kind jobs.now sink replies.old.items
        replies.new.items result }
{
    let mut encoder = TiffEncoder::<W, K>::new_generic(alloc, sink)?;
    run_all(&mut encoder, jobs, rooms, replies);
    Ok(encoder.into_inner())
}

/// Appends a header of the kind `K` to the sink, runs jobs one after another, and returns the sink.
/// It appends the reply to each job to `replies`, also if the job fails. It allocates the room for
/// all replies before it uses the sink. Errors: `OutOfMemory` if that allocation fails; the error
/// of the sink, `IoError(Device)` or `OutOfMemory`, if the write of the header fails. After an
/// error `replies` has the same items as before.
pub fn run_jobs<W: Sink, K: TiffKind>(
    alloc: Global,
    sink: W,
    jobs: &[Job<'_>],
    replies: &mut Vec<JobReply>,
) -> TiffResult<W>
    ensures { RunsJobs W.contents W.failures W.fault K.kind jobs.now sink replies.old.items
        replies.new.items result }
{
    let mut rooms = make_rooms(alloc, jobs, replies)?;
    let answer = run_new::<W, K>(alloc, sink, jobs, &mut rooms, replies);
    drop_value(rooms);
    answer
}

/// Runs jobs one after another with an encoder, which can go on behind a file
/// (`TiffEncoder::append_to`). A parent is a job of this call. The call appends the reply to each
/// job to `replies`, also if the job fails. It allocates the room for all replies before it uses
/// the sink. The only error is `OutOfMemory` if that allocation fails: then no job was run, and
/// `replies` has the same items as before. This project adds this function.
pub fn run_jobs_in<W: Sink, K: TiffKind>(
    encoder: &mut TiffEncoder<W, K>,
    jobs: &[Job<'_>],
    replies: &mut Vec<JobReply>,
) -> TiffResult<()>
    ensures { RunsJobsIn jobs.now replies.old.items replies.new.items encoder.old encoder.new result }
{
    let mut rooms = make_rooms(encoder.alloc(), jobs, replies)?;
    run_all(encoder, jobs, &mut rooms, replies);
    drop_value(rooms);
    Ok(())
}
