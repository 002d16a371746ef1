//! Lists of jobs as lines of text.

ghost use Rattle.std.specs.Prelude.{◌≡◌, ◌++◌, ◌∷◌, [], ℕ, List, None, Option, Some, IfOk, if◌then◌else◌, is_none, map};
ghost use Rattle.std.specs.Option.{option_map};
ghost use Rattle.std.specs.Result.{result_map_both};
ghost use Rattle.tiff_script.specs.Jobs.{are_three, begin, begins, directory_begun, directory_line, end_of_image, image_begun, image_line, image_step_line, job_held, job_line, jobs_spelled, lines_held, no_lines, samples_after, says_nothing, with_directory, with_directory_step, with_image, with_image_step, with_job, with_line, with_resolutions, with_step};
ghost use Rattle.tiff_script.specs.Line.{Reads, first_word, words_behind};
ghost use Rattle.tiff_script.specs.Steps.{directory_step_held, image_step_held};

use crate::samples::SampleWords;
use crate::steps::{directory_step_of, image_step_of};
use crate::words::{ParseError, first_word, pair_of, parts, read};
use std::alloc::{AllocError, Global};
use std::mem;
use tiff_encode::encoder::script::{
    DirectoryEnd, DirectoryJob, DirectoryStep, ImageEnd, ImageJob, ImageStep, Job, JobSamples,
};
use tiff_value::encoder::colortype::ColorTypeName;

// A job that has begun and has not ended.
#[derive(Clone, Copy)]
enum Begun {
    Directory {
        chained: bool,
        parent: Option<usize>,
    },
    Image(BegunImage),
}

// An image that has begun, and how its samples are written.
#[derive(Clone, Copy)]
struct BegunImage {
    color: ColorTypeName,
    width: u32,
    height: u32,
    samples: SampleWords,
}

// The jobs of the lines that were read so far.
#[derive(Drop)]
struct JobList {
    alloc: Global,
    jobs: Vec<Job<'static>>,
    begun: Option<Begun>,
    directory_steps: Vec<DirectoryStep>,
    image_steps: Vec<ImageStep<'static>>,
}

// The beginning of a directory, whose parent may stand behind its name.
#[tactic(auto, unfolding(crate::specs::Jobs::directory_begun))]
fn directory_begun(chained: bool, words: &str) -> Result<Begun, ParseError>
    ensures { Reads (λ b. b) (directory_begun chained words.now) result }
{
    let parent = match words {
        "" => None,
        _ => Some(read(words)?),
    };
    Ok(Begun::Directory { chained, parent })
}

// The beginning of an image: its color type, its width and its height.
#[tactic(auto, unfolding(crate::specs::Jobs::image_begun))]
fn image_begun(words: &str) -> Result<Begun, ParseError>
    ensures { Reads (λ b. b) (image_begun words.now) result }
{
    let (color, words) = first_word(words);
    let color = read(color)?;
    let (width, height) = pair_of(words)?;
    Ok(Begun::Image(BegunImage {
        color,
        width,
        height,
        samples: SampleWords::new(color, width, height),
    }))
}

// How samples are written after a step of an image.
#[tactic(auto, unfolding(crate::specs::Jobs::samples_after))]
fn samples_after(samples: SampleWords, step: &ImageStep<'_>) -> SampleWords
    ensures { result ≡ samples_after samples (image_step_held step.now) }
{
    match step {
        ImageStep::Tiles(width, height) => samples.with_tiles(*width, *height),
        ImageStep::ExtraSamples(extra) => samples.with_extra_samples(extra.len()),
        _ => samples,
    }
}

// The first word, the second, and what is behind it, if there is such.
fn three_words(words: &str) -> Option<(&str, &str, &str)>
    ensures { option_map {U = List ℕ × List ℕ × List ℕ} (λ w. (w.0.now, w.1.now, w.2.now)) result
        ≡ (if are_three words.now then Some (
          first_word words.now,
          first_word (words_behind words.now),
          words_behind (words_behind words.now),
        ) else None) }
{
    let (first, rest) = parts(words, ' ')?;
    let (second, third) = parts(rest, ' ')?;
    Some((first, second, third))
}

// Whether a line is empty or a comment.
fn says_nothing(line: &str) -> bool
    ensures { result ≡ says_nothing line.now }
{
    matches!(line.as_bytes(), [] | [b'#', ..])
}

// Puts an item behind the others.
fn put<T: Drop>(items: &mut Vec<T>, item: T) -> Result<(), ParseError>
    ensures { Reads (λ _. items.new.items) (Some (items.old.items ++ item ∷ [])) result }
{
    items.push(item)?;
    Ok(())
}

// Takes all items out of a list.
fn taken<T: Drop>(alloc: Global, items: &mut Vec<T>) -> Vec<T>
    ensures taken { result.items ≡ items.old.items }
    ensures empty { items.new.items ≡ [] }
{
    mem::replace(items, Vec::new(alloc))
}

impl JobList {
    // A list without jobs.
    #[tactic(auto, unfolding(crate::specs::Jobs::lines_held))]
    fn new(alloc: Global) -> Self
        ensures { lines_held result ≡ no_lines }
    {
        JobList {
            alloc,
            jobs: Vec::new(alloc),
            begun: None,
            directory_steps: Vec::new(alloc),
            image_steps: Vec::new(alloc),
        }
    }

    // A job begins.
    #[tactic(auto, unfolding(crate::specs::Jobs::lines_held))]
    fn start(&mut self, begun: Begun)
        ensures { lines_held self.new ≡ begins (lines_held self.old) begun }
    {
        self.begun = Some(begun);
    }

    // Puts a job behind the others.
    #[tactic(auto, using(std::proofs::lemmas::List::map_push), unfolding(crate::specs::Jobs::lines_held))]
    fn put_job(&mut self, job: Job<'static>) -> Result<(), ParseError>
        ensures { Reads (λ _. lines_held self.new)
            (Some (with_job (lines_held self.old) (job_held job.entry))) result }
    {
        put(&mut self.jobs, job)
    }

    // Puts a step of the directory behind the others.
    #[tactic(auto, using(std::proofs::lemmas::List::map_push), unfolding(crate::specs::Jobs::lines_held))]
    fn put_directory_step(&mut self, step: DirectoryStep) -> Result<(), ParseError>
        ensures { Reads (λ _. lines_held self.new)
            (Some (with_directory_step (lines_held self.old) (directory_step_held step))) result }
    {
        put(&mut self.directory_steps, step)
    }

    // Puts a step of the image behind the others.
    #[tactic(auto, using(std::proofs::lemmas::List::map_push), unfolding(crate::specs::Jobs::lines_held))]
    fn put_image_step(&mut self, step: ImageStep<'static>) -> Result<(), ParseError>
        ensures { Reads (λ _. lines_held self.new)
            (Some (with_step (lines_held self.old) (image_step_held step.entry))) result }
    {
        put(&mut self.image_steps, step)
    }

    // Reads a line outside of jobs: a setting, or the beginning of a job.
    #[tactic(auto, unfolding(crate::specs::Jobs::begin))]
    fn begin(&mut self, name: &str, words: &str) -> Result<(), ParseError>
        ensures { Reads (λ _. lines_held self.new)
            (begin (lines_held self.old) name.now words.now) result }
    {
        match name {
            "predictor" => self.put_job(Job::Predictor(read(words)?)),
            "compression" => self.put_job(Job::Compression(read(words)?)),
            "directory" => {
                self.start(directory_begun(true, words)?);
                Ok(())
            }
            "extra_directory" => {
                self.start(directory_begun(false, words)?);
                Ok(())
            }
            "image" => {
                self.start(image_begun(words)?);
                Ok(())
            }
            _ => Err(ParseError::Form),
        }
    }

    // Ends a directory, and puts its job behind the others.
    #[tactic(auto, unfolding(crate::specs::Jobs::lines_held))]
    fn end_directory(
        &mut self,
        chained: bool,
        parent: Option<usize>,
        end: DirectoryEnd,
    ) -> Result<(), ParseError>
        ensures { Reads (λ _. lines_held self.new)
            (Some (with_directory (lines_held self.old) chained parent end)) result }
    {
        self.begun = None;
        let job = DirectoryJob {
            chained,
            parent,
            steps: taken(self.alloc, &mut self.directory_steps),
            end,
        };
        self.put_job(Job::Directory(job))
    }

    // Reads a line of a directory: a step, or its end.
    #[tactic(auto, unfolding(crate::specs::Jobs::directory_line))]
    fn go_on_directory(
        &mut self,
        chained: bool,
        parent: Option<usize>,
        line: &str,
    ) -> Result<(), ParseError>
        ensures { Reads (λ _. lines_held self.new)
            (directory_line (lines_held self.old) chained parent line.now) result }
    {
        match line {
            "finish" => self.end_directory(chained, parent, DirectoryEnd::Finish),
            "discard" => self.end_directory(chained, parent, DirectoryEnd::Discard),
            _ => {
                let (name, words) = first_word(line);
                let step = directory_step_of(self.alloc, name, words)?;
                self.put_directory_step(step)
            }
        }
    }

    // Ends an image, and puts its job behind the others.
    #[tactic(auto, unfolding(crate::specs::Jobs::lines_held))]
    fn end_image(&mut self, image: BegunImage, end: ImageEnd<'static>) -> Result<(), ParseError>
        ensures { Reads (λ _. lines_held self.new)
            (Some (with_image (lines_held self.old) image end.entry)) result }
    {
        self.begun = None;
        let job = ImageJob {
            color: image.color,
            width: image.width,
            height: image.height,
            steps: taken(self.alloc, &mut self.image_steps),
            end,
        };
        self.put_job(Job::Image(job))
    }

    // Puts a step of an image behind the others.
    fn add_image_step(
        &mut self,
        image: BegunImage,
        step: ImageStep<'static>,
    ) -> Result<(), ParseError>
        ensures { Reads (λ _. lines_held self.new)
            (Some (with_image_step (lines_held self.old) image (image_step_held step.entry))) result }
    {
        self.start(Begun::Image(BegunImage {
            samples: samples_after(image.samples, &step),
            ..image
        }));
        self.put_image_step(step)
    }

    // Puts the three steps of a resolution that is given for each axis behind the others.
    #[tactic(auto, unfolding(crate::specs::Jobs::with_resolutions))]
    fn add_resolutions(&mut self, unit: &str, x: &str, y: &str) -> Result<(), ParseError>
        ensures { Reads (λ _. lines_held self.new)
            (with_resolutions (lines_held self.old) unit.now x.now y.now) result }
    {
        let (unit, x, y) = (read(unit)?, read(x)?, read(y)?);
        self.put_image_step(ImageStep::ResolutionUnit(unit))?;
        self.put_image_step(ImageStep::XResolution(x))?;
        self.put_image_step(ImageStep::YResolution(y))
    }

    // The end of an image that a name and the words behind it stand for, if they are one.
    #[tactic(auto, unfolding(crate::specs::Jobs::end_of_image))]
    fn image_end(
        &self,
        samples: SampleWords,
        name: &str,
        words: &str,
    ) -> Result<Option<ImageEnd<'static>>, ParseError>
        ensures { Reads (λ e. e) (end_of_image samples name.now words.now) result }
    {
        match (name, words) {
            ("finish", "") => Ok(Some(ImageEnd::Finish)),
            ("discard", "") => Ok(Some(ImageEnd::Discard)),
            ("write_data", _) => {
                let numbers = samples.samples_of(self.alloc, words)?;
                Ok(Some(ImageEnd::WriteData(JobSamples::from_numbers(numbers))))
            }
            _ => Ok(None),
        }
    }

    // Reads a step of an image.
    #[tactic(auto, unfolding(crate::specs::Jobs::image_step_line))]
    fn read_image_step(
        &mut self,
        image: BegunImage,
        name: &str,
        words: &str,
    ) -> Result<(), ParseError>
        ensures { Reads (λ _. lines_held self.new)
            (image_step_line (lines_held self.old) image name.now words.now) result }
    {
        if name == "resolution"
            && let Some((unit, x, y)) = three_words(words)
        {
            return self.add_resolutions(unit, x, y);
        }
        let step = image_step_of(self.alloc, image.samples, name, words)?;
        self.add_image_step(image, step)
    }

    // Reads a line of an image: a step, or its end.
    #[tactic(auto, unfolding(crate::specs::Jobs::image_line))]
    fn go_on_image(&mut self, image: BegunImage, line: &str) -> Result<(), ParseError>
        ensures { Reads (λ _. lines_held self.new)
            (image_line (lines_held self.old) image (first_word line.now) (words_behind line.now))
            result }
    {
        let (name, words) = first_word(line);
        match self.image_end(image.samples, name, words)? {
            Some(end) => self.end_image(image, end),
            None => self.read_image_step(image, name, words),
        }
    }

    // Reads a line that isn't empty and no comment.
    #[tactic(auto, unfolding(crate::specs::Jobs::job_line))]
    fn read_line(&mut self, line: &str) -> Result<(), ParseError>
        ensures { Reads (λ _. lines_held self.new)
            (job_line (lines_held self.old) self.old.begun line.now) result }
    {
        match self.begun {
            None => {
                let (name, words) = first_word(line);
                self.begin(name, words)
            }
            Some(Begun::Directory { chained, parent }) => {
                self.go_on_directory(chained, parent, line)
            }
            Some(Begun::Image(image)) => self.go_on_image(image, line),
        }
    }

    // Reads the next line, outside or inside of a job.
    #[tactic(auto, unfolding(crate::specs::Jobs::with_line, crate::specs::Jobs::lines_held))]
    fn take(&mut self, line: &str) -> Result<(), ParseError>
        ensures { Reads (λ _. lines_held self.new)
            (with_line (lines_held self.old) line.now) result }
    {
        if says_nothing(line) {
            return Ok(());
        }
        self.read_line(line)
    }

    // All jobs, if none is left open.
    fn all(self) -> Option<Vec<Job<'static>>>
        ensures { option_map (λ jobs. map job_held jobs.items) result
            ≡ (if is_none self.begun then Some (map job_held self.jobs.items) else None) }
    {
        match self.begun {
            None => Some(self.jobs),
            Some(_) => None,
        }
    }
}

/// The jobs that the lines of a text list; or the number, from 1, of the first line that is no job
/// and no step of one. A text that ends inside of a job is refused at the number of the line behind
/// its last one. Empty lines and lines that begin with `#` are ignored.
pub fn jobs_of(alloc: Global, text: &str) -> Result<Result<Vec<Job<'static>>, usize>, AllocError>
    ensures { IfOk result (λ listed. jobs_spelled text.now
        ≡ result_map_both (λ jobs. map job_held jobs.items) (λ line. line) listed) }
{
    let mut list = JobList::new(alloc);
    let mut number = 1usize;
    for line in text.lines() {
        match list.take(line) {
            Ok(()) => number = number.saturating_add(1),
            Err(ParseError::Form) => return Ok(Err(number)),
            Err(ParseError::OutOfMemory) => return Err(AllocError),
        }
    }
    Ok(list.all().ok_or(number))
}
