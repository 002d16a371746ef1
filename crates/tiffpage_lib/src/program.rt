//! The program: it does what a command line asks for.

ghost use Rattle.std.specs.Prelude.{◌≡◌, ◌≤◌, ◌⊎◌, [], MatchResult, None, map, option_map, string_bytes, true};
ghost use Rattle.std.specs.List.{list_any};
ghost use Rattle.std.specs.Result.{result_map_both};
ghost use Rattle.std.specs.Io.KnownBytes as known;
ghost use Rattle.tiffpage_lib.specs.declared.command.Command.{Command};
ghost use Rattle.tiffpage_lib.specs.declared.failure.Failure.TheVariants as failure;
ghost use Rattle.tiffpage_lib.specs.AtPage.{AnswersUnder, limits_for};
ghost use Rattle.tiffpage_lib.specs.Check.{told_under};
ghost use Rattle.tiffpage_lib.specs.Commands.{Adds, AppendsJobs, AreLines, AreText, Calls, Does, Grays, Jobs, ListsCalls, ListsJobs, Raws, ReadsInput, ReadsText, Tags, Tells, TellsLong, Views, WritesKept, WritesOutput, is_page, line_after, page_or_none, samples_of};
ghost use Rattle.tiffpage_lib.specs.Directories.{told_of_directories};
ghost use Rattle.tiffpage_lib.specs.List.{told_of_list};
ghost use Rattle.tiffpage_lib.specs.Files.{Appends, Compares, Measures, Reads, Writes};
ghost use Rattle.tiffpage_lib.specs.Status.{Ends, PrintsLines, Runs, is_stream};
ghost use Rattle.tiffpage_lib.specs.Words.{AskFor};

use crate::calls::replies_to;
use crate::command::{Command, parse};
use crate::failure::Failure;
use crate::files::Files;
use crate::help::{HELP, version_line};
use crate::in_parts::{check_in_parts, directories_in_parts};
use crate::jobs::{Written, append_by, write_by};
use crate::list::{file_check, file_directories, file_list};
use crate::listing::page_tags;
use crate::samples::{page_planes, page_samples};
use crate::view::page_picture;
use std::alloc::Global;
use std::io::Write;
use tiff::decoder::Limits;
use tiff::decoder::script::Call;
use tiff::encoder::script::Job;
use tiff::tags::FileKind;
use tiff::{TiffError, TiffResult};
use tiff_append::last_link::last_link;
use tiff_append::sink::Addition;
use tiff_base::windows::SeenFile;
use tiff_pages::lines::Lines;
use tiff_script::call::calls_of;
use tiff_script::jobs::jobs_of;
use tiff_uses::gray_file;

// All bytes of a file.
fn read<'a, F: Files>(files: &mut F, name: &'a str) -> Result<Vec<u8>, Failure<'a>>
    ensures { Reads F.reads name.entry files.old (result_map_both (λ bytes. bytes.items) (λ e. e) result)
        files.new }
{
    match files.read(name) {
        Ok(bytes) => Ok(bytes),
        Err(TiffError::OutOfMemory) => Err(Failure::Tiff(TiffError::OutOfMemory)),
        Err(_) => Err(Failure::Read(name)),
    }
}

// Makes a file of bytes.
fn write<'a, F: Files>(files: &mut F, name: &'a str, bytes: &[u8]) -> Result<(), Failure<'a>>
    ensures { Writes F.writes name.entry bytes.now files.old result files.new }
{
    match files.write(name, bytes) {
        Ok(()) => Ok(()),
        Err(TiffError::OutOfMemory) => Err(Failure::Tiff(TiffError::OutOfMemory)),
        Err(_) => Err(Failure::Write(name)),
    }
}

// The number, from 1, of the line that goes on behind these bytes.
fn line_after(bytes: &[u8]) -> usize
    ensures { result ≡ line_after bytes.now }
{
    let ended = bytes.iter().filter(|byte| **byte == b'\n').count();
    ended.saturating_add(1)
}

// All bytes of standard input.
fn read_stream<'a, F: Files>(files: &mut F) -> Result<Vec<u8>, Failure<'a>>
    ensures { ReadsInput F.reads files.old (result_map_both (λ bytes. bytes.items) (λ e. e) result)
        files.new }
{
    read(files, STREAM)
}

// The text that bytes are.
fn text_of<'a>(bytes: Vec<u8>) -> Result<String, Failure<'a>>
    ensures { AreText bytes.items (result_map_both string_bytes (λ e. e) result) }
{
    match String::from_utf8(bytes) {
        Ok(text) => Ok(text),
        Err(fault) => {
            let text = &fault.as_bytes()[..fault.utf8_error().valid_up_to()];
            Err(Failure::NoText(line_after(text)))
        }
    }
}

// The text of standard input.
fn read_input<'a, F: Files>(files: &mut F) -> Result<String, Failure<'a>>
    ensures { ReadsText F.reads files.old (result_map_both string_bytes (λ e. e) result) files.new }
{
    let bytes = read_stream(files)?;
    text_of(bytes)
}

// The calls that standard input lists.
fn listed_calls<'a, F: Files>(alloc: Global, files: &mut F) -> Result<Vec<Call>, Failure<'a>>
    ensures { ListsCalls F.reads files.old (result_map_both (λ calls. calls.items) (λ e. e) result)
        files.new }
{
    let text = read_input(files)?;
    match calls_of(alloc, text.as_str()) {
        Ok(Ok(calls)) => Ok(calls),
        Ok(Err(number)) => Err(Failure::NoCall(number)),
        Err(_) => Err(Failure::Tiff(TiffError::OutOfMemory)),
    }
}

// The jobs that standard input lists.
fn listed_jobs<'a, F: Files>(alloc: Global, files: &mut F) -> Result<Vec<Job<'static>>, Failure<'a>>
    ensures { ListsJobs F.reads files.old (result_map_both (λ jobs. jobs.items) (λ e. e) result)
        files.new }
{
    let text = read_input(files)?;
    match jobs_of(alloc, text.as_str()) {
        Ok(Ok(jobs)) => Ok(jobs),
        Ok(Err(number)) => Err(Failure::NoJob(number)),
        Err(_) => Err(Failure::Tiff(TiffError::OutOfMemory)),
    }
}

// The replies to the calls that standard input lists, one line for each.
fn call_replies<'a, F: Files>(
    alloc: Global,
    input: &'a str,
    files: &mut F,
) -> Result<Lines, Failure<'a>>
    ensures { Calls F.reads input.entry files.old result files.new }
{
    let file = read(files, input)?;
    let calls = listed_calls(alloc, files)?;
    let replies = replies_to(alloc, file, &calls)?;
    Ok(told(replies))
}

// Writes the file that jobs left, if there is one, and returns the lines of their replies.
fn write_kept<'a, F: Files>(
    output: &'a str,
    written: Written,
    files: &mut F,
) -> Result<Lines, Failure<'a>>
    ensures { WritesKept F.writes output.entry (option_map (λ file. file.items) written.file) written.lines
        files.old result files.new }
{
    let Written { file, lines } = written;
    match file {
        Some(file) => write(files, output, &file).and(Ok(lines)),
        None => Ok(lines),
    }
}

// Whether a job makes an image or a directory.
fn is_page(job: &Job<'_>) -> bool
    ensures { result ≡ is_page job.now }
{
    match job {
        Job::Image(_) | Job::Directory(_) => true,
        _ => false,
    }
}

// Whether one of the jobs makes a page.
fn have_page(jobs: &[Job<'_>]) -> bool
    ensures { result ≡ list_any is_page jobs.now }
{
    jobs.iter().any(|job| is_page(job))
}

// Refuses a list of jobs without a page, unless it keeps going.
fn refuse_no_page<'a>(keep_going: bool, jobs: &[Job<'_>]) -> Result<(), Failure<'a>>
    ensures { result ≡ page_or_none keep_going jobs.now }
{
    if keep_going || have_page(jobs) {
        return Ok(());
    }
    Err(Failure::NoPage)
}

// Runs the jobs that standard input lists, writes their file, if it is to be written, and returns a
// line for each reply.
fn job_replies<'a, F: Files>(
    alloc: Global,
    output: &'a str,
    kind: FileKind,
    keep_going: bool,
    files: &mut F,
) -> Result<Lines, Failure<'a>>
    ensures { Jobs F.reads F.writes output.entry kind keep_going files.old result files.new }
{
    let jobs = listed_jobs(alloc, files)?;
    refuse_no_page(keep_going, &jobs)?;
    let written = write_by(alloc, kind, keep_going, &jobs)?;
    write_kept(output, written, files)
}

// Adds what jobs wrote behind a file to the file: first the bytes behind it, and then its last
// link, at an offset.
fn append<'a, F: Files>(
    name: &'a str,
    addition: &Addition,
    at: u64,
    files: &mut F,
) -> Result<(), Failure<'a>>
    ensures { Appends F.appends name.entry addition.now.more.items at addition.now.link.items files.old
        result files.new }
{
    match files.append(name, &addition.more, at as usize, &addition.link) {
        Ok(()) => Ok(()),
        Err(TiffError::OutOfMemory) => Err(Failure::Tiff(TiffError::OutOfMemory)),
        Err(_) => Err(Failure::Write(name)),
    }
}

// Adds what jobs wrote behind a file to the file, if there is such, and returns the lines of their
// replies.
fn add<'a, F: Files>(
    name: &'a str,
    at: u64,
    written: Option<Addition>,
    lines: Lines,
    files: &mut F,
) -> Result<Lines, Failure<'a>>
    ensures { Adds F.reads F.appends name.entry at written lines files.old result files.new }
{
    match written {
        Some(addition) => append(name, &addition, at, files).and(Ok(lines)),
        None => Ok(lines),
    }
}

// Runs the jobs that standard input lists behind a file, adds what they wrote to it, if none of
// them is refused, and returns a line for each reply.
fn append_jobs<'a, F: Files>(
    alloc: Global,
    name: &'a str,
    files: &mut F,
) -> Result<Lines, Failure<'a>>
    ensures { AppendsJobs F.reads F.appends name.entry files.old result files.new }
{
    let file = read(files, name)?;
    let place = last_link(alloc, &file)?;
    let jobs = listed_jobs(alloc, files)?;
    refuse_no_page(false, &jobs)?;
    let (written, lines) = append_by(alloc, &file, place, &jobs)?;
    add(name, place.at, written, lines, files)
}

// Writes bytes into a file, and returns no lines.
fn write_alone<'a, F: Files>(
    alloc: Global,
    files: &mut F,
    name: &'a str,
    bytes: &[u8],
) -> Result<Lines, Failure<'a>>
    ensures { WritesOutput F.writes name.entry bytes.now files.old result files.new }
{
    write(files, name, bytes)?;
    Ok(told(String::new(alloc)))
}

// Writes the file of a gray page, whose samples are the bytes of the input.
fn write_gray<'a, F: Files>(
    alloc: Global,
    output: &'a str,
    sides: (u32, u32),
    input: &'a str,
    files: &mut F,
) -> Result<Lines, Failure<'a>>
    ensures { Grays F.reads F.writes output.entry sides.0 sides.1 input.entry files.old result files.new }
{
    let samples = read(files, input)?;
    let (width, height) = sides;
    let file = gray_file(alloc, width, height, &samples)?;
    write_alone(alloc, files, output, &file)
}

// The limits that a command asks for.
fn limits_for(limit: Option<usize>) -> Limits
    ensures { result ≡ limits_for limit }
{
    let mut limits = Limits::default();
    if let Some(bytes) = limit {
        limits.decoding_buffer_size = bytes;
        limits.intermediate_buffer_size = bytes;
    }
    limits
}

// The samples of a page: of all planes, or of the first one.
fn samples_by(
    alloc: Global,
    file: Vec<u8>,
    page: u32,
    planes: bool,
    limits: Limits,
) -> TiffResult<Vec<u8>>
    ensures { AnswersUnder (λ v. v.items) (samples_of planes) limits result file.items page }
{
    if planes {
        page_planes(alloc, file, page, limits)
    } else {
        page_samples(alloc, file, page, limits)
    }
}

// Writes the samples of a page: of all planes, or of the first one.
fn write_samples<'a, F: Files>(
    alloc: Global,
    input: &'a str,
    asked: (u32, bool, Option<usize>),
    output: &'a str,
    files: &mut F,
) -> Result<Lines, Failure<'a>>
    ensures { Raws F.reads F.writes input.entry asked.0 output.entry asked.1 asked.2 files.old result files.new }
{
    let (page, planes, limit) = asked;
    let file = read(files, input)?;
    let samples = samples_by(alloc, file, page, planes, limits_for(limit))?;
    write_alone(alloc, files, output, &samples)
}

// Refuses an output that is the file of the input.
fn refuse_input<'a, F: Files>(
    files: &mut F,
    input: &str,
    output: &'a str,
) -> Result<(), Failure<'a>>
    ensures { Compares F.compares input.entry output.entry files.old result files.new }
{
    if files.are_same(input, output)? {
        return Err(Failure::WriteInput(output));
    }
    Ok(())
}

// Writes the picture of a page, but not in the place of its file: the file has more than the
// picture.
fn write_picture<'a, F: Files>(
    alloc: Global,
    input: &'a str,
    page: u32,
    output: &'a str,
    files: &mut F,
) -> Result<Lines, Failure<'a>>
    ensures { Views F.reads F.writes F.compares input.entry page output.entry files.old result files.new }
{
    let file = read(files, input)?;
    refuse_input(files, input, output)?;
    let picture = page_picture(alloc, file, page)?;
    write_alone(alloc, files, output, &picture)
}

// The entries of a page of a file, one line for each.
fn list_page<'a, F: Files>(
    alloc: Global,
    input: &'a str,
    page: u32,
    files: &mut F,
) -> Result<Lines, Failure<'a>>
    ensures { Tags F.reads input.entry page files.old result files.new }
{
    let file = read(files, input)?;
    let entries = page_tags(alloc, file, page)?;
    Ok(told(entries))
}

// The lines of a file, or its error.
fn told_lines<'a>(lines: TiffResult<Lines>) -> Result<Lines, Failure<'a>>
    ensures { result ≡ result_map_both (λ x. x) (λ e. failure.Tiff e) lines }
{
    lines.map_err(|fault| Failure::Tiff(fault))
}

// The pages of a file, one line for each.
fn list_pages<'a, F: Files>(
    alloc: Global,
    input: &'a str,
    files: &mut F,
) -> Result<Lines, Failure<'a>>
    ensures { Tells F.reads told_of_list input.entry files.old result files.new }
{
    let file = read(files, input)?;
    told_lines(file_list(alloc, file))
}

// The length of a file that is to be read by parts; `None` for one that is to be read whole.
fn len_in_parts<'a, F: Files>(files: &mut F, name: &'a str) -> Result<Option<u64>, Failure<'a>>
    ensures { Measures F.measures name.entry files.old result files.new }
{
    match files.len(name) {
        Ok(len) => Ok(len.filter(|len| *len > MOST_WHOLE)),
        Err(TiffError::OutOfMemory) => Err(Failure::Tiff(TiffError::OutOfMemory)),
        Err(_) => Err(Failure::Read(name)),
    }
}

// The directories of a file that is read whole, one line for each.
fn whole_directories<'a, F: Files>(
    alloc: Global,
    input: &'a str,
    files: &mut F,
) -> Result<Lines, Failure<'a>>
    ensures { Tells F.reads told_of_directories input.entry files.old result files.new }
{
    let file = read(files, input)?;
    told_lines(file_directories(alloc, file))
}

// The directories of a file that the chain and the tags reach, one line for each.
fn list_directories<'a, F: Files, S: SeenFile>(
    alloc: Global,
    input: &'a str,
    files: &mut F,
) -> Result<Lines, Failure<'a>>
    ensures { TellsLong F.reads F.measures F.reads_part S.bytes told_of_directories input.entry files.old
        result files.new }
{
    match len_in_parts(files, input)? {
        Some(len) => directories_in_parts::<S, F>(alloc, input, len, files),
        None => whole_directories(alloc, input, files),
    }
}

// The pages of a file that is read whole, each read whole, one line for each.
fn check_whole<'a, F: Files>(
    alloc: Global,
    input: &'a str,
    limits: Limits,
    files: &mut F,
) -> Result<Lines, Failure<'a>>
    ensures { Tells F.reads (told_under limits) input.entry files.old result files.new }
{
    let file = read(files, input)?;
    told_lines(file_check(alloc, file, limits))
}

// The pages of a file, each read whole, one line for each.
fn check_pages<'a, F: Files, S: SeenFile>(
    alloc: Global,
    input: &'a str,
    limit: Option<usize>,
    files: &mut F,
) -> Result<Lines, Failure<'a>>
    ensures { TellsLong F.reads F.measures F.reads_part S.bytes (told_under (limits_for limit)) input.entry
        files.old result files.new }
{
    let limits = limits_for(limit);
    match len_in_parts(files, input)? {
        Some(len) => check_in_parts::<S, F>(alloc, input, len, &limits, files),
        None => check_whole(alloc, input, limits, files),
    }
}

// Lines without an error.
fn told(text: String) -> Lines
    ensures { AreLines (string_bytes text) result }
{
    Lines {
        text,
        end: None,
        well: true,
    }
}

// Lines without an error, copied from a text.
fn told_text<'a>(alloc: Global, text: &str) -> Result<Lines, Failure<'a>>
    ensures { MatchResult result (AreLines text.now) (λ e. e ≡ failure.Tiff TiffError.OutOfMemory) }
{
    match String::from_str(alloc, text) {
        Ok(text) => Ok(told(text)),
        Err(_) => Err(Failure::Tiff(TiffError::OutOfMemory)),
    }
}

// The line of the version.
fn told_version<'a>(alloc: Global) -> Result<Lines, Failure<'a>>
    ensures { MatchResult result (λ lines. AreLines (string_bytes lines.text) lines)
        (λ e. e ≡ failure.Tiff TiffError.OutOfMemory) }
{
    match version_line(alloc) {
        Ok(line) => Ok(told(line)),
        Err(_) => Err(Failure::Tiff(TiffError::OutOfMemory)),
    }
}

// Does what a command asks for, and returns what to print.
fn execute<'a, F: Files, S: SeenFile>(
    alloc: Global,
    command: Command<'a>,
    files: &mut F,
) -> Result<Lines, Failure<'a>>
    ensures { Does F.reads F.writes F.appends F.compares F.measures F.reads_part S.bytes command.entry
        files.old result files.new }
{
    match command {
        Command::Gray {
            output,
            width,
            height,
            input,
        } => write_gray(alloc, output, (width, height), input, files),
        Command::Raw {
            input,
            page,
            output,
            planes,
            limit,
        } => write_samples(alloc, input, (page, planes, limit), output, files),
        Command::View {
            input,
            page,
            output,
        } => write_picture(alloc, input, page, output, files),
        Command::Tags { input, page } => list_page(alloc, input, page, files),
        Command::List { input } => list_pages(alloc, input, files),
        Command::Directories { input } => list_directories::<F, S>(alloc, input, files),
        Command::Check { input, limit } => check_pages::<F, S>(alloc, input, limit, files),
        Command::Calls { input } => call_replies(alloc, input, files),
        Command::Jobs {
            output,
            kind,
            keep_going,
        } => job_replies(alloc, output, kind, keep_going, files),
        Command::Append { file } => append_jobs(alloc, file, files),
        Command::Help => told_text(alloc, HELP),
        Command::Version => told_version(alloc),
    }
}

// Whether an output is standard output.
fn is_stream(output: Option<&str>) -> bool
    ensures { result ≡ is_stream (option_map (λ name. name.now) output.entry) }
{
    match output {
        Some(name) => name == STREAM,
        None => false,
    }
}

const USAGE: &str = "usage: tiffpage gray|raw|tags|list ..\n";

// The most bytes of a file that is read whole, where parts of it could be read.
const MOST_WHOLE: u64 = 67_108_864;

// The name of the standard streams.
const STREAM: &str = "-";

// Prints the line of a failure: by one write, or piece by piece if there is no memory for its text.
fn print_failure<E: Write>(alloc: Global, failure: &Failure<'_>, err: &mut E) {
    let _ = match format!(in alloc; "error: {failure}\n") {
        Ok(line) => err.write_all(line.as_bytes()),
        Err(_) => writeln!(err, "error: {failure}"),
    };
}

// Prints a text on standard output. If that fails, it prints the line of the failure, and returns
// false.
fn print_text<O: Write, E: Write>(alloc: Global, text: &str, out: &mut O, err: &mut E) -> bool
    ensures { result ≡ true → known.Appends (O.contents out.old) (O.contents out.new) text.now
        × (err.new ≡ err.old) }
{
    let is_printed = out.write_all(text.as_bytes()).is_ok();
    if !is_printed {
        print_failure(alloc, &Failure::Write(STREAM), err);
    }
    is_printed
}

// Prints the line of the error by which the chain ends, if there is one. Returns the status behind
// lines that are printed.
fn print_end<E: Write>(alloc: Global, end: Option<TiffError>, well: bool, err: &mut E) -> u8
    ensures status { result ≤ 1 }
    ensures well { result ≡ 0 → (well ≡ true) × (end ≡ None) × (err.new ≡ err.old) }
{
    match end {
        Some(fault) => {
            print_failure(alloc, &Failure::Tiff(fault), err);
            1
        }
        None => u8::from(!well),
    }
}

// Prints lines, and behind them the line of the error by which the chain ends, if there is one.
// Returns the status.
fn print_lines<O: Write, E: Write>(alloc: Global, lines: Lines, out: &mut O, err: &mut E) -> u8
    ensures { PrintsLines lines (O.contents out.old) (O.contents out.new) result }
{
    let Lines { text, end, well } = lines;
    if !print_text(alloc, text.as_str(), out, err) {
        return 1;
    }
    print_end(alloc, end, well, err)
}

// Prints lines on standard error, where standard output has the file of the command. Returns the
// status.
fn print_aside<E: Write>(alloc: Global, lines: Lines, err: &mut E) -> u8
    ensures { PrintsLines lines (E.contents err.old) (E.contents err.new) result }
{
    let Lines { text, end, well } = lines;
    if err.write_all(text.as_bytes()).is_err() {
        return 1;
    }
    print_end(alloc, end, well, err)
}

// Prints what a command returned, or the line of its failure. Returns the status.
fn print_outcome<O: Write, E: Write>(
    alloc: Global,
    outcome: Result<Lines, Failure<'_>>,
    is_aside: bool,
    out: &mut O,
    err: &mut E,
) -> u8
    ensures { Ends O.contents E.contents is_aside outcome.entry out.old out.new err.old err.new result }
{
    match outcome {
        Ok(lines) if is_aside => print_aside(alloc, lines, err),
        Ok(lines) => print_lines(alloc, lines, out, err),
        Err(failure) => {
            print_failure(alloc, &failure, err);
            failure.status()
        }
    }
}

/// Does what the words of a command line ask for, and returns the status.
///
/// 0: all is done. 1: an error, with a line `error: ..` on `err`, also of a write to `out` that
/// fails; or a write to `err` that fails, a page with an error in a check, or a job or a step of
/// one that is refused. 2: a wrong command line, with the usage line on `err`; or a line of
/// standard input that is not UTF-8, no call or no job, with a line `error: ..` on `err` that has
/// the number of that line, before any call is made; or a list of jobs without an image or a
/// directory, unless the words have `--keep-going`. Without words, the usage line is printed on
/// `out`.
///
/// Errors are found in this order: of the command line; of reading the input; of a picture that
/// would replace it; of reading standard input; of its lines; of the decoder or the encoder; of
/// writing the output. After an error nothing is printed on `out`, with two exceptions. If the
/// chain of a file whose pages or directories are listed, or whose pages are checked, ends by an
/// error, the lines of these are printed. The replies to all jobs are printed, also if a job is
/// refused; the file of the jobs is made if none is refused, or if the words have `--keep-going`.
/// If that file is `-`, standard output, the replies are printed on `err`.
///
/// The directories and the check of a file of more than 64 MiB are told by parts of it, of which as
/// few are read as are needed; so are they of any file that these are parts of. Only the contract
/// sees that file, `S`: any will do.
pub fn run<F: Files, O: Write, E: Write, S: SeenFile>(
    alloc: Global,
    words: &[String],
    files: &mut F,
    out: &mut O,
    err: &mut E,
) -> u8
    ensures status { result ≤ 2 }
    ensures asked { result ≡ 0 → (words.now ≡ [])
        ⊎ ((command : Command) × AskFor (map string_bytes words.now) command) }
    ensures runs { Runs O.contents E.contents F.reads F.writes F.appends F.compares F.measures
        F.reads_part S.bytes (map string_bytes words.now) files.old files.new out.old out.new err.old err.new result }
{
    if words.is_empty() {
        return u8::from(!print_text(alloc, USAGE, out, err));
    }
    let Some(command) = parse(words) else {
        return if err.write_all(USAGE.as_bytes()).is_ok() {
            2
        } else {
            1
        };
    };
    let is_aside = is_stream(command.output());
    let outcome = execute::<F, S>(alloc, command, files);
    print_outcome(alloc, outcome, is_aside, out, err)
}
