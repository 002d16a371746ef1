//! The programs and the lines of README.md and CALLING.md that no other crate has.
//! `docs/definitions/quote --check` compares them.

use crate::report::Report;
use std::alloc::{AllocError, Global};
use std::{env, fs, io};
use tiff::TiffResult;
use tiff::decoder::{Decoder, DecodingResult};
use tiff::encoder::colortype::{ColorTypeName, Gray8, RGB8};
use tiff::encoder::script::{ImageEnd, ImageJob, Job, JobReply, JobSamples, run_jobs};
use tiff::encoder::{Compression, TiffEncoder, TiffKindStandard};
use tiff::io::{MemorySink, MemorySource, Sink, Source};
use tiff::tags::Tag;
use tiff_pages::pages::{PageItem, PageList, pages};

// The samples of a file's first page.
fn samples(alloc: Global, file: Vec<u8>) -> TiffResult<DecodingResult> {
    Decoder::new(alloc, MemorySource::new(file))?.read_image()
}

// A file of one gray page.
fn gray(alloc: Global, width: u32, height: u32, samples: &[u8]) -> TiffResult<Vec<u8>> {
    let mut encoder = TiffEncoder::new(alloc, MemorySink::new(Vec::new(alloc)))?;
    encoder.write_image::<Gray8>(width, height, samples)?;
    Ok(encoder.into_inner().into_vec())
}

// Prints how many bytes the samples of each file's first page have.
fn print_lengths(rt: HostRuntime) -> io::Result<()> {
    for name in env::args(&rt)?.skip(1) {
        let source = MemorySource::new(fs::read(&rt, name.as_str())?);
        match Decoder::new(rt.alloc(), source).and_then(|mut decoder| decoder.read_image()) {
            Ok(mut image) => println!(rt; "{} bytes", image.as_buffer(0).byte_len())?,
            Err(error) => println!(rt; "{error}")?,
        }
    }
    Ok(())
}

// The line of a page of a file.
fn page_line(alloc: Global, item: &PageItem) -> Result<String, AllocError> {
    match &item.page {
        Ok(facts) => format!(in alloc; "{}: {} by {}", item.place.0, facts.width, facts.height),
        Err(error) => format!(in alloc; "{}: {error}", item.place.0),
    }
}

// Adds a line for each page of a file, and one for the error of its end.
fn push_pages<R: Source>(
    alloc: Global,
    decoder: &mut Decoder<R>,
    lines: &mut Vec<String>,
) -> TiffResult<()> {
    let PageList { pages, end } = pages(decoder)?;
    for item in pages.iter() {
        lines.push(page_line(alloc, item)?)?;
    }
    if let Some(error) = &end {
        lines.push(format!(in alloc; "{error}")?)?;
    }
    Ok(())
}

// Writes an image in tiles.
fn write_tiles<W: Sink>(
    encoder: &mut TiffEncoder<W>,
    width: u32,
    height: u32,
    samples: &[u8],
) -> TiffResult<()> {
    let mut image = encoder.new_image::<RGB8>(width, height)?;
    let cut = image.tiles(16, 16);
    let written = image.write_data(samples);
    cut?;
    written?;
    Ok(())
}

// Writes a directory of one tag.
fn write_directory<W: Sink>(encoder: &mut TiffEncoder<W>) -> TiffResult<()> {
    let mut directory = encoder.image_directory()?;
    let written = directory.write_tag(Tag::ImageWidth, 5u32);
    let ended = directory.finish();
    written?;
    ended?;
    Ok(())
}

// A file of one packed image, by a list of jobs.
fn packed(alloc: Global, samples: Vec<u64>) -> TiffResult<Vec<u8>> {
    let jobs = [
        Job::Compression(Compression::PackbitsRows),
        Job::Image(ImageJob {
            color: ColorTypeName::Gray8,
            width: 2,
            height: 2,
            steps: Vec::new(alloc),
            end: ImageEnd::WriteData(JobSamples::from_numbers(samples)),
        }),
    ];
    let mut replies = Vec::new(alloc);
    let sink = run_jobs::<MemorySink, TiffKindStandard>(
        alloc,
        MemorySink::new(Vec::new(alloc)),
        &jobs,
        &mut replies,
    )?;
    for reply in replies {
        let JobReply { steps: _, last } = reply;
        last?;
    }
    Ok(sink.into_vec())
}

// Adds the lines of a file in tiles with a directory of one tag behind its page.
fn add_tiles(report: &mut Report) -> TiffResult<()> {
    let alloc = report.alloc();
    let mut encoder = TiffEncoder::new(alloc, MemorySink::new(Vec::new(alloc)))?;
    report.line(
        "tiles",
        write_tiles(&mut encoder, 2, 1, &[1, 2, 3, 4, 5, 6]),
    );
    report.line("directory", write_directory(&mut encoder));
    let file = encoder.into_inner().into_vec();
    let mut decoder = Decoder::new(alloc, MemorySource::new(file))?;
    let mut lines = Vec::new(alloc);
    let listed = push_pages(alloc, &mut decoder, &mut lines);
    report.line("pages", listed);
    report.line("their lines", lines);
    Ok(())
}

/// Adds the lines of what README.md and CALLING.md show.
pub fn add_lines(report: &mut Report) -> TiffResult<()> {
    let alloc = report.alloc();
    let _program = print_lengths;
    let file = gray(alloc, 2, 1, &[7, 8])?;
    report.line("samples", samples(alloc, file));
    let file = packed(alloc, vec![in alloc; 9u64; 4]?)?;
    report.line("packed samples", samples(alloc, file));
    add_tiles(report)
}
