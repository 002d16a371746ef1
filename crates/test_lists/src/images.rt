//! Images of a color type, cut, packed and predicted in every way, are read back.

use crate::job_list::{JobRun, Start, run_text};
use crate::manner::{Appetite, Manner};
use crate::numbers::number;
use crate::ranges::Ranges;
use crate::reader::Reader;
use crate::source::ScriptedSource;
use std::alloc::{AllocError, Global};
use std::fmt::Write;

// A color type, how many samples a pixel has, and how many of a number's 64 bits aren't in a
// sample.
#[derive(Clone, Copy, Drop)]
struct Color<'a> {
    name: &'a str,
    samples: u64,
    shift: u32,
}

// The kind of a file, and how its image is predicted, packed and cut.
#[derive(Clone, Copy, Drop)]
struct Shape {
    big: bool,
    predictor: u32,
    width: u64,
    height: u64,
    method: &'static str,
    steps: &'static str,
    planar: bool,
}

const SIDES: [(u64, u64); 3] = [(1, 1), (17, 5), (20, 20)];

const METHODS: [&str; 3] = ["uncompressed", "packbits-chunks", "packbits"];

// The steps that cut an image, and whether its samples lie in planes.
const FORMS: [(&str, bool); 5] = [
    ("", false),
    ("rows_per_strip 2\n", false),
    ("tiles 16 16\n", false),
    ("planar\n", true),
    ("planar\ntiles 16 16\n", true),
];

// How many shapes there are: of two kinds of files, predicted or not, of three sides, packed by
// three methods, and cut in five forms.
const SHAPES: usize = 180;

// The shape with this number.
fn shape_of(k: usize) -> Shape {
    let (width, height) = SIDES[k / 15 % 3];
    let (steps, planar) = FORMS[k % 5];
    Shape {
        big: k >= SHAPES / 2,
        predictor: if k / 45 % 2 == 0 { 1 } else { 2 },
        width,
        height,
        method: METHODS[k / 5 % 3],
        steps,
        planar,
    }
}

// The color type that the words are: its name, how many samples a pixel has, and how many bytes a
// sample has.
fn color_of(words: &str) -> Option<Color<'_>> {
    let (name, words) = words.split_once(' ')?;
    let (samples, size) = words.split_once(' ')?;
    let samples = samples.parse::<u64>().ok()?;
    let size = size.parse::<u32>().ok()?;
    Some(Color {
        name,
        samples,
        shift: 64u32.saturating_sub(size.saturating_mul(8)),
    })
}

// The number whose highest bits are a sample. Three samples in a row have the same number.
fn number_of(index: u64) -> u64 {
    number(index / 3)
}

impl Color<'_> {
    // Whether a sample has a sign: of `GrayI8` and the like.
    fn is_signed(self) -> bool {
        self.name.starts_with("GrayI")
    }

    // Adds the word for a sample.
    fn push_word(self, text: &mut String, index: u64) -> Result<(), AllocError> {
        let shift = self.shift % 64;
        if self.is_signed() {
            let sample = number_of(index).cast_signed() >> shift;
            write!(text, " {sample}")
        } else {
            let sample = number_of(index) >> shift;
            write!(text, " 0x{sample:x}")
        }
    }

    // Adds the bytes of a sample, the lowest one first.
    fn push_bytes(self, bytes: &mut Vec<u8>, index: u64) -> Result<(), AllocError> {
        let size = 8 - self.shift % 64 / 8;
        let sample = number_of(index) >> (self.shift % 64);
        bytes.extend_from_slice(&sample.to_le_bytes()[..size as usize])
    }
}

impl Shape {
    fn pixels(self) -> u64 {
        self.width.saturating_mul(self.height)
    }

    // The index of the sample that is read at a place, among those that are written: pixel by
    // pixel, or plane by plane.
    fn index_at(self, place: u64, samples: u64) -> u64 {
        if !self.planar {
            return place;
        }
        let pixels = self.pixels().max(1);
        (place % pixels)
            .saturating_mul(samples)
            .saturating_add(place / pixels)
    }
}

// The jobs that write an image.
fn jobs_text(alloc: Global, color: Color<'_>, shape: Shape) -> Result<String, AllocError> {
    let Shape {
        predictor,
        width,
        height,
        method,
        steps,
        ..
    } = shape;
    let name = color.name;
    let mut text = format!(in alloc;
        "predictor {predictor}\ncompression {method}\nimage {name} {width} {height}\n{steps}write_data"
    )?;
    for index in 0..shape.pixels().saturating_mul(color.samples) {
        color.push_word(&mut text, index)?;
    }
    Ok(text)
}

// The bytes of the samples that are read.
fn bytes_wanted(alloc: Global, color: Color<'_>, shape: Shape) -> Result<Vec<u8>, AllocError> {
    let mut bytes = Vec::new(alloc);
    for place in 0..shape.pixels().saturating_mul(color.samples) {
        color.push_bytes(&mut bytes, shape.index_at(place, color.samples))?;
    }
    Ok(bytes)
}

// The reply to a step or to an end that did more than nothing, if there is one: then it was
// refused.
fn refusal_in(lines: &str) -> Option<&str> {
    for line in lines.lines() {
        if line != "nothing" {
            return Some(line);
        }
    }
    None
}

// The color type of a file's image, and whether its samples are the wanted ones.
fn read_text(alloc: Global, file: Vec<u8>, wanted: &[u8]) -> Result<String, AllocError> {
    let mut reader = Reader::new(alloc);
    let opened = reader.open(ScriptedSource::of_bytes(file)?, false)?;
    if opened.as_str() != "opened" {
        return Ok(opened);
    }
    let color = reader.answer("colortype")?;
    let len = wanted.len();
    let words = format!(in alloc; "read_image_bytes {len}")?;
    let read = reader.answer(&words)?;
    if read.as_str() == format!(in alloc; "(), {wanted:?}")?.as_str() {
        return format!(in alloc; "{color}, as written");
    }
    format!(in alloc; "{color}, {read}")
}

// The result of writing an image and reading it.
fn image_text(alloc: Global, color: Color<'_>, shape: Shape) -> Result<String, AllocError> {
    let start = Start {
        big: shape.big,
        file: &[],
        link: None,
    };
    let jobs = jobs_text(alloc, color, shape)?;
    let Ok(run) = run_text(alloc, start, &jobs, Manner::plain(Appetite::All))? else {
        return String::from_str(alloc, "no such jobs");
    };
    let JobRun {
        text,
        handed_back,
        recorded: _,
    } = run;
    if let Some(refusal) = refusal_in(&text) {
        return String::from_str(alloc, refusal);
    }
    let file = handed_back.unwrap_or(Vec::new(alloc));
    read_text(alloc, file, &bytes_wanted(alloc, color, shape)?)
}

/// The result of writing and reading an image of a color type, for each shape by its number.
pub fn images_text(alloc: Global, words: &str) -> Result<String, AllocError> {
    let Some(color) = color_of(words) else {
        return String::from_str(alloc, "no such images");
    };
    let mut ranges = Ranges::new(alloc, format!(in alloc; "{SHAPES} images")?);
    for k in 0..SHAPES {
        ranges.add(k, image_text(alloc, color, shape_of(k))?)?;
    }
    ranges.into_lines(SHAPES)
}
