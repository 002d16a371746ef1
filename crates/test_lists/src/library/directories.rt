//! Calls of directories that no list of jobs makes: parents that no job wrote, offsets that no kind
//! of file has, and an image to which a directory links.

use crate::library::told::Told;
use crate::sink::ScriptedSink;
use std::alloc::Global;
use tiff_base::directory::Directory;
use tiff_base::error::TiffResult;
use tiff_base::io::Sink;
use tiff_base::tags::{IfdPointer, Tag};
use tiff_encode::encoder::{DirectoryOffset, TiffEncoder, TiffKind, TiffKindBig, TiffKindStandard};
use tiff_value::encoder::colortype::Gray8;

// Ends a directory below a parent that was never written.
fn lose_parent<W: Sink, K: TiffKind>(
    alloc: Global,
    encoder: &mut TiffEncoder<W, K>,
) -> TiffResult<()> {
    let parent = DirectoryOffset::new(IfdPointer(1000), &Directory::empty(alloc))?;
    let mut directory = encoder.extra_directory()?;
    directory.set_parent(&parent);
    directory.finish()
}

// Writes a directory of one tag to which no other links, and returns its offset.
fn write_small<W: Sink, K: TiffKind>(
    told: &mut Told,
    encoder: &mut TiffEncoder<W, K>,
) -> TiffResult<DirectoryOffset<K>> {
    let mut small = encoder.extra_directory()?;
    let answer = small.write_tag(Tag::ImageWidth, 5u32);
    told.line("DirectoryEncoder::write_tag", answer);
    small.finish_with_offsets()
}

// Writes that directory, and an image of three columns to which it links.
fn write_reduced<W: Sink, K: TiffKind>(
    told: &mut Told,
    encoder: &mut TiffEncoder<W, K>,
) -> TiffResult<()> {
    let parent = write_small(told, encoder)?;
    let mut reduced = encoder.new_image::<Gray8>(3, 1)?;
    reduced.encoder().set_parent(&parent);
    reduced.write_data(&[3, 4, 5])
}

// Adds the directory without its parent; the directory and the image; and the file: its length, its
// header, and its bytes from the directory's link up to behind the image's samples.
fn add_file<K: TiffKind>(
    told: &mut Told,
    mut encoder: TiffEncoder<ScriptedSink, K>,
    header: usize,
    image: (usize, usize),
) {
    let answer = lose_parent(told.alloc(), &mut encoder);
    told.line("DirectoryEncoder::finish", answer);
    let answer = write_reduced(told, &mut encoder);
    told.line("ImageEncoder::write_data", answer);
    let file = encoder.into_inner().into_vec();
    let parts = (file.get(..header), file.get(image.0..image.1));
    told.line("TiffEncoder::into_inner", (file.len(), parts));
}

// Adds the results of making the offset of a directory without entries, in both kinds of files.
fn add_offset(told: &mut Told, offset: u64) {
    let (pointer, none) = (IfdPointer(offset), Directory::empty(told.alloc()));
    let classic = DirectoryOffset::<TiffKindStandard>::new(pointer, &none);
    let big = DirectoryOffset::<TiffKindBig>::new(pointer, &none);
    let pointers = (classic.map(|it| it.pointer), big.map(|it| it.pointer));
    told.line("DirectoryOffset::new", (offset, pointers));
}

/// Adds the lines of offsets, of a classic file, and of a BigTIFF file.
pub fn add_lines(told: &mut Told) -> TiffResult<()> {
    for offset in [0, 4294967295, 4294967296, u64::MAX] {
        add_offset(told, offset);
    }
    let classic = TiffEncoder::new(told.alloc(), told.empty_sink()?)?;
    add_file(told, classic, 8, (22, 47));
    let big = TiffEncoder::new_big(told.alloc(), told.empty_sink()?)?;
    add_file(told, big, 16, (44, 55));
    Ok(())
}
