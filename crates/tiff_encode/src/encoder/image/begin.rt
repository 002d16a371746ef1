//! Begins images.

ghost use Rattle.std.specs.Prelude.{◌≡◌, ◌+◌, ◌*◌, ◌<◌, [], ◌∷◌, IfOk, MatchOption, MatchResult, None, Some, true};
ghost use Rattle.tiff_base.specs.Types.{type_size};
ghost use Rattle.tiff_value.specs.ColorType.{columns_of};
ghost use Rattle.tiff_encode.specs.Calls as calls;
ghost use Rattle.tiff_encode.specs.Calls.{default_rows, image_in, new_directory};
ghost use Rattle.tiff_encode.specs.Causes.{is_past, new_image_cause};
ghost use Rattle.tiff_encode.specs.Ends.{Ends};
ghost use Rattle.tiff_encode.specs.Machine.{compression_method};
ghost use Rattle.tiff_encode.specs.Tagging.{fields_of};
ghost use Rattle.tiff_value.specs.FileBytes.{resolutions_offset};

use crate::encoder::TiffEncoder;
use crate::encoder::directory::state::DirectoryState;
use crate::encoder::directory::values::TagValue;
use crate::encoder::image::chunks::ChunkScratch;
use crate::encoder::image::color::ImageColor;
use crate::encoder::image::state::{ChunkLayout, ImageState};
use crate::encoder::kind::TiffKind;
use crate::encoder::settings::Compression;
use std::alloc::{AllocError, Global};
use std::marker::PhantomData;
use tiff_base::color::ChunkType;
use tiff_base::directory::Directory;
use tiff_base::error::{TiffError, TiffFormatError, TiffResult, UsageError};
use tiff_base::io::Sink;
use tiff_base::tags::{
    CompressionMethod, FileKind, PhotometricInterpretation, PlanarConfiguration, Predictor,
    ResolutionUnit, Tag,
};
use tiff_value::encoder::colortype::ColorType;
use tiff_value::encoder::horizontal_predictor::Sample;
use tiff_value::encoder::tiff_value::TiffValue;

// Returns whether the offset of the second resolution, after padding, exceeds what the kind of file
// can hold.
#[tactic(auto, using(crate::proofs::Offsets::resolutions_of))]
fn is_past_resolutions(kind: FileKind, end: u64) -> bool
    ensures { result ≡ is_past kind (resolutions_offset end + 8) }
{
    let limit = u64::from(u32::MAX);
    match kind {
        FileKind::Classic => end > limit || end + (4 - end % 4) % 4 + 8 > limit,
        FileKind::Big => false,
    }
}

// Returns the compression method that a `Compression` means.
fn method(compression: Compression) -> CompressionMethod
    ensures { result ≡ compression_method compression }
{
    match compression {
        Compression::Uncompressed => CompressionMethod::None,
        Compression::Packbits | Compression::PackbitsRows => CompressionMethod::PackBits,
    }
}

/// Returns the number of columns of a row of `width` pixels of a color type: a column is a pixel,
/// or a byte of packed pixels, of which the last may be partly used. It never fails.
pub fn columns<C: ColorType>(width: u32) -> u32
    ensures count { result ≡ columns_of C.described width }
    ensures some { 0 < width → 0 < result }
{
    ImageColor::of::<C>().columns(width)
}

// Returns the number of rows of a strip by default. `row_bytes` is the number of bytes of a row.
fn rows_of_strip(compression: Compression, row_bytes: u64) -> u32
    requires { 0 < row_bytes }
    ensures rows { result ≡ default_rows compression row_bytes }
    ensures some { 0 < result }
{
    match compression {
        // As the Rust crate has it: about a million bytes a strip, and each packed row a strip.
        Compression::Uncompressed => 1_000_000u64.div_ceil(row_bytes) as u32,
        Compression::Packbits | Compression::PackbitsRows => 1,
    }
}

impl<W: Sink, K: TiffKind> TiffEncoder<W, K> {
    // Returns the first error of `new_image` that applies before a byte is written.
    #[tactic(auto, unfolding(crate::specs::Causes::image_cause, crate::specs::Causes::new_image_cause))]
    fn check_new_image(&self, color: &ImageColor, width: u32, height: u32) -> TiffResult<()>
        ensures { MatchResult result
            (λ _. (self.now.fault ≡ None) × (0 < width) × (0 < height)
            × (new_image_cause self.now color.now width height ≡ None))
            (λ e. new_image_cause self.now color.now width height ≡ Some e) }
    {
        let end = self.end()?;
        if width == 0 || height == 0 {
            return Err(TiffFormatError::InvalidDimensions(width, height).into());
        }
        match self.predictor {
            Predictor::None => {}
            Predictor::Horizontal => {
                if color.is_unpredicted() {
                    return Err(UsageError::PredictorIncompatible.into());
                }
            }
            _ => return Err(UsageError::PredictorUnavailable.into()),
        }
        if is_past_resolutions(self.file_kind(), end) {
            return Err(TiffError::IntSizeError);
        }
        Ok(())
    }

    // Returns an image of a width in pixels without chunks, with a directory of the IFD chain that
    // has no fields.
    fn new_state<T: Sample>(&self, color: ImageColor, width: u32, height: u32) -> ImageState<T>
        requires sides { (0 < width) × (0 < height) }
        ensures { result ≡ image_in self.now (new_directory (Some self.now.chain) true) color
            (type_size T.value_type) width height }
    {
        let (_kind, len) = T::type_and_len();
        let pixel = u64::from(color.samples()) * u64::from(len);
        let columns = color.columns(width);
        let rows = rows_of_strip(self.compression, u64::from(columns) * pixel);
        ImageState {
            directory: DirectoryState {
                directory: Directory::empty(self.alloc),
                parent: Some(self.chain),
                chained: true,
            },
            width: columns,
            height,
            pixels: width,
            extra: Vec::new(self.alloc),
            predictor: self.predictor,
            compression: self.compression,
            form: ChunkLayout {
                chunk_type: ChunkType::Strip,
                chunk_width: columns,
                chunk_height: rows,
                planar: PlanarConfiguration::Chunky,
            },
            chunks: Vec::new(self.alloc),
            scratch: ChunkScratch::empty(self.alloc),
            color,
            sample: PhantomData,
        }
    }
}

// Returns the tags of the width, the height, the compression, the predictor and the interpretation
// of the samples.
#[tactic(auto, unfolding(tiff_value::specs::Data::data_of))]
fn color_tags<T: Sample>(image: &ImageState<T>) -> [TagValue; 5]
    ensures { result ≡ fields_of (calls.meaning_tags image.now) }
{
    [
        TagValue::long(Tag::ImageWidth, image.pixels),
        TagValue::long(Tag::ImageLength, image.height),
        TagValue::short(Tag::Compression, method(image.compression).to_u16()),
        TagValue::short(Tag::Predictor, image.predictor.to_u16()),
        TagValue::short(
            Tag::PhotometricInterpretation,
            image.color.interpretation.to_u16(),
        ),
    ]
}

// Returns the tag that says that YCbCr samples aren't subsampled, or `None` for another color.
fn chroma_value<T: Sample>(image: &ImageState<T>) -> Option<TagValue>
    ensures { MatchOption result
        (fields_of (calls.chroma_tags image.now.color.interpretation) ≡ [])
        (λ v. fields_of (calls.chroma_tags image.now.color.interpretation) ≡ v ∷ []) }
{
    let _form = &image.form;
    match image.color.interpretation {
        PhotometricInterpretation::YCbCr => Some(TagValue::shorts(Tag::ChromaSubsampling, 1, 1)),
        _ => None,
    }
}

// Returns the tags of the rows of a strip, the samples of a pixel, and a resolution of 1/1 without
// a unit.
#[tactic(auto, unfolding(tiff_value::specs::Data::data_of))]
fn layout_values<T: Sample>(image: &ImageState<T>) -> [TagValue; 5]
    ensures { result ≡ fields_of (calls.layout_tags image.now) }
{
    [
        TagValue::long(Tag::RowsPerStrip, image.form.chunk_height),
        TagValue::short(Tag::SamplesPerPixel, image.color.samples()),
        TagValue::rational(Tag::XResolution, 1, 1),
        TagValue::rational(Tag::YResolution, 1, 1),
        TagValue::short(Tag::ResolutionUnit, ResolutionUnit::None.to_u16()),
    ]
}

impl<W: Sink, K: TiffKind> TiffEncoder<W, K> {
    // `begin_image` for a color type that says this.
    fn begin_as<T: Sample>(
        &mut self,
        color: ImageColor,
        width: u32,
        height: u32,
    ) -> TiffResult<ImageState<T>>
        ensures { Ends (λ i. i) (calls.new_image color (type_size T.value_type) width height self.old)
            result self.old self.new }
    {
        self.check_new_image(&color, width, height)?;
        let mut image = self.new_state::<T>(color, width, height);
        let Ok(values) = first_values(self.alloc, &image) else {
            return Err(TiffError::OutOfMemory);
        };
        self.pad()?;
        self.set_tags(&mut image.directory, &values)?;
        Ok(image)
    }

    // `new_image`, without the `DirectoryEncoder` around the image.
    pub(crate) fn begin_image<C: ColorType>(
        &mut self,
        width: u32,
        height: u32,
    ) -> TiffResult<ImageState<C::Inner>>
        ensures { Ends (λ i. i)
            (calls.new_image C.described (type_size C.Inner.value_type) width height self.old)
            result
            self.old self.new }
    {
        self.begin_as::<C::Inner>(ImageColor::of::<C>(), width, height)
    }
}

// Returns the tags that `new_image` writes, in the order in which it writes them.
#[tactic(auto, unfolding(crate::specs::Calls::first_tags))]
fn first_values<T: Sample>(
    alloc: Global,
    image: &ImageState<T>,
) -> Result<Vec<TagValue>, AllocError>
    ensures { IfOk result (λ v. v.items ≡ fields_of (calls.first_tags image.now)) }
{
    let mut values = Vec::new(alloc);
    values.extend_from_slice(&color_tags(image))?;
    if let Some(chroma) = chroma_value(image) {
        values.push(chroma)?;
    }
    values.extend_from_slice(&layout_values(image))?;
    Ok(values)
}
