//! A file of one image, whose parameters and samples C passes.

ghost use Rattle.std.specs.Prelude.{◌≡◌, ◌*◌, ◌^◌, ◌<◌, ℕ, List, length, map, slice_get, MatchResult, IfOk, IfSome, Ok, OnOk, replicate, true};
ghost use Rattle.tiff_encode.specs.declared.encoder.settings.Compression.TheVariants.{Uncompressed};
ghost use Rattle.tiff_base.specs.Types.{type_size};
ghost use Rattle.tiff_value.specs.ColorType.{columns_of, sample_number};
ghost use Rattle.tiff_decode.specs.NextState.{view_of_result};
ghost use Rattle.tiff_ffi.specs.Writer as writer;
ghost use Rattle.tiff_ffi.specs.Frame.{IsAround, file_of};
ghost use Rattle.tiff_ffi.specs.Writer.{AreKept, Delivers, DeliversParts, IsBegun, Puts, WritesImageFile, WritesBytes, WritesNew};
ghost use Rattle.tiff_ffi.specs.Zeros.{HasZeros, IsNewImage, WritesZeros};

use crate::frame::{FrameLengths, FrameSink, NewFile, front_len};
use crate::status::{Status, fault_number};
use std::alloc::{AllocError, Global};
use tiff_base::error::{TiffError, TiffFormatError, TiffResult, TiffUnsupportedError, UsageError};
use tiff_base::io::{IoKind, MemorySink};
use tiff_base::tags::{CompressionMethod, FileKind, Predictor};
use tiff_encode::encoder::script::JobSamples;
use tiff_encode::encoder::{
    Compression, ImageEncoder, TiffEncoder, TiffKind, TiffKindBig, TiffKindStandard, columns,
};
use tiff_value::encoder::color_visitor::{ColorVisitor, by_name};
use tiff_value::encoder::colortype::{ColorType, ColorTypeName, NamedColorType};
use tiff_value::encoder::horizontal_predictor::Sample;
use tiff_value::encoder::tiff_value::TiffValue;

/// How to write an image, by the numbers of TIFF: the color type by its number in
/// `ColorTypeName::ALL`, the width and the height in pixels, the version of the header, and the
/// values of the tags Compression and Predictor.
#[derive(Clone, Copy, Debug, PartialEq, Eq)]
#[repr(C)]
pub struct NewImage {
    pub color: u32,
    pub width: u32,
    pub height: u32,
    pub version: u16,
    pub method: u16,
    pub predictor: u16,
}

/// How an image is written, by name.
#[derive(Clone, Copy, Drop)]
pub struct Settings {
    pub kind: FileKind,
    pub color: ColorTypeName,
    pub compression: Compression,
    pub predictor: Predictor,
}

// Room for what a file of few strips has besides its samples. A file of more strips allocates more
// as it grows.
const FRAME: usize = 4096;

/// The kind of file that has this version in its header: 42 or 43.
pub fn kind_of(version: u16) -> Option<FileKind>
    ensures { result ≡ writer.kind_of version }
{
    match version {
        42 => Some(FileKind::Classic),
        43 => Some(FileKind::Big),
        _ => None,
    }
}

// The item of a list with this number, if there is one.
fn item_at<T: Copy>(items: &[T], number: u32) -> Option<T>
    ensures { result ≡ slice_get items.now number }
{
    let item = items.get(number as usize)?;
    Some(*item)
}

/// The color type of a number; `IoError(InvalidInput)` if it names none.
pub fn color_named(number: u32) -> TiffResult<ColorTypeName>
    ensures { result ≡ writer.color_named number }
{
    match item_at(&ColorTypeName::ALL, number) {
        Some(color) => Ok(color),
        None => Err(TiffError::IoError(IoKind::InvalidInput)),
    }
}

/// The compression of the number of a method, PackBits row by row (TIFF 6.0 section 9);
/// `UnsupportedCompressionMethod` if this library doesn't write that method.
pub fn packing_named(method: u16) -> TiffResult<Compression>
    ensures { result ≡ writer.packing_named method }
{
    match method {
        1 => Ok(Compression::Uncompressed),
        32773 => Ok(Compression::PackbitsRows),
        _ => {
            let method = CompressionMethod::from_u16_exhaustive(method);
            Err(TiffUnsupportedError::UnsupportedCompressionMethod(method).into())
        }
    }
}

/// The predictor of a number; `UnknownPredictor` if it names none.
pub fn predictor_named(number: u16) -> TiffResult<Predictor>
    ensures { result ≡ writer.predictor_named number }
{
    match Predictor::from_u16(number) {
        Some(predictor) => Ok(predictor),
        None => Err(TiffFormatError::UnknownPredictor(number).into()),
    }
}

// How to write an image, by name; or the error of the first number that names nothing.
fn settings_of(image: &NewImage) -> TiffResult<Settings>
    ensures { MatchResult result (λ s. writer.settings_of image.now ≡ Ok s)
        (λ e. writer.settings_of image.now ≡ Err e) }
{
    let Some(kind) = kind_of(image.version) else {
        return Err(TiffFormatError::TiffSignatureInvalid.into());
    };
    Ok(Settings {
        kind,
        color: color_named(image.color)?,
        compression: packing_named(image.method)?,
        predictor: predictor_named(image.predictor)?,
    })
}

// A new encoder over memory, with these settings and with room for `room` bytes. Its only error is
// `OutOfMemory`.
#[tactic(auto, using(crate::proofs::Writing::begun_by, tiff_base::specs::lemmas::MemoryFaults::header_refused))]
fn begin<K: TiffKind>(
    alloc: Global,
    settings: &Settings,
    room: usize,
) -> TiffResult<TiffEncoder<MemorySink, K>>
    requires { settings.now.kind ≡ K.kind }
    ensures { MatchResult result (λ file. IsBegun settings.now file)
        (λ e. e ≡ TiffError.OutOfMemory) }
{
    let Ok(bytes) = Vec::with_capacity(alloc, room) else {
        return Err(TiffError::OutOfMemory);
    };
    let encoder = TiffEncoder::<MemorySink, K>::new_generic(alloc, MemorySink::new(bytes))?;
    let predicted = encoder.with_predictor(settings.predictor);
    Ok(predicted.with_compression(settings.compression))
}

// A file of one image of the color type `C`, written into memory from samples.
#[tactic(auto, using(crate::proofs::Writing::file_written, crate::proofs::Writing::fault_written, tiff_base::specs::lemmas::MemoryFaults::only_memory))]
fn write_whole<K: TiffKind, C: NamedColorType>(
    alloc: Global,
    settings: &Settings,
    image: &NewImage,
    samples: &[C::Inner],
) -> TiffResult<Vec<u8>>
    requires kind { settings.now.kind ≡ K.kind }
    requires named { settings.now.color ≡ C.name }
    ensures { WritesImageFile settings.now image.now.width image.now.height
        (map (sample_number (type_size C.Inner.value_type) C.Inner.bits)
        samples.now) (view_of_result (λ v. v.items) result) }
{
    let size = usize::from(C::Inner::BYTE_LEN);
    let room = samples.len().saturating_mul(size).saturating_add(FRAME);
    let mut encoder = begin::<K>(alloc, settings, room)?;
    let answer = encoder.write_image::<C>(image.width, image.height, samples);
    let file = encoder.into_inner().into_vec();
    answer?;
    Ok(file)
}

// Whether these bytes are in the file of an image as they are: it has neither compression nor
// predictor, and they are as many samples as it has.
fn are_kept<C: ColorType>(settings: &Settings, image: &NewImage, len: usize) -> bool
    ensures { result ≡ true → AreKept settings.now
        (columns_of C.described image.now.width * image.now.height * length C.described.bits)
        (type_size C.Inner.value_type) len }
{
    let (Compression::Uncompressed, Predictor::None) = (settings.compression, settings.predictor)
    else {
        return false;
    };
    let columns = u64::from(columns::<C>(image.width)) * u64::from(image.height);
    let Some(samples) = columns.checked_mul(C::sample_bits().len() as u64) else {
        return false;
    };
    let (_ty, size) = C::Inner::type_and_len();
    match samples.checked_mul(u64::from(size)) {
        Some(bytes) => bytes == len as u64,
        None => false,
    }
}

// A new encoder over a sink that stores a frame around `room` bytes of samples, with these
// settings. None if the header can't be written.
#[tactic(auto, using(crate::proofs::Writing::begun_by))]
fn begin_frame<K: TiffKind>(
    alloc: Global,
    settings: &Settings,
    room: usize,
) -> Option<TiffEncoder<FrameSink, K>>
    requires { settings.now.kind ≡ K.kind }
    ensures { IfSome result (λ file. IsBegun settings.now file) }
{
    let sink = FrameSink::new(alloc, front_len(settings.kind), room);
    let Ok(encoder) = TiffEncoder::<FrameSink, K>::new_generic(alloc, sink) else {
        return None;
    };
    let predicted = encoder.with_predictor(settings.predictor);
    Some(predicted.with_compression(settings.compression))
}

// So many samples that are 0.
#[tactic(auto, using(crate::proofs::FrameZeros::zero_pushed, crate::proofs::FrameZeros::zero_cut))]
fn zero_samples<S: Sample>(alloc: Global, count: usize) -> Result<Vec<S>, AllocError>
    ensures len { IfOk result (λ v. length v.items ≡ count) }
    ensures zeros { IfOk result (λ v. map (sample_number (type_size S.value_type) S.bits) v.items
        ≡ replicate count 0) }
{
    let mut zeros = Vec::with_capacity(alloc, count)?;
    for _ in 0..count {
        zeros.push_reserved(S::cut(0));
    }
    Ok(zeros)
}

// Writes strips of zeros, until the image has all its strips.
fn write_strips<K: TiffKind, C: NamedColorType>(
    alloc: Global,
    image: &mut ImageEncoder<'_, FrameSink, C, K>,
) -> TiffResult<()>
    requires { IsNewImage image.old.state }
    ensures same_reference { image.new.encoder.ghost_name ≡ image.old.encoder.ghost_name }
    ensures strips { OnOk result (HasZeros image.old.state image.old.encoder.now
        image.new.encoder.now image.new.state) }
{
    // The first strip is the largest.
    let most = image.next_strip_sample_count() as usize;
    let zeros = zero_samples::<C::Inner>(alloc, most)?;
    'strips: while image.next_chunk_sample_count() > 0 {
        let count = image.next_chunk_sample_count() as usize;
        if count > zeros.len() {
            return Err(TiffError::IntSizeError);
        }
        image.write_chunk(&zeros[..count])?;
    }
    Ok(())
}

// Writes an image of zeros.
fn write_zeros<K: TiffKind, C: NamedColorType>(
    alloc: Global,
    encoder: &mut TiffEncoder<FrameSink, K>,
    width: u32,
    height: u32,
) -> TiffResult<()>
    requires plain { encoder.old.compression ≡ Uncompressed }
    requires few { columns_of C.described width * height * length C.described.bits < 2 ^ 64 }
    ensures { OnOk result (WritesZeros C.described (type_size C.Inner.value_type) width height
        encoder.old encoder.new) }
{
    let mut zeros = encoder.new_image::<C>(width, height)?;
    match write_strips::<K, C>(alloc, &mut zeros) {
        Ok(()) => {
            zeros.finish()?;
            return Ok(());
        }
        Err(fault) => {
            // An open image has to be ended; the error that counts is that of its strips.
            let _ended = zeros.discard();
            return Err(fault);
        }
    }
}

// A file of one image of the color type `C` around its samples, which are these bytes. None if they
// aren't in it as they are, or if the file can't be written so.
fn write_around<'a, K: TiffKind, C: NamedColorType>(
    alloc: Global,
    settings: &Settings,
    image: &NewImage,
    bytes: &'a [u8],
) -> Option<NewFile<'a>>
    requires kind { settings.now.kind ≡ K.kind }
    requires named { settings.now.color ≡ C.name }
    ensures written { IfSome result (λ file. WritesBytes settings.now image.now.width image.now.height
        (writer.samples_from_bytes settings.now.color bytes.now) (Ok (file_of file))) }
    ensures around { IfSome result (λ file. IsAround bytes.now file) }
{
    if !are_kept::<C>(settings, image, bytes.len()) {
        return None;
    }
    let (width, height) = (image.width, image.height);
    let mut encoder = begin_frame::<K>(alloc, settings, bytes.len())?;
    let answer = write_zeros::<K, C>(alloc, &mut encoder, width, height);
    let sink = encoder.into_inner();
    let Ok(()) = answer else {
        return None;
    };
    let frame = sink.into_frame(front_len(settings.kind), bytes)?;
    Some(NewFile::Around(frame))
}

// A file of one image of the color type `C`, written from samples, which were made of these bytes.
#[tactic(auto, using(crate::proofs::Writing::lent_written))]
fn write_samples<'a, K: TiffKind, C: NamedColorType>(
    alloc: Global,
    settings: &Settings,
    image: &NewImage,
    samples: &[C::Inner],
    bytes: &'a [u8],
) -> TiffResult<NewFile<'a>>
    requires kind { settings.now.kind ≡ K.kind }
    requires named { settings.now.color ≡ C.name }
    requires made { writer.samples_from_bytes settings.now.color bytes.now
        ≡ Ok (map (sample_number (type_size C.Inner.value_type) C.Inner.bits) samples.now) }
    ensures written { WritesBytes settings.now image.now.width image.now.height
        (writer.samples_from_bytes settings.now.color bytes.now)
        (view_of_result file_of result) }
    ensures around { IfOk result (λ file. IsAround bytes.now file) }
{
    let file = write_whole::<K, C>(alloc, settings, image, samples)?;
    Ok(NewFile::Whole(file))
}

// A file of one image of the color type `C`, written from little-endian samples.
#[tactic(auto, using(crate::proofs::Writing::lent_made, crate::proofs::Writing::lent_wanting, crate::proofs::Writing::lent_refused))]
fn write_color<'a, K: TiffKind, C: NamedColorType>(
    alloc: Global,
    settings: &Settings,
    image: &NewImage,
    bytes: &'a [u8],
) -> TiffResult<NewFile<'a>>
    requires kind { settings.now.kind ≡ K.kind }
    requires named { settings.now.color ≡ C.name }
    ensures written { WritesBytes settings.now image.now.width image.now.height
        (writer.samples_from_bytes settings.now.color bytes.now)
        (view_of_result file_of result) }
    ensures around { IfOk result (λ file. IsAround bytes.now file) }
{
    // The samples are then copied once, into the caller's buffer, or not at all.
    if let Some(file) = write_around::<K, C>(alloc, settings, image, bytes) {
        return Ok(file);
    }
    let (ty, _len) = C::Inner::type_and_len();
    let lent = match JobSamples::from_bytes(ty, bytes) {
        Ok(lent) => lent,
        Err(fault) => return Err(fault),
    };
    let samples = match lent.cut::<C::Inner>(alloc) {
        Ok(samples) => samples,
        Err(fault) => return Err(fault),
    };
    write_samples::<K, C>(alloc, settings, image, samples.as_slice(), bytes)
}

// An image, how it is written, and its samples as bytes.
struct GivenImage<'a> {
    alloc: Global,
    settings: Settings,
    image: NewImage,
    bytes: &'a [u8],
}

// Writes a file of an image of a color type.
struct WritesColor;

impl<'a> ColorVisitor<(), GivenImage<'a>, TiffResult<NewFile<'a>>> for WritesColor {
    ghost use Rattle.std.specs.Prelude.{◌≡◌};
    ghost use Rattle.tiff_decode.specs.NextState.{view_of_result};
    ghost use Rattle.tiff_ffi.specs.Frame.{IsAround, file_of};
    ghost use Rattle.tiff_ffi.specs.Writer.{WritesBytes, samples_from_bytes};

    ghost takes = { λ name _ given. given.settings.color ≡ name };

    ghost visits = { λ _ _ given answer _. WritesBytes given.settings given.image.width given.image.height
        (samples_from_bytes given.settings.color given.bytes.now)
        (view_of_result file_of answer)
        × IfOk answer (λ file. IsAround given.bytes.now file) };

    fn visit<C: NamedColorType>(_none: &mut (), given: GivenImage<'a>) -> TiffResult<NewFile<'a>> {
        let GivenImage {
            alloc,
            settings,
            image,
            bytes,
        } = given;
        match settings.kind {
            FileKind::Classic => write_color::<TiffKindStandard, C>(
                alloc, &settings, &image, bytes,
            ),
            FileKind::Big => write_color::<TiffKindBig, C>(alloc, &settings, &image, bytes),
        }
    }
}

/// The file of an image with these samples, which are little-endian bytes, row by row and pixel by
/// pixel. Returns the first error otherwise: of the version, `TiffSignatureInvalid`; of the color
/// type, `IoError(InvalidInput)`; of the method, `UnsupportedCompressionMethod`; of the predictor,
/// `UnknownPredictor`; of a part of a sample that is left over, `MismatchedEntryLength`;
/// `OutOfMemory`; or of the encoder's `write_image`.
pub fn write_new<'a>(alloc: Global, image: &NewImage, bytes: &'a [u8]) -> TiffResult<NewFile<'a>>
    ensures written { WritesNew image.now bytes.now (view_of_result file_of result) }
    ensures around { IfOk result (λ file. IsAround bytes.now file) }
{
    let settings = settings_of(image)?;
    let given = GivenImage {
        alloc,
        settings,
        image: *image,
        bytes,
    };
    by_name::<_, _, _, WritesColor>(settings.color, &mut (), given)
}

// The status of a buffer that is too short.
fn too_short(needed: usize, provided: usize) -> u32
    ensures { result ≡ writer.too_short needed provided }
{
    let fault = UsageError::InsufficientOutputBufferSize { needed, provided };
    fault_number(&TiffError::UsageError(fault))
}

// Puts a file at the front of a buffer if the file fits; else the buffer stays. Returns the status.
fn put(file: &NewFile<'_>, buffer: &mut [u8]) -> u32
    ensures { Puts (file_of file.now) result buffer.old buffer.new }
{
    let needed = file.len();
    if buffer.len() < needed {
        return too_short(needed, buffer.len());
    }
    match file {
        NewFile::Whole(file) => buffer[..needed].copy_from_slice(file),
        NewFile::Around(frame) => frame.put(buffer),
    }
    Status::Done as u32
}

/// Puts a file at the front of a buffer if the file fits, and its length into `len` in any case.
/// Returns the status: 0, or the number of the error of `answer`, or of
/// `InsufficientOutputBufferSize`. For an error of `answer`, `buffer` and `len` stay.
pub fn put_file(answer: TiffResult<NewFile<'_>>, buffer: &mut [u8], len: &mut usize) -> u32
    ensures { Delivers (view_of_result file_of answer.entry) result buffer.old buffer.new len.old
        len.new }
{
    match answer {
        Ok(file) => {
            *len = file.len();
            put(&file, buffer)
        }
        Err(fault) => fault_number(&fault),
    }
}

/// Puts the parts of a file that aren't samples elsewhere in memory at the front of a buffer, one
/// behind the other, if they fit, and the lengths of its parts into `lengths` in any case. Returns
/// the status: 0, or the number of the error of `answer`, or of `InsufficientOutputBufferSize`. For
/// an error of `answer`, `buffer` and `lengths` stay.
pub fn put_file_around(
    answer: TiffResult<NewFile<'_>>,
    buffer: &mut [u8],
    lengths: &mut FrameLengths,
) -> u32
    ensures { (samples : List ℕ) → IfOk answer.entry (λ file. IsAround samples file)
        → DeliversParts (view_of_result file_of answer.entry) samples result buffer.old buffer.new
        lengths.old lengths.new }
{
    match answer {
        Ok(file) => {
            *lengths = file.lengths();
            let needed = lengths.front + lengths.behind;
            if buffer.len() < needed {
                return too_short(needed, buffer.len());
            }
            file.put_around(buffer);
            Status::Done as u32
        }
        Err(fault) => fault_number(&fault),
    }
}
