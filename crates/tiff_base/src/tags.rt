//! TIFF's numbers as enums, byte orders, and the bits of floating-point numbers.

ghost use Rattle.std.specs.Prelude.{◌≡◌, ◌<◌, false, true};
ghost use Rattle.std.specs.Fmt.{WritesOnOk, digits};
ghost use Rattle.tiff_base.specs.Tags.{extra_number, extra_of, format_number, format_of, interpretation_number, interpretation_of, method_number, method_of, planar_number, planar_of, predictor_number, predictor_of, tag_number, tag_of, type_number, type_of, unit_number, unit_of, named_tag, named_method, named_format};
ghost use Rattle.tiff_base.specs.ByteOrders.{convert, unit_size};
ghost use Rattle.tiff_base.specs.Types.{type_size};
ghost use Rattle.tiff_base.specs.declared.tags.ByteOrder.TheVariants.{LittleEndian};

use crate::turn::swap_bytes;
use std::fmt;

/// Gives the value of a number, from the rows of a table below; `Unknown` if no row has the number.
macro_rules! value_of {
    ($n:expr, $kind:ident, $($number:literal $name:ident,)*) => {
        match $n {
            $($number => $kind::$name,)*
            n => $kind::Unknown(n),
        }
    };
}

/// Gives the number of a value, from the rows of a table below.
macro_rules! number_of {
    ($value:expr, $kind:ident, $($number:literal $name:ident,)*) => {
        match $value {
            $($kind::$name => $number,)*
            $kind::Unknown(n) => n,
        }
    };
}

/// The tags of a directory (TIFF 6.0, its supplements, GeoTIFF, EXIF, ICC, GDAL).
#[derive(Clone, Copy, Debug, PartialEq, Eq, Hash)]
#[non_exhaustive]
pub enum Tag {
    NewSubfileType,
    SubfileType,
    ImageWidth,
    ImageLength,
    BitsPerSample,
    Compression,
    PhotometricInterpretation,
    Threshholding,
    CellWidth,
    CellLength,
    FillOrder,
    ImageDescription,
    Make,
    Model,
    StripOffsets,
    Orientation,
    SamplesPerPixel,
    RowsPerStrip,
    StripByteCounts,
    MinSampleValue,
    MaxSampleValue,
    XResolution,
    YResolution,
    PlanarConfiguration,
    FreeOffsets,
    FreeByteCounts,
    GrayResponseUnit,
    GrayResponseCurve,
    ResolutionUnit,
    Software,
    DateTime,
    Artist,
    HostComputer,
    Predictor,
    ColorMap,
    TileWidth,
    TileLength,
    TileOffsets,
    TileByteCounts,
    SubIfd,
    ExtraSamples,
    SampleFormat,
    SMinSampleValue,
    SMaxSampleValue,
    JPEGTables,
    ChromaSubsampling,
    ChromaPositioning,
    Copyright,
    ModelPixelScaleTag,
    ModelTiepointTag,
    ModelTransformationTag,
    ExifDirectory,
    IccProfile,
    GeoKeyDirectoryTag,
    GeoDoubleParamsTag,
    GeoAsciiParamsTag,
    GpsDirectory,
    ExifVersion,
    GdalNodata,
    /// A number that has no name in this enum.
    Unknown(u16),
}

/// The numbers of the tags, in their order.
macro_rules! tags {
    ($read:ident, $of:expr) => {
        $read!(
            $of, Tag,
            254 NewSubfileType,
            255 SubfileType,
            256 ImageWidth,
            257 ImageLength,
            258 BitsPerSample,
            259 Compression,
            262 PhotometricInterpretation,
            263 Threshholding,
            264 CellWidth,
            265 CellLength,
            266 FillOrder,
            270 ImageDescription,
            271 Make,
            272 Model,
            273 StripOffsets,
            274 Orientation,
            277 SamplesPerPixel,
            278 RowsPerStrip,
            279 StripByteCounts,
            280 MinSampleValue,
            281 MaxSampleValue,
            282 XResolution,
            283 YResolution,
            284 PlanarConfiguration,
            288 FreeOffsets,
            289 FreeByteCounts,
            290 GrayResponseUnit,
            291 GrayResponseCurve,
            296 ResolutionUnit,
            305 Software,
            306 DateTime,
            315 Artist,
            316 HostComputer,
            317 Predictor,
            320 ColorMap,
            322 TileWidth,
            323 TileLength,
            324 TileOffsets,
            325 TileByteCounts,
            330 SubIfd,
            338 ExtraSamples,
            339 SampleFormat,
            340 SMinSampleValue,
            341 SMaxSampleValue,
            347 JPEGTables,
            530 ChromaSubsampling,
            531 ChromaPositioning,
            33432 Copyright,
            33550 ModelPixelScaleTag,
            33922 ModelTiepointTag,
            34264 ModelTransformationTag,
            34665 ExifDirectory,
            34675 IccProfile,
            34735 GeoKeyDirectoryTag,
            34736 GeoDoubleParamsTag,
            34737 GeoAsciiParamsTag,
            34853 GpsDirectory,
            36864 ExifVersion,
            42113 GdalNodata,
        )
    };
}

impl Tag {
    /// Returns the tag of a number, or `Unknown` if the number has no name in this enum.
    #[tactic(auto, unfolding(crate::specs::Tags::tag_of))]
    pub fn from_u16_exhaustive(n: u16) -> Self
        ensures { result ≡ tag_of n }
    {
        tags!(value_of, n)
    }

    /// Returns the tag of a number, or `None` if the number has no name in this enum.
    pub fn from_u16(n: u16) -> Option<Self>
        ensures { result ≡ named_tag (tag_of n) }
    {
        match Tag::from_u16_exhaustive(n) {
            Tag::Unknown(_) => None,
            tag => Some(tag),
        }
    }

    /// Returns the number of the tag.
    pub fn to_u16(&self) -> u16
        ensures { result ≡ tag_number self.now }
    {
        tags!(number_of, *self)
    }
}

/// The type of a field's values (TIFF 6.0 section 2; BigTIFF).
#[derive(Clone, Copy, Debug, PartialEq, Eq, Hash)]
#[non_exhaustive]
pub enum Type {
    BYTE = 1,
    ASCII = 2,
    SHORT = 3,
    LONG = 4,
    RATIONAL = 5,
    SBYTE = 6,
    UNDEFINED = 7,
    SSHORT = 8,
    SLONG = 9,
    SRATIONAL = 10,
    FLOAT = 11,
    DOUBLE = 12,
    IFD = 13,
    LONG8 = 16,
    SLONG8 = 17,
    IFD8 = 18,
}

impl Type {
    /// Returns the type of a number, or `None` if no type has this number.
    #[tactic(auto, unfolding(crate::specs::Tags::type_of))]
    pub fn from_u16(n: u16) -> Option<Self>
        ensures { result ≡ type_of n }
    {
        match n {
            1 => Some(Type::BYTE),
            2 => Some(Type::ASCII),
            3 => Some(Type::SHORT),
            4 => Some(Type::LONG),
            5 => Some(Type::RATIONAL),
            6 => Some(Type::SBYTE),
            7 => Some(Type::UNDEFINED),
            8 => Some(Type::SSHORT),
            9 => Some(Type::SLONG),
            10 => Some(Type::SRATIONAL),
            11 => Some(Type::FLOAT),
            12 => Some(Type::DOUBLE),
            13 => Some(Type::IFD),
            16 => Some(Type::LONG8),
            17 => Some(Type::SLONG8),
            18 => Some(Type::IFD8),
            _ => None,
        }
    }

    /// Returns the number of the type.
    pub fn to_u16(&self) -> u16
        ensures { result ≡ type_number self.now }
    {
        *self as u16
    }

    /// Returns the number of bytes of one value.
    pub fn byte_len(self) -> u8
        ensures { result ≡ type_size self }
    {
        match self {
            Type::BYTE => 1,
            Type::ASCII => 1,
            Type::SHORT => 2,
            Type::LONG => 4,
            Type::RATIONAL => 8,
            Type::SBYTE => 1,
            Type::UNDEFINED => 1,
            Type::SSHORT => 2,
            Type::SLONG => 4,
            Type::SRATIONAL => 8,
            Type::FLOAT => 4,
            Type::DOUBLE => 8,
            Type::IFD => 4,
            Type::LONG8 => 8,
            Type::SLONG8 => 8,
            Type::IFD8 => 8,
        }
    }
}

/// The compression method of strips and tiles (TIFF 6.0 sections 3, 9 and later ones).
#[derive(Clone, Copy, Debug, PartialEq, Eq, Hash)]
#[non_exhaustive]
pub enum CompressionMethod {
    None,
    Huffman,
    Fax3,
    Fax4,
    LZW,
    JPEG,
    ModernJPEG,
    Deflate,
    PackBits,
    OldDeflate,
    ZSTD,
    WebP,
    /// A number that has no name in this enum.
    Unknown(u16),
}

/// The numbers of the compression methods, in their order.
macro_rules! methods {
    ($read:ident, $of:expr) => {
        $read!(
            $of, CompressionMethod,
            1 None,
            2 Huffman,
            3 Fax3,
            4 Fax4,
            5 LZW,
            6 JPEG,
            7 ModernJPEG,
            8 Deflate,
            32773 PackBits,
            32946 OldDeflate,
            50000 ZSTD,
            50001 WebP,
        )
    };
}

impl CompressionMethod {
    /// Returns the method of a number, or `None` if the number has no name in this enum.
    pub fn from_u16(n: u16) -> Option<Self>
        ensures { result ≡ named_method (method_of n) }
    {
        match CompressionMethod::from_u16_exhaustive(n) {
            CompressionMethod::Unknown(_) => None,
            method => Some(method),
        }
    }

    /// Returns the method of a number, or `Unknown` if the number has no name in this enum.
    #[tactic(auto, unfolding(crate::specs::Tags::method_of))]
    pub fn from_u16_exhaustive(n: u16) -> Self
        ensures { result ≡ method_of n }
    {
        methods!(value_of, n)
    }

    /// Returns the number of the method.
    pub fn to_u16(&self) -> u16
        ensures { result ≡ method_number self.now }
    {
        methods!(number_of, *self)
    }
}

/// The photometric interpretation: what the samples of a page mean (TIFF 6.0 section 8).
#[derive(Clone, Copy, Debug, PartialEq, Eq, Hash)]
#[non_exhaustive]
pub enum PhotometricInterpretation {
    WhiteIsZero = 0,
    BlackIsZero = 1,
    RGB = 2,
    RGBPalette = 3,
    TransparencyMask = 4,
    CMYK = 5,
    YCbCr = 6,
    CIELab = 8,
    IccLab = 9,
    ItuLab = 10,
}

impl PhotometricInterpretation {
    /// Returns the interpretation of a number, or `None` if no interpretation has this number.
    #[tactic(auto, unfolding(crate::specs::Tags::interpretation_of))]
    pub fn from_u16(n: u16) -> Option<Self>
        ensures { result ≡ interpretation_of n }
    {
        match n {
            0 => Some(PhotometricInterpretation::WhiteIsZero),
            1 => Some(PhotometricInterpretation::BlackIsZero),
            2 => Some(PhotometricInterpretation::RGB),
            3 => Some(PhotometricInterpretation::RGBPalette),
            4 => Some(PhotometricInterpretation::TransparencyMask),
            5 => Some(PhotometricInterpretation::CMYK),
            6 => Some(PhotometricInterpretation::YCbCr),
            8 => Some(PhotometricInterpretation::CIELab),
            9 => Some(PhotometricInterpretation::IccLab),
            10 => Some(PhotometricInterpretation::ItuLab),
            _ => None,
        }
    }

    /// Returns the number of the interpretation.
    pub fn to_u16(&self) -> u16
        ensures { result ≡ interpretation_number self.now }
    {
        *self as u16
    }
}

/// Whether the samples of a pixel lie together or in separate planes (TIFF 6.0 section 8).
#[derive(Clone, Copy, Debug, PartialEq, Eq, Hash)]
#[non_exhaustive]
pub enum PlanarConfiguration {
    Chunky = 1,
    Planar = 2,
}

impl PlanarConfiguration {
    /// Returns the planar configuration of a number, or `None` if none has this number.
    #[tactic(auto, unfolding(crate::specs::Tags::planar_of))]
    pub fn from_u16(n: u16) -> Option<Self>
        ensures { result ≡ planar_of n }
    {
        match n {
            1 => Some(PlanarConfiguration::Chunky),
            2 => Some(PlanarConfiguration::Planar),
            _ => None,
        }
    }

    /// Returns the number of the planar configuration.
    pub fn to_u16(&self) -> u16
        ensures { result ≡ planar_number self.now }
    {
        *self as u16
    }
}

/// The predictor: what a writer does to samples before compression (TIFF 6.0 section 14).
#[derive(Clone, Copy, Debug, PartialEq, Eq, Hash)]
#[non_exhaustive]
pub enum Predictor {
    None = 1,
    Horizontal = 2,
    FloatingPoint = 3,
}

impl Predictor {
    /// Returns the predictor of a number, or `None` if no predictor has this number.
    #[tactic(auto, unfolding(crate::specs::Tags::predictor_of))]
    pub fn from_u16(n: u16) -> Option<Self>
        ensures { result ≡ predictor_of n }
    {
        match n {
            1 => Some(Predictor::None),
            2 => Some(Predictor::Horizontal),
            3 => Some(Predictor::FloatingPoint),
            _ => None,
        }
    }

    /// Returns the number of the predictor.
    pub fn to_u16(&self) -> u16
        ensures { result ≡ predictor_number self.now }
    {
        *self as u16
    }
}

/// The unit of a resolution (TIFF 6.0 section 8).
#[derive(Clone, Copy, Debug, PartialEq, Eq, Hash)]
#[non_exhaustive]
pub enum ResolutionUnit {
    None = 1,
    Inch = 2,
    Centimeter = 3,
}

impl ResolutionUnit {
    /// Returns the unit of a number, or `None` if no unit has this number.
    #[tactic(auto, unfolding(crate::specs::Tags::unit_of))]
    pub fn from_u16(n: u16) -> Option<Self>
        ensures { result ≡ unit_of n }
    {
        match n {
            1 => Some(ResolutionUnit::None),
            2 => Some(ResolutionUnit::Inch),
            3 => Some(ResolutionUnit::Centimeter),
            _ => None,
        }
    }

    /// Returns the number of the unit.
    pub fn to_u16(&self) -> u16
        ensures { result ≡ unit_number self.now }
    {
        *self as u16
    }
}

/// The sample format: what kind of number the bits of a sample are (TIFF 6.0 section 19).
#[derive(Clone, Copy, Debug, PartialEq, Eq, Hash)]
#[non_exhaustive]
pub enum SampleFormat {
    Uint,
    Int,
    IEEEFP,
    Void,
    /// A number that has no name in this enum.
    Unknown(u16),
}

/// The numbers of the sample formats, in their order.
macro_rules! formats {
    ($read:ident, $of:expr) => {
        $read!(
            $of, SampleFormat,
            1 Uint,
            2 Int,
            3 IEEEFP,
            4 Void,
        )
    };
}

impl SampleFormat {
    /// Returns the sample format of a number, or `None` if the number has no name in this enum.
    pub fn from_u16(n: u16) -> Option<Self>
        ensures { result ≡ named_format (format_of n) }
    {
        match SampleFormat::from_u16_exhaustive(n) {
            SampleFormat::Unknown(_) => None,
            format => Some(format),
        }
    }

    /// Returns the sample format of a number, or `Unknown` if the number has no name in this enum.
    #[tactic(auto, unfolding(crate::specs::Tags::format_of))]
    pub fn from_u16_exhaustive(n: u16) -> Self
        ensures { result ≡ format_of n }
    {
        formats!(value_of, n)
    }

    /// Returns the number of the sample format.
    pub fn to_u16(&self) -> u16
        ensures { result ≡ format_number self.now }
    {
        formats!(number_of, *self)
    }
}

/// The meaning of an extra sample, one beyond those of the color (TIFF 6.0 section 8).
#[derive(Clone, Copy, Debug, PartialEq, Eq, Hash)]
#[non_exhaustive]
pub enum ExtraSamples {
    Unspecified = 0,
    AssociatedAlpha = 1,
    UnassociatedAlpha = 2,
}

impl ExtraSamples {
    /// Returns the meaning of a number, or `None` if no meaning has this number.
    #[tactic(auto, unfolding(crate::specs::Tags::extra_of))]
    pub fn from_u16(n: u16) -> Option<Self>
        ensures { result ≡ extra_of n }
    {
        match n {
            0 => Some(ExtraSamples::Unspecified),
            1 => Some(ExtraSamples::AssociatedAlpha),
            2 => Some(ExtraSamples::UnassociatedAlpha),
            _ => None,
        }
    }

    /// Returns the number of the meaning.
    pub fn to_u16(&self) -> u16
        ensures { result ≡ extra_number self.now }
    {
        *self as u16
    }
}

/// The offset of a directory. The offset 0 means that there is no directory.
#[derive(Clone, Copy, Debug, PartialEq, Eq, Hash)]
pub struct IfdPointer(pub u64);

impl fmt::LowerHex for IfdPointer {
    fn fmt<W: fmt::Write>(&self, f: &mut fmt::Formatter<W>) -> fmt::Result
        ensures { WritesOnOk W.write_str_gives f.old result (digits 16 false self.now.0) f.new }
    {
        fmt::LowerHex::fmt(&self.0, f)
    }
}

impl fmt::UpperHex for IfdPointer {
    fn fmt<W: fmt::Write>(&self, f: &mut fmt::Formatter<W>) -> fmt::Result
        ensures { WritesOnOk W.write_str_gives f.old result (digits 16 true self.now.0) f.new }
    {
        fmt::UpperHex::fmt(&self.0, f)
    }
}

/// The byte order: which byte of a number comes first.
#[derive(Clone, Copy, Debug, PartialEq, Eq)]
pub enum ByteOrder {
    /// The least significant byte comes first, `II`.
    LittleEndian,
    /// The most significant byte comes first, `MM`.
    BigEndian,
}

impl ByteOrder {
    /// Returns the byte order of the machine, which is little-endian here.
    pub fn native() -> Self
        ensures { result ≡ LittleEndian }
    {
        ByteOrder::LittleEndian
    }

    /// Converts the bytes of values of type `ty` from this byte order to the byte order `to`. A
    /// rational is two numbers. Bytes after the last whole number stay unchanged.
    #[tactic(auto, unfolding(crate::specs::ByteOrders::turned_numbers))]
    pub fn convert(self, ty: Type, buffer: &mut [u8], to: ByteOrder)
        ensures { buffer.new ≡ convert ty self buffer.old to }
    {
        match (self, to) {
            (ByteOrder::LittleEndian, ByteOrder::LittleEndian) => return,
            (ByteOrder::BigEndian, ByteOrder::BigEndian) => return,
            (ByteOrder::LittleEndian, ByteOrder::BigEndian) => swap_bytes(buffer, unit_size(ty)),
            (ByteOrder::BigEndian, ByteOrder::LittleEndian) => swap_bytes(buffer, unit_size(ty)),
        }
    }
}

// The number of bytes of one number of a type. A value of a rational type has two numbers.
fn unit_size(ty: Type) -> usize
    ensures value { result ≡ unit_size ty }
    ensures some { 0 < result }
{
    match ty {
        Type::RATIONAL | Type::SRATIONAL => 4,
        Type::BYTE | Type::ASCII | Type::SBYTE | Type::UNDEFINED => 1,
        Type::SHORT | Type::SSHORT => 2,
        Type::LONG | Type::SLONG | Type::FLOAT | Type::IFD => 4,
        Type::DOUBLE | Type::LONG8 | Type::SLONG8 | Type::IFD8 => 8,
    }
}

/// The two kinds of TIFF file, by the width of their offsets. This project adds this type.
#[derive(Clone, Copy, Debug, PartialEq, Eq)]
pub enum FileKind {
    /// TIFF 6.0: offsets have 4 bytes.
    Classic,
    /// BigTIFF: offsets have 8 bytes.
    Big,
}

/// The bits of a 16-bit floating-point number.
#[derive(Clone, Copy, Debug, PartialEq, Eq, Hash)]
pub struct Bits16(pub u16);

/// The bits of a 32-bit floating-point number.
#[derive(Clone, Copy, Debug, PartialEq, Eq, Hash)]
pub struct Bits32(pub u32);

/// The bits of a 64-bit floating-point number.
#[derive(Clone, Copy, Debug, PartialEq, Eq, Hash)]
pub struct Bits64(pub u64);
