//! Laws of the definitions. Each is the contract of a function with an empty body.

ghost use Rattle.std.specs.Prelude.{◌≡◌, ◌^◌, ◌<◌, [], ◌∷◌};
ghost use Rattle.tiff_base.specs.Number.{le};
ghost use Rattle.tiff_base.specs.Types.{type_size};
ghost use Rattle.tiff_value.specs.ColorType.{IsColorType, sample_number};
ghost use Rattle.tiff_value.specs.ColorTypes.{color_type, color_types, inner_type, AreColorTypes};
ghost use Rattle.tiff_value.specs.Data.{DataIsWhole, TextIsWhole, data_of};
ghost use Rattle.tiff_value.specs.Differences.{IsUndone};
ghost use Rattle.tiff_value.specs.Packed.{PackedRowsFit, PackedRowsUnpack, PackedUnpacks};
ghost use Rattle.tiff_value.specs.Values.{IsValue};

use crate::encoder::colortype::{ColorType, ColorTypeName, NamedColorType};
use crate::encoder::horizontal_predictor::Sample;
use crate::encoder::tiff_value::{TiffScalar, TiffValue};

/// The number of bytes of values is the count times the size of the type.
pub fn data_is_whole()
    ensures { DataIsWhole }
{}

/// The number of bytes of a text is the count times the size of the type.
pub fn text_is_whole()
    ensures { TextIsWhole }
{}

/// The data of a field has the type and the count of its value, and as many bytes as these say, or
/// the value is a text that can't be written.
pub fn value_is_whole<T: TiffValue>()
    ensures { (x : T) → IsValue T.value_type (T.value_count x) (T.field_data x) }
{}

/// A scalar is one value, and a field can always have it.
pub fn scalar_is_single<T: TiffScalar>()
    ensures count { (x : T) → T.value_count x ≡ 1 }
    ensures data { (x : T) → T.field_data x ≡ Ok (data_of (T.scalars (x ∷ []))) }
{}

/// What the name of each color type says is what a page can say about its samples.
pub fn are_color_types()
    ensures { AreColorTypes }
{}

/// `ColorTypeName::ALL` lists the color types in the order of their numbers.
pub fn are_all_color_types()
    ensures { ColorTypeName.ALL ≡ color_types }
{}

/// What any color type says, with a name or without, is what a page can say about its samples.
pub fn color_type_is_lawful<C: ColorType>()
    ensures { IsColorType (type_size C.Inner.value_type) C.described }
{}

/// A color type with a name is what its name says.
pub fn named_is_known<C: NamedColorType>()
    ensures described { C.described ≡ color_type C.name }
    ensures in_memory { C.Inner.value_type ≡ inner_type C.name }
{}

/// A sample is written as the bytes of its number, the lowest byte first, and these bytes can
/// encode the number.
#[tactic(auto, using(crate::proofs::Lowest::spelled_by))]
pub fn sample_is_spelled<S: Sample>()
    ensures { (x : S)
        → (S.spelled x ≡ le (type_size S.value_type)
        (sample_number (type_size S.value_type) S.bits x))
        × (sample_number (type_size S.value_type) S.bits x < 256 ^ type_size S.value_type) }
{}

/// A row that is written as differences comes back when a reader undoes the differences.
pub fn is_undone()
    ensures { IsUndone }
{}

/// Bytes packed by PackBits unpack to the original bytes.
pub fn packed_unpacks()
    ensures { PackedUnpacks }
{}

/// Rows packed one by one unpack to the original bytes.
pub fn packed_rows_unpack()
    ensures { PackedRowsUnpack }
{}

/// Rows packed one by one are at most one byte longer for each 128 bytes of a row or part of 128.
pub fn packed_rows_fit()
    ensures { PackedRowsFit }
{}
