//! Calls for the color type with a name.

use super::colortype::{self, ColorTypeName, NamedColorType};

/// A call that is generic over its color type: it takes a state and an input, and returns an `A`.
pub trait ColorVisitor<E, I, A> {
    ghost use Rattle.tiff_value.specs.declared.encoder.colortype.ColorTypeName.{ColorTypeName};

    // What holds before the call: a relation between the name of the color type, the state and the
    // input.
    ghost takes: { ColorTypeName → E → I → Type 0 };

    // The relation between the name of the color type, the state before the call, the input, the
    // result, and the state after the call.
    ghost visits: { ColorTypeName → E → I → A → E → Type 0 };

    /// Makes the call for the color type `C`.
    fn visit<C: NamedColorType>(state: &mut E, input: I) -> A
        requires { takes C.name state.old input }
        ensures { visits C.name state.old input result state.new };
}

/// Makes the call of `V` for the color type with this name.
pub fn by_name<E, I, A, V: ColorVisitor<E, I, A>>(name: ColorTypeName, state: &mut E, input: I) -> A
    requires { V.takes name state.old input }
    ensures { V.visits name state.old input result state.new }
{
    // The only match over all names: a generic function can't be passed as a value.
    match name {
        ColorTypeName::Gray8 => V::visit::<colortype::Gray8>(state, input),
        ColorTypeName::Gray16 => V::visit::<colortype::Gray16>(state, input),
        ColorTypeName::Gray32 => V::visit::<colortype::Gray32>(state, input),
        ColorTypeName::Gray64 => V::visit::<colortype::Gray64>(state, input),
        ColorTypeName::GrayI8 => V::visit::<colortype::GrayI8>(state, input),
        ColorTypeName::GrayI16 => V::visit::<colortype::GrayI16>(state, input),
        ColorTypeName::GrayI32 => V::visit::<colortype::GrayI32>(state, input),
        ColorTypeName::GrayI64 => V::visit::<colortype::GrayI64>(state, input),
        ColorTypeName::Gray32Float => V::visit::<colortype::Gray32Float>(state, input),
        ColorTypeName::Gray64Float => V::visit::<colortype::Gray64Float>(state, input),
        ColorTypeName::RGB8 => V::visit::<colortype::RGB8>(state, input),
        ColorTypeName::RGB16 => V::visit::<colortype::RGB16>(state, input),
        ColorTypeName::RGB32 => V::visit::<colortype::RGB32>(state, input),
        ColorTypeName::RGB64 => V::visit::<colortype::RGB64>(state, input),
        ColorTypeName::RGB32Float => V::visit::<colortype::RGB32Float>(state, input),
        ColorTypeName::RGB64Float => V::visit::<colortype::RGB64Float>(state, input),
        ColorTypeName::RGBA8 => V::visit::<colortype::RGBA8>(state, input),
        ColorTypeName::RGBA16 => V::visit::<colortype::RGBA16>(state, input),
        ColorTypeName::RGBA32 => V::visit::<colortype::RGBA32>(state, input),
        ColorTypeName::RGBA64 => V::visit::<colortype::RGBA64>(state, input),
        ColorTypeName::RGBA32Float => V::visit::<colortype::RGBA32Float>(state, input),
        ColorTypeName::RGBA64Float => V::visit::<colortype::RGBA64Float>(state, input),
        ColorTypeName::CMYK8 => V::visit::<colortype::CMYK8>(state, input),
        ColorTypeName::CMYK16 => V::visit::<colortype::CMYK16>(state, input),
        ColorTypeName::CMYK32 => V::visit::<colortype::CMYK32>(state, input),
        ColorTypeName::CMYK64 => V::visit::<colortype::CMYK64>(state, input),
        ColorTypeName::CMYK32Float => V::visit::<colortype::CMYK32Float>(state, input),
        ColorTypeName::CMYK64Float => V::visit::<colortype::CMYK64Float>(state, input),
        ColorTypeName::YCbCr8 => V::visit::<colortype::YCbCr8>(state, input),
        ColorTypeName::CMYKA8 => V::visit::<colortype::CMYKA8>(state, input),
        ColorTypeName::Gray1 => V::visit::<colortype::Gray1>(state, input),
        ColorTypeName::Gray2 => V::visit::<colortype::Gray2>(state, input),
        ColorTypeName::Gray4 => V::visit::<colortype::Gray4>(state, input),
    }
}
