//! Lists of values are converted and copied.

use crate::library::told::Told;
use std::alloc::{AllocError, Global};
use std::fmt::Debug;
use tiff_base::error::TiffResult;
use tiff_ifd::value::Value;

// A list of two items. It is generic because in a function that isn't the drop of values takes long
// to prove.
fn pair<T: Drop>(alloc: Global, first: T, second: T) -> Result<Vec<T>, AllocError> {
    let mut items = Vec::new(alloc);
    items.push(first)?;
    items.push(second)?;
    Ok(items)
}

// Adds the copy of a value, and whether it is equal to that.
fn add_copy<T: Clone + PartialEq + Debug + Drop>(told: &mut Told, value: T) -> TiffResult<()> {
    let copy = value.clone()?;
    told.line("Value::eq", copy == value);
    told.line("Value::clone", copy);
    Ok(())
}

/// Adds the numbers and the pointers of lists of two values, and the copy of such a list.
pub fn add_lines(told: &mut Told) -> TiffResult<()> {
    let alloc = told.alloc();
    let list = pair(alloc, Value::SRational(-1, 2), Value::SignedByte(-3))?;
    let numbers = Value::List(list).into_i32_vec(alloc);
    told.line("Value::into_i32_vec", numbers);
    let list = pair(alloc, Value::SRationalBig(-1, 4294967296), Value::Signed(7))?;
    let numbers = Value::List(list).into_i64_vec(alloc);
    told.line("Value::into_i64_vec", numbers);
    let list = pair(alloc, Value::Ifd(8), Value::IfdBig(4294967296))?;
    let pointers = Value::List(list).into_ifd_vec(alloc);
    told.line("Value::into_ifd_vec", pointers);
    let list = pair(alloc, Value::Short(1), Value::Rational(1, 2))?;
    add_copy(told, Value::List(list))
}
