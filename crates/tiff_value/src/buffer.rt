//! Values as bytes.

ghost use Rattle.std.specs.Prelude.{◌≡◌};
ghost use Rattle.tiff_base.specs.Answers.{AnswersBut};
ghost use Rattle.tiff_value.specs.Buffer.{buffer_count, buffer_given, empty_buffer, in_byte_order};
ghost use Rattle.tiff_value.specs.Values.{IsWritable};

use crate::encoder::tiff_value::TiffValue;
use std::alloc::Global;
use std::marker::Model;
use tiff_base::error::TiffResult;
use tiff_base::tags::{ByteOrder, Type};

/// Values of one type as bytes, in a byte order.
#[derive(Debug, Drop)]
pub struct ValueBuffer {
    order: ByteOrder,
    data_type: Type,
    bytes: Vec<u8>,
}

impl Model for ValueBuffer {
    ghost use Rattle.tiff_value.specs.Buffer.{BufferRecord};

    ghost Value = { BufferRecord };

    ghost view = { λ b. record { order = b.order; data_type = b.data_type; bytes = b.bytes.items } };
}

impl ValueBuffer {
    ghost use Rattle.std.specs.Borrow.{sem};
    ghost use Rattle.tiff_value.specs.Lends.{lends_bytes};

    /// Makes a buffer without values, of a type, in the machine's byte order.
    pub fn empty(alloc: Global, data_type: Type) -> Self
        ensures { result ≡ empty_buffer data_type }
    {
        ValueBuffer {
            order: ByteOrder::native(),
            data_type,
            bytes: Vec::new(alloc),
        }
    }

    /// Makes a buffer of the bytes of a value, in the machine's byte order. Its errors are those of
    /// `data`.
    pub fn from_value<V: TiffValue>(alloc: Global, value: &V) -> TiffResult<Self>
        ensures { AnswersBut (IsWritable (V.field_data value.now)) ⊥ (λ b. b) result
            (buffer_given (V.field_data value.now)) }
    {
        let bytes = value.data(alloc)?;
        let (data_type, _len) = V::type_and_len();
        Ok(ValueBuffer {
            order: ByteOrder::native(),
            data_type,
            bytes,
        })
    }

    /// Makes a buffer from the bytes of values of a type, in a byte order. This project adds this
    /// function.
    pub fn from_parts(order: ByteOrder, data_type: Type, bytes: Vec<u8>) -> Self
        ensures { result ≡ record { order = order; data_type = data_type; bytes = bytes.items } }
    {
        ValueBuffer {
            order,
            data_type,
            bytes,
        }
    }

    /// Returns the byte order of the numbers.
    pub fn byte_order(&self) -> ByteOrder
        ensures { result ≡ self.now.order }
    {
        self.order
    }

    /// Returns the type of the values.
    pub fn data_type(&self) -> Type
        ensures { result ≡ self.now.data_type }
    {
        self.data_type
    }

    /// Returns the number of values.
    pub fn count(&self) -> u64
        ensures { result ≡ buffer_count self.now }
    {
        let size = u64::from(self.data_type.byte_len());
        self.bytes.len() as u64 / size
    }

    /// Returns the bytes of the values, in their byte order.
    pub fn as_bytes(&self) -> &[u8]
        ensures { result.now ≡ self.now.bytes }
    {
        self.bytes.as_slice()
    }

    /// Returns the bytes of the values for writing. The byte order and the type stay the same.
    pub fn as_bytes_mut(&mut self) -> &mut [u8]
        ensures* writes_back { sem 𝓛 (lends_bytes self.entry result) }
        ensures value { result.now ≡ self.old.bytes }
    {
        self.bytes.as_mut_slice()
    }

    /// Converts the bytes of the numbers to a byte order.
    pub fn set_byte_order(&mut self, order: ByteOrder)
        ensures { self.new ≡ in_byte_order self.old order }
    {
        self.order
            .convert(self.data_type, self.bytes.as_mut_slice(), order);
        self.order = order;
    }
}
