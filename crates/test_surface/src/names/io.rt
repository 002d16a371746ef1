//! The calls of `tiff::io` and of `tiff::decoder::stream`.

use tiff::decoder::stream::{EndianReader, PackBitsReader};
use tiff::encoder::Sample;
use tiff::io::{
    BufferedSource, ByteRun, ByteWitness, MemorySink, MemorySource, Sink, SliceSource, Source,
};

// Sources and sinks.
fn name_devices<R: Source, W: Sink, B: ByteRun>() {
    let _call = R::read_at;
    let _call = MemorySource::new;
    let _call = SliceSource::new;
    let _call = BufferedSource::<R>::new;
    let _call = BufferedSource::<R>::into_inner;
    let _call = W::len;
    let _call = W::append;
    let _call = W::overwrite;
    let _call = W::reserve;
    let _call = W::append_run::<B>;
    let _call = B::len;
    let _call = B::push_to;
    let _call = MemorySink::new;
    let _call = MemorySink::into_vec;
}

/// Names the calls of what sees bytes.
pub fn name_witnesses<B: ByteRun, S: Sample, V: ByteWitness>() {
    let _call = V::see;
    let _call = B::show_to::<V>;
    let _call = S::show_all::<V>;
}

// Readers of numbers and of packed bytes.
fn name_readers<R: Source>() {
    let _call = EndianReader::<R>::new;
    let _call = EndianReader::<R>::inner;
    let _call = EndianReader::<R>::goto_offset;
    let _call = EndianReader::<R>::read_u16;
    let _call = EndianReader::<R>::read_i16;
    let _call = EndianReader::<R>::read_u32;
    let _call = EndianReader::<R>::read_i32;
    let _call = EndianReader::<R>::read_u64;
    let _call = EndianReader::<R>::read_i64;
    let _call = EndianReader::<R>::read_f32;
    let _call = EndianReader::<R>::read_f64;
    let _call = PackBitsReader::<R>::new;
    let _call = PackBitsReader::<R>::read;
    let _call = PackBitsReader::<R>::read_exact;
}

/// Names the calls.
pub fn name_calls<R: Source, W: Sink, B: ByteRun>() {
    name_devices::<R, W, B>();
    name_readers::<R>();
}
