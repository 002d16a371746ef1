//! The calls of `tiff::encoder`: encoders, directories and kinds of files.

use tiff::encoder::script::{run_jobs, run_jobs_in};
use tiff::encoder::{
    DirectoryEncoder, DirectoryOffset, TiffEncoder, TiffKind, TiffKindBig, TiffKindStandard,
};
use tiff::io::Sink;

// Encoders of both kinds of files.
fn name_encoders<W: Sink, K: TiffKind>() {
    let _call = TiffEncoder::<W, TiffKindStandard>::new;
    let _call = TiffEncoder::<W, TiffKindBig>::new_big;
    let _call = TiffEncoder::<W, K>::new_generic;
    let _call = TiffEncoder::<W, K>::append_to;
    let _call = TiffEncoder::<W, K>::with_predictor;
    let _call = TiffEncoder::<W, K>::with_compression;
    let _call = TiffEncoder::<W, K>::into_inner;
    let _call = TiffEncoder::<W, K>::image_directory;
    let _call = TiffEncoder::<W, K>::extra_directory;
    let _call = run_jobs::<W, K>;
    let _call = run_jobs_in::<W, K>;
}

// Directories.
fn name_directories<W: Sink, K: TiffKind>() {
    let _call = DirectoryEncoder::<W, K>::write_entry::<u16>;
    let _call = DirectoryEncoder::<W, K>::write_entry_buf;
    let _call = DirectoryEncoder::<W, K>::write_entry_bytes;
    let _call = DirectoryEncoder::<W, K>::write_tag::<u16>;
    let _call = DirectoryEncoder::<W, K>::write_tag_buf;
    let _call = DirectoryEncoder::<W, K>::write_data_buf;
    let _call = DirectoryEncoder::<W, K>::extend_from;
    let _call = DirectoryEncoder::<W, K>::write_data::<u16>;
    let _call = DirectoryEncoder::<W, K>::set_parent;
    let _call = DirectoryEncoder::<W, K>::finish;
    let _call = DirectoryEncoder::<W, K>::finish_with_offsets;
    let _call = DirectoryEncoder::<W, K>::discard;
    let _call = DirectoryOffset::<K>::new;
}

// Kinds of files.
fn name_kinds<W: Sink, K: TiffKind>() {
    let _call = K::file_kind;
    let _call = K::convert_offset;
    let _call = K::offset_at;
    let _call = K::write_offset::<W>;
    let _call = K::write_entry_count::<W>;
    let _call = K::write_header::<W>;
}

/// Names the calls.
pub fn name_calls<W: Sink, K: TiffKind>() {
    name_encoders::<W, K>();
    name_directories::<W, K>();
    name_kinds::<W, K>();
}
