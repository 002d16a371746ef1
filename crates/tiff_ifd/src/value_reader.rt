//! Reads the tags of a directory, whatever their types.

ghost use Rattle.std.specs.Prelude.{◌≡◌, option_map};
ghost use Rattle.tiff_base.specs.Answers.{IsKept};
ghost use Rattle.tiff_ifd.specs.View.{plain_value};
ghost use Rattle.tiff_ifd.specs.TagLookup.{look_in};

use crate::field_reader::FieldReader;
use crate::limits::Limits;
use crate::lookup::Tags;
use crate::value::Value;
use std::alloc::Global;
use tiff_base::directory::Directory;
use tiff_base::error::TiffResult;
use tiff_base::io::Source;
use tiff_base::tags::{ByteOrder, FileKind, Tag};

/// A source and one of its directories. Reads the tags of the directory, whatever their types.
#[derive(Drop)]
pub struct ValueReader<R: Source> {
    pub source: R,
    pub kind: FileKind,
    pub order: ByteOrder,
    pub directory: Directory,
    pub limits: Limits,
}

impl<R: Source> Tags for ValueReader<R> {
    ghost contents = { λ t. record {
      look = look_in t.kind t.order (R.contents t.source).bytes t.limits t.directory.entries;
      source = R.contents t.source;
      kind = t.kind;
      order = t.order;
      directory = t.directory;
      limits = t.limits;
    } };

    ghost failures = { λ t. R.failures t.source };

    #[tactic(auto, unfolding(crate::specs::TagLookup::look_in))]
    fn contains(&self, tag: Tag) -> bool {
        self.directory.contains(tag)
    }

    #[tactic(auto, using(crate::specs::lemmas::Within::look_within), unfolding(crate::specs::TagLookup::look_in))]
    fn find(&mut self, alloc: Global, tag: Tag) -> TiffResult<Option<Value>> {
        let fields = FieldReader {
            alloc,
            kind: self.kind,
            order: self.order,
            limits: &self.limits,
        };
        fields.find_value(&mut self.source, &self.directory, tag)
    }

    fn find_u64_vec(&mut self, alloc: Global, tag: Tag) -> TiffResult<Option<Vec<u64>>> {
        let fields = FieldReader {
            alloc,
            kind: self.kind,
            order: self.order,
            limits: &self.limits,
        };
        fields.find_numbers(&mut self.source, &self.directory, tag)
    }
}
