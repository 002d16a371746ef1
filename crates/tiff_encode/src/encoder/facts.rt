//! What is true of every encoder, directory and image. Each function does nothing: a caller calls
//! it where its proof needs the fact. A use of a field opens a value, whose invariant says the
//! rest.

ghost use Rattle.std.specs.Prelude.{◌≡◌, ◌^◌, ◌<◌, None};
ghost use Rattle.std.specs.FinMap as map;
ghost use Rattle.tiff_base.specs.Field.{AreEntries};
ghost use Rattle.tiff_base.specs.Types.{type_size};
ghost use Rattle.tiff_encode.specs.Causes.{end_of};

use crate::encoder::TiffEncoder;
use crate::encoder::directory::state::DirectoryState;
use crate::encoder::image::state::ImageState;
use crate::encoder::kind::TiffKind;
use tiff_base::io::Sink;
use tiff_value::encoder::horizontal_predictor::Sample;

impl<W: Sink, K: TiffKind> TiffEncoder<W, K> {
    /// The file is shorter than 2^64 bytes if no write failed.
    pub(crate) fn fact_fits(&self)
        ensures { self.now.fault ≡ None → end_of self.now < 2 ^ 64 }
    {
        let _end = self.writer.offset();
    }

    /// The file is shorter than 2^64 bytes, also after a failed write.
    pub(crate) fn fact_short(&self)
        ensures { end_of self.now < 2 ^ 64 }
    {
        let _len = self.writer.len();
    }

    /// The file is of the kind of the encoder.
    pub(crate) fn fact_kind(&self)
        ensures { self.now.kind ≡ K.kind }
    {
        let _chain = &self.chain;
    }
}

impl DirectoryState {
    /// The fields are entries that a directory can have, and they are fewer than 2^64.
    pub(crate) fn fact_fits(&self)
        ensures entries { AreEntries self.now.fields }
        ensures few { map.len self.now.fields < 2 ^ 64 }
    {
        self.directory.entries_fit();
        let _count = self.directory.len();
    }
}

impl<T: Sample> ImageState<T> {
    /// The fields of the image's directory are entries that a directory can have.
    pub(crate) fn fact_fits(&self)
        ensures { AreEntries self.now.directory.fields }
    {
        self.directory.fact_fits();
    }

    /// A sample of the image has as many bytes as one of its color type.
    pub(crate) fn fact_type(&self)
        ensures { self.now.size ≡ type_size T.value_type }
    {
        let _form = &self.form;
    }
}
