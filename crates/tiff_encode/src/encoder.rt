//! Writes TIFF files.

mod directory;
mod facts;
mod finish;
mod image;
mod job_samples;
mod jobs;
mod kind;
pub mod laws;
pub mod script;
mod settings;

ghost use Rattle.std.specs.Prelude.{◌≡◌, ℕ, ◌+◌, ◌%◌, ◌<◌, ◌≤◌, [], length, IfOk, IsSome, MatchResult, false};
ghost use Rattle.tiff_base.specs.declared.tags.FileKind.TheVariants.{Big, Classic};
ghost use Rattle.tiff_value.specs.Predicted.{row_bytes};
ghost use Rattle.tiff_encode.specs.Appending.{EndsInHeader, EndsIn, GoesOnBehind, continued_file, header_file_model, former_model};
ghost use Rattle.tiff_value.specs.FileBytes.{padding, offset_len};
ghost use Rattle.tiff_encode.specs.Calls as calls;
ghost use Rattle.tiff_encode.specs.Causes.{is_past};
ghost use Rattle.tiff_encode.specs.Encoder.{HeaderFails};
ghost use Rattle.tiff_encode.specs.Machine.{begun_file};
ghost use Rattle.tiff_value.specs.Model.{FinishedDirectory, header_link, own_link};
ghost use Rattle.tiff_encode.specs.Shows.{LeavesHeader};
ghost use Rattle.tiff_encode.specs.FileWrites.{AppendsToFile, PointsLink};

pub use self::directory::encoder::DirectoryEncoder;
pub use self::directory::state::HasDirectory;
pub use self::image::begin::columns;
pub use self::image::encoder::ImageEncoder;
use self::kind::offset_size;
pub use self::kind::{DirectoryOffset, OffsetNumber, TiffKind, TiffKindBig, TiffKindStandard};
pub use self::settings::Compression;
use std::alloc::Global;
use std::marker::{Model, PhantomData};
use tiff_base::error::{TiffError, TiffResult};
use tiff_base::io::{IoKind, Sink};
pub use tiff_base::tags::Predictor;
use tiff_value::encoder::chunk::{SampleRows, write_chunk};
use tiff_value::encoder::horizontal_predictor::Sample;
use tiff_value::encoder::writer::TiffWriter;

/// Writes a TIFF file: a header, directories and images. After a write to the sink fails, each
/// later call that writes returns `UsageError(WriterFailed)`.
#[derive(Drop)]
pub struct TiffEncoder<W: Sink, K: TiffKind = TiffKindStandard> {
    alloc: Global,
    writer: TiffWriter<W>,
    chain: u64,
    predictor: Predictor,
    compression: Compression,
    kind: PhantomData<K>,
}

impl<W: Sink, K: TiffKind> Model for TiffEncoder<W, K> {
    ghost use Rattle.tiff_encode.specs.Machine.{FileState};
    ghost use Rattle.tiff_encode.specs.FileWrites.{file_of, StandsAtEnd};

    ghost Value = { FileState };

    ghost view = { λ e. file_of K.kind e.writer e.chain e.predictor e.compression };

    ghost invariant = { λ e. StandsAtEnd K.kind e.writer e.chain };
}

impl<W: Sink> TiffEncoder<W, TiffKindStandard> {
    /// Appends the header of a classic file (TIFF 6.0) to the sink. The header links to no
    /// directory. Errors: the error of the sink, `IoError(Device)` or `OutOfMemory`.
    pub fn new(alloc: Global, sink: W) -> TiffResult<Self>
        ensures answer { MatchResult result
            (λ e. e ≡ begun_file Classic (W.contents sink) (W.failures sink))
            (λ e. HeaderFails Classic W.contents W.failures W.fault sink e) }

        // If the sink is empty, the file contains the header.
        ensures leaves { W.contents sink ≡ []
            → IfOk result (λ e. LeavesHeader Classic e.bytes e.chain) }
    {
        TiffEncoder::new_generic(alloc, sink)
    }
}

impl<W: Sink> TiffEncoder<W, TiffKindBig> {
    /// Appends the header of a BigTIFF file to the sink. The header links to no directory. Errors:
    /// the error of the sink, `IoError(Device)` or `OutOfMemory`.
    pub fn new_big(alloc: Global, sink: W) -> TiffResult<Self>
        ensures answer { MatchResult result
            (λ e. e ≡ begun_file Big (W.contents sink) (W.failures sink))
            (λ e. HeaderFails Big W.contents W.failures W.fault sink e) }
        ensures leaves { W.contents sink ≡ [] → IfOk result (λ e. LeavesHeader Big e.bytes e.chain) }
    {
        TiffEncoder::new_generic(alloc, sink)
    }
}

impl<W: Sink, K: TiffKind> TiffEncoder<W, K> {
    /// Appends the header of a file of the kind `K` to the sink. The header links to no directory.
    /// Errors: the error of the sink, `IoError(Device)` or `OutOfMemory`.
    pub fn new_generic(alloc: Global, sink: W) -> TiffResult<Self>
        ensures answer { MatchResult result
            (λ e. e ≡ begun_file K.kind (W.contents sink) (W.failures sink))
            (λ e. HeaderFails K.kind W.contents W.failures W.fault sink e) }
        ensures leaves { W.contents sink ≡ [] → IfOk result (λ e. LeavesHeader K.kind e.bytes e.chain) }
    {
        let mut writer = TiffWriter::new(sink);
        match K::write_header(&mut writer) {
            Ok(()) => {}
            Err(fault) => {
                // `_last` is the sink as the failed write left it.
                let _last = writer.into_inner();
                return Err(fault);
            }
        }
        let chain = writer.offset() - offset_size(K::file_kind());
        Ok(TiffEncoder {
            alloc,
            writer,
            chain,
            predictor: Predictor::None,
            compression: Compression::Uncompressed,
            kind: PhantomData,
        })
    }
}

impl<W: Sink, K: TiffKind> TiffEncoder<W, K> {
    /// Goes on behind the little-endian file of the kind `K` that the sink contains: what is
    /// written is appended at the end of the sink. `link` is the offset of the last link of the IFD
    /// chain (TIFF 6.0 section 2), which has 4 bytes in a classic file and 8 bytes in a BigTIFF
    /// file: the link of the last directory, or that of the header if the file has no directory.
    /// The next directory of the chain writes its offset there when it ends. The call reads and
    /// writes nothing. Returns `IoError(InvalidInput)` if the link isn't within the bytes of the
    /// sink. This project adds this function.
    pub fn append_to(alloc: Global, sink: W, link: u64) -> TiffResult<Self>
        ensures answer { MatchResult result
            (λ e. (link + offset_len K.kind ≤ length (W.contents sink))
            × (e ≡ continued_file K.kind (W.contents sink) (W.failures sink) link))
            (λ e. (length (W.contents sink) < link + offset_len K.kind)
            × (e ≡ TiffError.IoError IoKind.InvalidInput)) }

        // If the file has no directory, all its bytes behind the header stay.
        ensures behind_header { EndsInHeader K.kind (W.contents sink) → link ≡ header_link K.kind
            → IfOk result
            (λ e. GoesOnBehind K.kind e.bytes e.chain (header_file_model K.kind (W.contents sink))) }

        // If the link is that of a directory, this directory stays, and all bytes between the
        // header and it, and behind it.
        ensures behind_directory { (first : ℕ) (d : FinishedDirectory)
            → EndsIn K.kind (W.contents sink) first d → link ≡ own_link K.kind d
            → IfOk result
            (λ e. GoesOnBehind K.kind e.bytes e.chain (former_model K.kind (W.contents sink) first d)) }
    {
        let writer = TiffWriter::new(sink);
        let len = writer.len();
        if len < link || len - link < offset_size(K::file_kind()) {
            return Err(TiffError::IoError(IoKind::InvalidInput));
        }
        Ok(TiffEncoder {
            alloc,
            writer,
            chain: link,
            predictor: Predictor::None,
            compression: Compression::Uncompressed,
            kind: PhantomData,
        })
    }
}

impl<W: Sink, K: TiffKind> TiffEncoder<W, K> {
    /// Sets the predictor of the images that begin after this call. Each such image writes it in
    /// its `Predictor` tag.
    pub fn with_predictor(mut self, predictor: Predictor) -> Self
        ensures { result ≡ calls.with_predictor predictor self }
    {
        self.predictor = predictor;
        self
    }

    /// Sets the compression of the chunks of the images that begin after this call. Each such image
    /// writes it in its `Compression` tag.
    pub fn with_compression(mut self, compression: Compression) -> Self
        ensures { result ≡ calls.with_compression compression self }
    {
        self.compression = compression;
        self
    }

    /// Returns the sink.
    pub fn into_inner(self) -> W
        ensures bytes { W.contents result ≡ self.bytes }
        ensures failures { W.failures result ≡ self.failures }
        ensures fault { IsSome self.fault → W.fault result ≡ self.fault }
    {
        let TiffEncoder {
            alloc: _,
            writer,
            chain: _,
            predictor: _,
            compression: _,
            kind: _,
        } = self;
        writer.into_inner()
    }

    // Appends bytes to the file.
    fn append(&mut self, bytes: &[u8]) -> TiffResult<()>
        ensures { AppendsToFile bytes.now self.old self.new result }
    {
        self.writer.write_plain(bytes)
    }

    // Makes room for `len` bytes that will be appended, if the sink can do so at once.
    fn reserve(&mut self, len: u64)
        ensures { self.new ≡ self.old }
    {
        self.writer.reserve(len);
    }

    // Appends rows of samples to the file. No list of their bytes is allocated.
    fn append_rows<T: Sample>(&mut self, rows: SampleRows<'_, T>) -> TiffResult<()>
        requires stride { (0 < rows.stride) × (rows.stride ≤ rows.row) }
        requires whole { length rows.samples.now % rows.row ≡ 0 }
        ensures { AppendsToFile (row_bytes T.value_type T.bits rows.entry) self.old self.new result }
    {
        write_chunk(&mut self.writer, rows)
    }

    // Appends zeros up to the next multiple of 4 bytes.
    fn pad(&mut self) -> TiffResult<()>
        ensures { AppendsToFile (padding (length self.old.bytes)) self.old self.new result }
    {
        self.writer.pad_word_boundary()
    }

    // Writes the offset `directory` into the link at the offset `parent`.
    fn link(&mut self, parent: u64, directory: u64) -> TiffResult<()>
        requires within { parent + offset_len K.kind ≤ length self.old.bytes }
        requires near { is_past K.kind directory ≡ false }
        ensures { PointsLink parent directory self.old self.new result }
    {
        let end = self.writer.offset();
        self.writer.goto_offset(parent)?;
        K::write_offset(&mut self.writer, directory)?;
        self.writer.goto_offset(end)
    }
}
