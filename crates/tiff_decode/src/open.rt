//! Opens a file by its header alone.

ghost use Rattle.std.specs.Prelude.{◌≡◌, [], ◌∷◌, IfOk, None, Ok};
ghost use Rattle.tiff_base.specs.Answers.{AnswersBut, ReadsOnly, FailsFrom};
ghost use Rattle.tiff_ifd.specs.Stretches.{HeaderReadable};
ghost use Rattle.tiff_page.specs.PageView.{page as page_record};
ghost use Rattle.tiff_decode.specs.Machine.{Decoding};
ghost use Rattle.tiff_decode.specs.Opened.{OpensFirst, no_page, opened_of, rewound};

use crate::decoder::{CurrentDirectory, Decoder, header_end};
use std::alloc::{AllocError, Global};
use tiff_base::color::ChunkType;
use tiff_base::directory::Directory;
use tiff_base::error::TiffResult;
use tiff_base::io::Source;
use tiff_base::tags::{
    CompressionMethod, PhotometricInterpretation, PlanarConfiguration, Predictor, SampleFormat,
};
use tiff_ifd::header::read_header;
use tiff_ifd::limits::Limits;
use tiff_ifd::value_reader::ValueReader;
use tiff_ifd::walk::IfdChainWalk;
use tiff_page::lists::{ExtraSampleList, NumberList};
use tiff_page::page::Page;

// The list of the number 0.
fn zero(alloc: Global) -> Result<NumberList, AllocError>
    ensures { IfOk result (λ list. list ≡ 0 ∷ []) }
{
    let mut numbers = Vec::new(alloc);
    numbers.push(0)?;
    Ok(NumberList::from_vec(numbers))
}

// What stands in place of a page before one is entered. It has no color, so that each call which
// reads pixels is refused.
fn no_page(alloc: Global) -> Result<Page, AllocError>
    ensures { IfOk result (λ page. page_record page ≡ no_page) }
{
    Ok(Page {
        width: 1,
        height: 1,
        interpretation: PhotometricInterpretation::TransparencyMask,
        method: CompressionMethod::None,
        samples: 1,
        extra: ExtraSampleList::from_vec(Vec::new(alloc)),
        format: SampleFormat::Uint,
        depth: 1,
        predictor: Predictor::None,
        planar: PlanarConfiguration::Chunky,
        subsampling: (1, 1),
        chunk_type: ChunkType::Strip,
        chunk_width: 1,
        chunk_height: 1,
        offsets: zero(alloc)?,
        byte_counts: zero(alloc)?,
    })
}

impl<R: Source> Decoder<R> {
    /// Opens a file by its header alone, before its first page, with the default limits (this
    /// project's). So a file is opened whose first page is refused, or whose first directory can't
    /// be read. `more_images` is true, and `next_image` enters the first page; `seek_to_image`,
    /// `show_directory`, `read_directory` and `read_directory_tags` go to any other. Until a page
    /// is entered, `dimensions` returns 1 and 1, and each call that reads pixels returns
    /// `InterpretationWithBits`. Returns the first error of the header.
    pub fn open(alloc: Global, source: R) -> TiffResult<Self>
        ensures answer { AnswersBut (Unit {0}) (FailsFrom R.contents R.failures source)
            (λ (d : Decoding). record d { readable = None; failures = R.failures source }) result
            (opened_of (R.contents source).bytes (R.failures source)) }
        ensures readable { IfOk result (λ d. d.readable ≡ (R.contents source).readable) }
        ensures count { IfOk result (λ d. d.failures ≡ R.failures source) }
        ensures asked { ReadsOnly (HeaderReadable (R.contents source)) result }
    {
        let mut source = source;
        let header = read_header(&mut source)?;
        let tags = ValueReader {
            source,
            kind: header.kind,
            order: header.order,
            directory: Directory::empty(alloc),
            limits: Limits::default(),
        };
        Ok(Decoder {
            alloc,
            tags,
            page: no_page(alloc)?,
            first: header.first,
            walk: IfdChainWalk::new(alloc, header.first),
            standing: CurrentDirectory::before_first(),
            offset: header_end(header.kind),
        })
    }
}

impl<R: Source> Decoder<R> {
    /// Goes back before the first page, from any position (this project's): `more_images` is true,
    /// and `next_image` enters the first page. The page and its tags stay until then. Reads
    /// nothing.
    pub fn rewind(&mut self)
        ensures { self.new ≡ rewound self.old }
    {
        self.standing = CurrentDirectory::before_first();
    }
}

/// A decoder opened at its first page is one that was opened by its header and then entered the
/// first page: the same state, or the same first error. The law does nothing.
#[tactic(auto, using(crate::proofs::Opened::opens_first))]
pub fn opens_first()
    ensures { OpensFirst }
{}
