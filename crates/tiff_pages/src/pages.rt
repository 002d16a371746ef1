//! The list of a file's pages.

ghost use Rattle.std.specs.Prelude.{◌≡◌, ◌<◌, [], IfErr, IfOk, IsSome, MatchResult, None, Ok, OnErr, OnOk, Some, true};
ghost use Rattle.tiff_base.specs.Answers.{Answers, IsCause};
ghost use Rattle.tiff_decode.specs.Machine.{StandsAt, keeps_state};
ghost use Rattle.tiff_decode.specs.Opened.{rewound};
ghost use Rattle.tiff_decode.specs.Outcome.{chain_of, seek_to_image};
ghost use Rattle.tiff_pages.specs.Pages.{HasItsPage, IsOfFile, LeavesPages, OnlyReads, WasOnItsWay, facts_of, facts_told, pages_in, pages_of, state_along, times_to_end};

use tiff_base::color::{ChunkType, ColorType};
use tiff_base::error::{TiffError, TiffResult};
use tiff_base::io::{IoKind, Source};
use tiff_base::tags::{CompressionMethod, IfdPointer, Tag};
use tiff_decode::decoder::Decoder;
use tiff_laws::page::page_has_method;
use tiff_laws::pages::{walk_ends, walk_goes_on, walk_moves, walk_seeks};

/// What is known of a page without its pixels: its width and height, in pixels; its color, or the
/// error by which it has none; its method of compression; whether it is in strips or in tiles; and
/// how many of these it has in all planes, or the error by which they aren't counted.
#[derive(Debug, Drop)]
pub struct PageFacts {
    pub width: u32,
    pub height: u32,
    pub colour: TiffResult<ColorType>,
    pub method: CompressionMethod,
    pub kind: ChunkType,
    pub chunks: TiffResult<u32>,
}

/// A page of a file: the offset of its directory, and its facts, or its first error.
#[derive(Debug, Drop)]
pub struct PageItem {
    pub place: IfdPointer,
    pub page: TiffResult<PageFacts>,
}

/// The pages of a file in the order of their chain, and the error by which the chain ends, if it
/// ends by one.
#[derive(Debug, Drop)]
pub struct PageList {
    pub pages: Vec<PageItem>,
    pub end: Option<TiffError>,
}

/// A result that comes from the file, also an error of it, is wrapped in `Ok`. Out of memory and an
/// error of the device are returned as errors, `OutOfMemory` and `IoError(Device)`.
pub fn file_answer<T: Drop>(answer: TiffResult<T>) -> TiffResult<TiffResult<T>>
    ensures { MatchResult result (λ told. (told ≡ answer) × IsOfFile answer) (λ e. (answer ≡ Err e)
        × (keeps_state e ≡ true)) }
{
    match answer {
        Ok(value) => Ok(Ok(value)),
        Err(TiffError::OutOfMemory) => Err(TiffError::OutOfMemory),
        Err(TiffError::IoError(IoKind::Device)) => Err(TiffError::IoError(IoKind::Device)),
        Err(fault) => Ok(Err(fault)),
    }
}

// The method of compression of a decoder's page.
fn method_here<R: Source>(decoder: &mut Decoder<R>) -> TiffResult<CompressionMethod>
    requires { HasItsPage decoder.old }
    ensures reads { OnlyReads result decoder.old decoder.new }
    ensures method { IfOk result (λ m. m ≡ decoder.old.state.page.method) }
{
    page_has_method();
    let number = match decoder.find_tag(Tag::Compression)? {
        Some(value) => value.into_u16()?,
        None => 1,
    };
    Ok(CompressionMethod::from_u16_exhaustive(number))
}

// How many chunks a decoder's page has, or the error by which they aren't counted.
#[tactic(auto, unfolding(tiff_decode::specs::Outcome::strip_count, tiff_decode::specs::Outcome::tile_count))]
fn chunks_here<R: Source>(decoder: &mut Decoder<R>) -> TiffResult<u32>
    ensures count { result ≡ (facts_of decoder.old.state.page).chunks }
    ensures stays { decoder.new ≡ decoder.old }
{
    match decoder.get_chunk_type() {
        ChunkType::Strip => decoder.strip_count(),
        ChunkType::Tile => decoder.tile_count(),
    }
}

/// The facts of a decoder's page.
#[tactic(auto, unfolding(tiff_decode::specs::Outcome::dimensions, tiff_decode::specs::Outcome::colortype))]
pub(crate) fn facts_here<R: Source>(decoder: &mut Decoder<R>) -> TiffResult<PageFacts>
    requires { HasItsPage decoder.old }
    ensures reads { OnlyReads result decoder.old decoder.new }
    ensures facts { IfOk result (λ facts. facts ≡ facts_of decoder.old.state.page) }
{
    let (width, height) = decoder.dimensions()?;
    let colour = file_answer(decoder.colortype())?;
    let kind = decoder.get_chunk_type();
    let chunks = chunks_here(decoder);
    let method = method_here(decoder)?;
    Ok(PageFacts {
        width,
        height,
        colour,
        method,
        kind,
        chunks,
    })
}

/// The offset of the directory that a decoder entered last.
pub(crate) fn place_of<R: Source>(decoder: &mut Decoder<R>) -> IfdPointer
    requires { IsSome decoder.old.state.pointer }
    ensures place { decoder.old.state.pointer ≡ Some result }
    ensures stays { decoder.new ≡ decoder.old }
{
    match decoder.ifd_pointer() {
        Some(place) => place,
        None => unreachable!(),
    }
}

// The page at which a decoder is, after it was entered or refused.
fn item_here<R: Source>(decoder: &mut Decoder<R>, entered: TiffResult<()>) -> TiffResult<PageItem>
    requires place { IsSome decoder.old.state.pointer }
    requires page { OnOk entered (HasItsPage decoder.old) }
    ensures reads { OnlyReads result decoder.old decoder.new }
    ensures place { IfOk result (λ item. decoder.old.state.pointer ≡ Some item.place) }
    ensures page { IfOk result (λ item. item.page ≡ facts_told entered decoder.old.state.page) }
{
    let place = place_of(decoder);
    let page = match entered {
        Ok(()) => Ok(facts_here(decoder)?),
        Err(fault) => Err(fault),
    };
    Ok(PageItem { place, page })
}

// The error by which a chain without directories ends. A decoder past the end returns another one,
// so it goes back first.
fn end_of_none<R: Source>(decoder: &mut Decoder<R>) -> TiffResult<Option<TiffError>>
    requires { (chain_of decoder.old).offsets ≡ [] }
    ensures end { IfOk result (λ end. end ≡ (chain_of decoder.old).end) }
    ensures past { OnOk result
        (decoder.new ≡ record decoder.old { state = (seek_to_image decoder.old 0).next }) }
    ensures file { StandsAt decoder.new.state decoder.old decoder.new }
    ensures back { OnErr result (decoder.new.state ≡ (rewound decoder.old).state) }
    ensures refused { IfErr result (λ e. IsCause (Unit {0}) (decoder.old.failures < decoder.new.failures) e ⊥) }
{
    decoder.rewind();
    let sought = file_answer(decoder.seek_to_image(0))?;
    Ok(sought.err())
}

// Lists the pages of a decoder's file into an empty list, and returns the error by which their
// chain ends, if it ends by one.
fn list_pages<R: Source>(
    decoder: &mut Decoder<R>,
    pages: &mut Vec<PageItem>,
) -> TiffResult<Option<TiffError>>
    requires { pages.old.items ≡ [] }
    ensures pages { IfOk result (λ end. record { items = pages.new.items; end = end } ≡ pages_of decoder.old) }
    ensures end { OnOk result
        (decoder.new
        ≡ record decoder.old { state = state_along decoder.old (times_to_end decoder.old) }) }
    ensures file { StandsAt decoder.new.state decoder.old decoder.new }
    ensures way { OnErr result (WasOnItsWay decoder.old decoder.new.state) }
    ensures refused { IfErr result (λ e. IsCause (Unit {0}) (decoder.old.failures < decoder.new.failures) e ⊥) }
{
    walk_seeks();
    walk_goes_on();
    walk_ends();
    walk_moves();
    let entered = file_answer(decoder.seek_to_image(0))?;
    if decoder.ifd_pointer().is_none() {
        return end_of_none(decoder);
    }
    pages.push(item_here(decoder, entered)?)?;
    'pages: while decoder.more_images() {
        let here = place_of(decoder);
        let entered = file_answer(decoder.next_image())?;
        if place_of(decoder).0 == here.0 {
            return Ok(entered.err());
        }
        pages.push(item_here(decoder, entered)?)?;
    }
    Ok(None)
}

/// Lists the pages of a decoder's file, from the first one to the end of the chain, wherever the
/// decoder is: each with its facts, or with the first error of the page under the decoder's limits;
/// and the error by which the chain ends, if it ends by one. So a decoder that was opened by
/// [`Decoder::open`] lists a first page that is refused as it does others. The decoder is then at
/// the chain's last directory, or at none if the first one can't be read. The only errors of the
/// list are `OutOfMemory` and an error of the device, `IoError(Device)`. After these, the decoder
/// is where the last call left it, and the caller can list the pages again.
pub fn pages<R: Source>(decoder: &mut Decoder<R>) -> TiffResult<PageList>
    ensures answer { Answers pages_in result (Ok (pages_of decoder.old)) decoder.old.failures
        decoder.new.failures }
    ensures decoder { LeavesPages result decoder.old decoder.new }
    ensures limits { decoder.new.state.limits ≡ decoder.old.state.limits }
{
    let mut pages = Vec::new(decoder.allocator());
    let end = list_pages(decoder, &mut pages)?;
    Ok(PageList { pages, end })
}
