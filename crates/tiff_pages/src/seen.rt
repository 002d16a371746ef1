//! Lists of a file of which a caller has windows, so that most of its bytes are never asked for. A
//! call returns the bytes that it wants, if it wants some that no window has; the caller fetches
//! them, and calls again with one window more. The wanted bytes begin with one that no window has,
//! so this ends. A result is that of the whole file, for each file that the windows are of: only
//! contracts see which one, the `SeenFile` of the call.

ghost use Rattle.std.specs.Prelude.{◌≡◌, IfOk, MatchResult, None, Some};
ghost use Rattle.tiff_base.specs.Answers.{AnswersWithoutSource};
ghost use Rattle.tiff_base.specs.SourceAndSink.{AreReadable};
ghost use Rattle.tiff_base.specs.Windows.{AreWindowsOf, IsWanted, seen_by};
ghost use Rattle.tiff_decode.specs.Machine.{Decoding};
ghost use Rattle.tiff_decode.specs.Opened.{opened_of};
ghost use Rattle.tiff_pages.specs.OfFile.{check_of, list_of, tree_of};
ghost use Rattle.tiff_pages.specs.Pages.{pages_in};
ghost use Rattle.tiff_pages.specs.Tree.{directories_in};

use crate::check::{PageCheck, check_shown};
use crate::pages::{PageList, pages};
use crate::tree::{DirectoryList, directories};
use std::alloc::Global;
use tiff_base::error::{TiffError, TiffResult};
use tiff_base::tags::IfdPointer;
use tiff_base::windows::{OrderedWindows, SeenFile, Stretch, WindowSource};
use tiff_decode::decoder::Decoder;
use tiff_ifd::limits::Limits;

// The most bytes of a header. They are looked for before a file is opened: a decoder that can't be
// opened takes its source with it, and what that wanted.
const HEADER_LEN: u64 = 16;

// A decoder before the first page of a file whose header the windows have.
fn open_seen<'a, F: SeenFile>(
    alloc: Global,
    seen: &OrderedWindows<'a>,
) -> TiffResult<Decoder<WindowSource<'a, F>>>
    requires of { AreWindowsOf F.bytes seen.now.seen }
    requires header { AreReadable (seen_by seen.now.seen F.bytes) 0 16 }
    ensures answer { AnswersWithoutSource (λ (d : Decoding). record d { readable = None }) result
        (opened_of F.bytes 0) }
    ensures readable { IfOk result (λ d. d.readable ≡ (seen_by seen.now.seen F.bytes).readable) }
    ensures failures { IfOk result (λ d. d.failures ≡ 0) }
{
    Decoder::open(alloc, WindowSource::<F>::new(seen))
}

/// Returns an answer, or the bytes that were wanted for it.
pub fn unless_wanted<T: Drop>(
    answer: TiffResult<T>,
    wanted: Option<Stretch>,
) -> Result<TiffResult<T>, Stretch>
    ensures { MatchResult result (λ told. (told ≡ answer) × (wanted ≡ None)) (λ s. wanted ≡ Some s) }
{
    match wanted {
        Some(wanted) => Err(wanted),
        None => Ok(answer),
    }
}

/// Lists the pages of a file, as [`pages`] does, or returns the bytes that it wants of the file.
/// The only errors of the list are that of the file's header, and `OutOfMemory`.
#[tactic(auto, using(crate::specs::lemmas::SeenFiles::pages_seen, crate::specs::lemmas::SeenFiles::wanted_seen))]
pub fn pages_seen<F: SeenFile>(
    alloc: Global,
    seen: &OrderedWindows<'_>,
) -> Result<TiffResult<PageList>, Stretch>
    requires of { AreWindowsOf F.bytes seen.now.seen }
    ensures { MatchResult result (λ listed. AnswersWithoutSource pages_in listed (list_of F.bytes))
        (IsWanted seen.now.seen) }
{
    if let Some(wanted) = seen.wanted_of_front(HEADER_LEN) {
        return Err(wanted);
    }
    let mut decoder = match open_seen::<F>(alloc, seen) {
        Ok(decoder) => decoder,
        Err(fault) => return Ok(Err(fault)),
    };
    let listed = pages(&mut decoder);
    unless_wanted(listed, decoder.inner().wanted())
}

/// Lists the directories of a file, as [`directories`] does, or returns the bytes that it wants of
/// the file. The only errors of the list are that of the file's header, and `OutOfMemory`.
#[tactic(auto, using(crate::specs::lemmas::SeenFiles::directories_seen, crate::specs::lemmas::SeenFiles::wanted_seen))]
pub fn directories_seen<F: SeenFile>(
    alloc: Global,
    seen: &OrderedWindows<'_>,
) -> Result<TiffResult<DirectoryList>, Stretch>
    requires of { AreWindowsOf F.bytes seen.now.seen }
    ensures { MatchResult result (λ listed. AnswersWithoutSource directories_in listed (tree_of F.bytes))
        (IsWanted seen.now.seen) }
{
    if let Some(wanted) = seen.wanted_of_front(HEADER_LEN) {
        return Err(wanted);
    }
    let mut decoder = match open_seen::<F>(alloc, seen) {
        Ok(decoder) => decoder,
        Err(fault) => return Ok(Err(fault)),
    };
    let listed = directories(&mut decoder);
    unless_wanted(listed, decoder.inner().wanted())
}

/// Reads the page of the directory at an offset of a file whole, as [`check_shown`] does under
/// limits, or returns the bytes that it wants of the file. The only errors of the check are that of
/// the file's header, and `OutOfMemory`.
#[tactic(auto, using(crate::specs::lemmas::SeenFiles::check_seen, crate::specs::lemmas::SeenFiles::wanted_seen))]
pub fn check_seen<F: SeenFile>(
    alloc: Global,
    seen: &OrderedWindows<'_>,
    limits: &Limits,
    place: IfdPointer,
) -> Result<TiffResult<PageCheck>, Stretch>
    requires of { AreWindowsOf F.bytes seen.now.seen }
    ensures { MatchResult result (λ checked. AnswersWithoutSource (λ check. check) checked
        (check_of F.bytes limits.now place.0)) (IsWanted seen.now.seen) }
{
    if let Some(wanted) = seen.wanted_of_front(HEADER_LEN) {
        return Err(wanted);
    }
    let Ok(limits) = limits.clone() else {
        return Ok(Err(TiffError::OutOfMemory));
    };
    let mut decoder = match open_seen::<F>(alloc, seen) {
        Ok(decoder) => decoder.with_limits(limits),
        Err(fault) => return Ok(Err(fault)),
    };
    let checked = check_shown(alloc, &mut decoder, place);
    unless_wanted(checked, decoder.inner().wanted())
}
