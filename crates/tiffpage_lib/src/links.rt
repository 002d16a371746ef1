//! The chain of a file's directories, followed by windows. A list of directories asks for one after
//! another, each time from the first one on. So their bytes are asked for before, where the links
//! lead. What is told of the file doesn't depend on that.

ghost use Rattle.std.specs.Prelude.{◌≡◌, IfSome};
ghost use Rattle.tiff_base.specs.Answers.{IsKept};
ghost use Rattle.tiff_base.specs.Windows.{AreWindowsOf, IsWanted};

use tiff::TiffResult;
use tiff_base::io::Source;
use tiff_base::windows::{OrderedWindows, SeenFile, Stretch, WindowSource};
use tiff_ifd::decode::read_link_of;
use tiff_ifd::header::read_header;

// How many links are followed at a time, since they may lead in a circle.
const MOST_LINKS: usize = 1_000;

// The link of the directory at an offset, or of the header at 0.
fn read_next<R: Source>(source: &mut R, at: u64) -> TiffResult<Option<u64>>
    ensures { IsKept R.contents R.failures result source.old source.new }
{
    let header = read_header(source)?;
    if at == 0 {
        return Ok(Some(header.first));
    }
    read_link_of(source, at, header.kind, header.order)
}

// Follows the links from a directory on, or from the header, which has the offset 0, as far as a
// source has them. `at` is then the offset of the last directory.
fn follow<R: Source>(source: &mut R, at: &mut u64)
    ensures { R.contents source.new ≡ R.contents source.old }
{
    for _ in 0..MOST_LINKS {
        let Ok(Some(next)) = read_next(source, *at) else {
            return;
        };
        *at = next;
    }
}

/// Follows the links from a directory on, or from the header, which has the offset 0. Returns the
/// bytes that are wanted of a directory, if windows don't have its count and its link; `at` is
/// then its offset, and else that of a later directory.
#[tactic(auto, using(tiff_pages::specs::lemmas::SeenFiles::wanted_seen))]
pub(crate) fn follow_links<F: SeenFile>(seen: &OrderedWindows<'_>, at: &mut u64) -> Option<Stretch>
    requires { AreWindowsOf F.bytes seen.now.seen }
    ensures { IfSome result (IsWanted seen.now.seen) }
{
    let mut source = WindowSource::<F>::new(seen);
    follow(&mut source, at);
    source.wanted()
}
