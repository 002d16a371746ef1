//! The values in replies to calls that are known.

ghost use Rattle.std.specs.Prelude.{◌≡◌};
ghost use Rattle.tiffpage_lib.specs.Replied.{IsDirectory, IsFound, IsImage, IsPointer, IsSeek};

use tiff::decoder::DecodingResult;
use tiff::decoder::ifd::Entry;
use tiff::decoder::script::Reply;
use tiff::tags::{IfdPointer, ValueBuffer};
use tiff::{Directory, TiffResult};

/// The result of a seek.
pub(crate) fn seek_result(reply: Reply) -> TiffResult<()>
    requires { IsSeek reply }
    ensures { reply ≡ Reply.SeekToImage result }
{
    match reply {
        Reply::SeekToImage(answer) => answer,
        _ => unreachable!(),
    }
}

/// The image that was read.
pub(crate) fn image_read(reply: Reply) -> TiffResult<DecodingResult>
    requires { IsImage reply }
    ensures { reply ≡ Reply.ReadImage result }
{
    match reply {
        Reply::ReadImage(answer) => answer,
        _ => unreachable!(),
    }
}

/// The pointer of a directory.
pub(crate) fn pointer_of(reply: Reply) -> Option<IfdPointer>
    requires { IsPointer reply }
    ensures { reply ≡ Reply.IfdPointer result }
{
    match reply {
        Reply::IfdPointer(answer) => answer,
        _ => unreachable!(),
    }
}

/// The directory that was read.
pub(crate) fn directory_read(reply: Reply) -> TiffResult<Directory>
    requires { IsDirectory reply }
    ensures { reply ≡ Reply.ReadDirectory result }
{
    match reply {
        Reply::ReadDirectory(answer) => answer,
        _ => unreachable!(),
    }
}

/// The field of a tag that was found, with the buffer of its values.
pub(crate) fn field_found(reply: Reply) -> (TiffResult<Option<Entry>>, ValueBuffer)
    requires { IsFound reply }
    ensures { reply ≡ Reply.FindTagBuf result.0 result.1 }
{
    match reply {
        Reply::FindTagBuf(answer, buffer) => (answer, buffer),
        _ => unreachable!(),
    }
}
