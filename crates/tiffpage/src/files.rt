//! The files of the machine.

ghost use Rattle.std.specs.Prelude.{◌≡◌, IfOk, length};

use std::fs;
use std::fs::{File, Metadata, OpenFile, OpenOptions, Permissions};
use std::io::{self, ErrorKind, Input, Read, Seek, SeekFrom, Write};
use std::os::unix::fs::PermissionsExt;
use std::rt::Files as Machine;
use tiff::io::IoKind;
use tiff::{TiffError, TiffResult};
use tiffpage_lib::files::Files;

/// The files of the machine, and its standard output.
#[derive(Drop)]
pub struct MachineFiles<'a, R: Machine + AllocGlobal + Input, O: Write + Drop> {
    rt: &'a R,
    out: O,
}

impl<'a, R: Machine + AllocGlobal + Input, O: Write + Drop> MachineFiles<'a, R, O> {
    pub fn new(rt: &'a R, out: O) -> Self {
        MachineFiles { rt, out }
    }
}

// The error of the machine, as an error of `tiff`.
fn fault(kind: ErrorKind) -> TiffError {
    match kind {
        ErrorKind::OutOfMemory => TiffError::OutOfMemory,
        _ => TiffError::IoError(IoKind::Device),
    }
}

// All bytes of standard input.
fn input<R: AllocGlobal + Input>(rt: &R) -> io::Result<Vec<u8>> {
    let mut bytes = Vec::new(rt.alloc());
    rt.reader().read_to_end(&mut bytes)?;
    Ok(bytes)
}

// How many bytes a file has, if parts of it can be read, as of a plain file; `None` of a pipe, a device
// or a folder.
fn len_of<R: Machine>(rt: &R, name: &str) -> io::Result<Option<u64>> {
    let found = fs::metadata(rt, name)?;
    if found.is_file() {
        Ok(Some(found.len()))
    } else {
        Ok(None)
    }
}

// `len` bytes of a file, from an offset on. A file that has fewer there, as one that became shorter, is
// refused.
fn part<R: Machine + AllocGlobal>(rt: &R, name: &str, at: u64, len: u64) -> io::Result<Vec<u8>>
    ensures { IfOk result (λ bytes. length bytes.items ≡ len) }
{
    let mut file = File::open(rt, name)?;
    file.seek(SeekFrom::Start(at))?;
    let mut bytes = Vec::new(rt.alloc());
    file.take(len).read_to_end(&mut bytes)?;
    if bytes.len() as u64 != len {
        return Err(io::Error::from(ErrorKind::UnexpectedEof));
    }
    Ok(bytes)
}

// How many names of a new file beside another are tried.
const PARTS: u32 = 100;

// The bits of permissions to read, write and run a file. The others would let whoever runs the file
// act as its owner or its group, which may be another one than that of the file before.
const PLAIN_BITS: u32 = 0o777;

// The folder of a file; of a name alone, the one in which the program runs.
fn folder_of(name: &str) -> &str {
    match name.rsplit_once('/') {
        Some((folder, _)) if folder.is_empty() => "/",
        Some((folder, _)) => folder,
        None => ".",
    }
}

// Makes a new file in a folder, under a name that no other file has, also not one that an earlier
// run left behind.
fn create_part<R: Machine + AllocGlobal>(rt: &R, folder: &str) -> io::Result<(R::File, String)> {
    for number in 0..PARTS {
        let part = format!(in rt.alloc(); "{folder}/.tiffpage-part-{number}")?;
        match File::create_new(rt, part.as_str()) {
            Ok(file) => return Ok((file, part)),
            Err(e) if e.kind() == ErrorKind::AlreadyExists => {}
            Err(e) => return Err(e),
        }
    }
    Err(io::Error::from(ErrorKind::AlreadyExists))
}

// Fills a new file, gives it the permissions of the file that has the name, if there is one, and
// puts it in its place.
fn fill_and_rename<R: Machine>(
    rt: &R,
    mut file: R::File,
    part: &str,
    name: &str,
    bytes: &[u8],
) -> io::Result<()> {
    file.write_all(bytes)?;
    if let Ok(found) = fs::metadata(rt, name) {
        let mode = found.permissions().mode() & PLAIN_BITS;
        file.set_permissions(Permissions::from_mode(mode))?;
    }
    // All is on the disk before the name changes: a full disk leaves the old file.
    file.sync_all()?;
    fs::rename(rt, part, name)
}

// Makes a file with these bytes in the place of the one that has the name, if there is one, whole or
// not at all.
fn replace<R: Machine + AllocGlobal>(rt: &R, name: &str, bytes: &[u8]) -> io::Result<()> {
    // In the folder of the old one: a rename doesn't leave its file system.
    let (file, part) = create_part(rt, folder_of(name))?;
    let made = fill_and_rename(rt, file, part.as_str(), name, bytes);
    if made.is_err() {
        let _removed = fs::remove_file(rt, part.as_str());
    }
    made
}

// Whether a file may be written: it isn't marked as read-only, and the machine opens it for writing.
fn is_writable<R: Machine>(rt: &R, name: &str, found: &Metadata) -> bool {
    let mut options = OpenOptions::new();
    !found.permissions().readonly() && options.write(true).open(rt, name).is_ok()
}

// Makes a file with these bytes, whole or not at all: if it can't be written, the file that had the
// name stays. Behind a link, this is the file to which it leads. Devices, pipes and what is in
// `/dev` are written as they are.
fn write_whole<R: Machine + AllocGlobal>(rt: &R, name: &str, bytes: &[u8]) -> io::Result<()> {
    let Ok(found) = fs::metadata(rt, name) else {
        return match fs::symlink_metadata(rt, name) {
            Ok(_) => fs::write(rt, name, bytes),
            Err(_) => replace(rt, name, bytes),
        };
    };
    if !found.is_file() || name.starts_with("/dev/") {
        return fs::write(rt, name, bytes);
    }
    if !is_writable(rt, name, &found) {
        return Err(io::Error::from(ErrorKind::PermissionDenied));
    }
    if !fs::symlink_metadata(rt, name)?.is_symlink() {
        return replace(rt, name, bytes);
    }
    let behind = fs::canonicalize(rt, name)?;
    replace(rt, behind.as_path().to_string_lossy(), bytes)
}

// Appends bytes to a file, and then overwrites its bytes from an offset on. The former are on the
// disk before the latter are written: a file that is cut between the two has all bytes that it had.
fn append_and_link<R: Machine>(
    rt: &R,
    name: &str,
    more: &[u8],
    at: u64,
    over: &[u8],
) -> io::Result<()> {
    let mut options = OpenOptions::new();
    let mut file = options.write(true).open(rt, name)?;
    file.seek(SeekFrom::End(0))?;
    file.write_all(more)?;
    file.sync_all()?;
    file.seek(SeekFrom::Start(at))?;
    file.write_all(over)?;
    file.sync_all()
}

// Whether two names lead to one file.
fn lead_to_one<R: Machine + AllocGlobal>(rt: &R, one: &str, other: &str) -> io::Result<bool> {
    let one = fs::canonicalize(rt, one)?;
    let other = fs::canonicalize(rt, other)?;
    Ok(one.as_path().to_string_lossy() == other.as_path().to_string_lossy())
}

impl<R: Machine + AllocGlobal + Input, O: Write + Drop> Files for MachineFiles<'_, R, O> {
    fn read(&mut self, name: &str) -> TiffResult<Vec<u8>> {
        let read = if name == "-" {
            input(self.rt)
        } else {
            fs::read(self.rt, name)
        };
        read.map_err(|e| fault(e.kind()))
    }

    fn len(&mut self, name: &str) -> TiffResult<Option<u64>> {
        if name == "-" {
            return Ok(None);
        }
        len_of(self.rt, name).map_err(|e| fault(e.kind()))
    }

    fn read_at(&mut self, name: &str, at: u64, len: u64) -> TiffResult<Vec<u8>> {
        match part(self.rt, name, at, len) {
            Ok(bytes) => Ok(bytes),
            Err(e) => Err(fault(e.kind())),
        }
    }

    fn write(&mut self, name: &str, bytes: &[u8]) -> TiffResult<()> {
        let written = if name == "-" {
            self.out.write_all(bytes)
        } else {
            write_whole(self.rt, name, bytes)
        };
        written.map_err(|e| fault(e.kind()))
    }

    fn append(&mut self, name: &str, more: &[u8], at: usize, over: &[u8]) -> TiffResult<()> {
        let written = append_and_link(self.rt, name, more, at as u64, over);
        written.map_err(|e| fault(e.kind()))
    }

    // Links are followed. Another hard link of a file is another file, since a file that is written
    // leaves its other names as they were. A name that leads nowhere is that of no other file.
    fn are_same(&mut self, one: &str, other: &str) -> TiffResult<bool> {
        if one == "-" || other == "-" {
            return Ok(false);
        }
        match lead_to_one(self.rt, one, other) {
            Ok(same) => Ok(same),
            Err(e) if e.kind() == ErrorKind::OutOfMemory => Err(TiffError::OutOfMemory),
            Err(_) => Ok(one == other),
        }
    }
}
