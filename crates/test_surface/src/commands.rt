//! Command lines of the program `tiffpage`, over files in memory.

ghost use Rattle.std.specs.Prelude.{◌≡◌, IfOk, length};

use crate::report::Report;
use std::alloc::Global;
use std::marker::Brand;
use tiff::io::IoKind;
use tiff::{TiffError, TiffResult};
use tiffpage_lib::files::Files;
use tiffpage_lib::program::run;

// A file in memory.
#[derive(Drop)]
struct File {
    name: String,
    bytes: Vec<u8>,
}

// Files in memory, of which the latest of a name counts; standard input is the file with the name
// `-`. One name can't be written, and one can't be read.
#[derive(Drop)]
struct MemoryFiles {
    alloc: Global,
    files: Vec<File>,
}

const UNWRITABLE: &str = "FULL";

const UNREADABLE: &str = "LOCKED";

// The file that has zeros behind its bytes, up to a length.
const HOLED: &str = "HOLED";

const HOLED_LEN: u64 = 67_108_870;

// `len` bytes from an offset on, with zeros behind those that are there.
fn filled(alloc: Global, bytes: &[u8], at: u64, len: u64) -> TiffResult<Vec<u8>>
    ensures { IfOk result (λ part. length part.items ≡ len) }
{
    let mut part = Vec::new(alloc);
    for i in 0..len {
        let place = usize::try_from(at.saturating_add(i)).unwrap_or(usize::MAX);
        part.push(bytes.get(place).copied().unwrap_or(0))?;
    }
    Ok(part)
}

impl Files for MemoryFiles {
    fn read(&mut self, name: &str) -> TiffResult<Vec<u8>> {
        if name == UNREADABLE {
            return Err(TiffError::IoError(IoKind::Device));
        }
        for file in self.files.iter() {
            if file.name.as_str() == name {
                return Ok(Vec::from_slice(self.alloc, file.bytes.as_slice())?);
            }
        }
        Err(TiffError::IoError(IoKind::Device))
    }

    fn len(&mut self, name: &str) -> TiffResult<Option<u64>> {
        let bytes = self.read(name)?;
        Ok(match name {
            "-" => None,
            HOLED => Some(HOLED_LEN),
            _ => Some(bytes.len() as u64),
        })
    }

    fn read_at(&mut self, name: &str, at: u64, len: u64) -> TiffResult<Vec<u8>> {
        let bytes = self.read(name)?;
        filled(self.alloc, &bytes, at, len)
    }

    fn write(&mut self, name: &str, bytes: &[u8]) -> TiffResult<()> {
        if name == UNWRITABLE {
            return Err(TiffError::IoError(IoKind::Device));
        }
        let name = String::from_str(self.alloc, name)?;
        let bytes = Vec::from_slice(self.alloc, bytes)?;
        self.files.insert(0, File { name, bytes })?;
        Ok(())
    }

    // The file is written whole, with both.
    fn append(&mut self, name: &str, more: &[u8], at: usize, over: &[u8]) -> TiffResult<()> {
        let mut bytes = self.read(name)?;
        bytes.extend_from_slice(more)?;
        if at > bytes.len() || over.len() > bytes.len() - at {
            return Err(TiffError::IoError(IoKind::InvalidInput));
        }
        bytes[at..at + over.len()].copy_from_slice(over);
        self.write(name, &bytes)
    }

    fn are_same(&mut self, one: &str, other: &str) -> TiffResult<bool> {
        Ok(one == other && one != "-")
    }
}

/// The file of one gray sample 7, byte by byte.
const ONE: [u8; 199] = [
    0x49, 0x49, 0x2a, 0x00, 0x19, 0x00, 0x00, 0x00, // header
    0x01, 0x00, 0x00, 0x00, 0x01, 0x00, 0x00, 0x00, // resolutions
    0x01, 0x00, 0x00, 0x00, 0x01, 0x00, 0x00, 0x00, //
    0x07, // strip
    0x0e, 0x00, // directory
    0x00, 0x01, 0x04, 0x00, 0x01, 0x00, 0x00, 0x00, 0x01, 0x00, 0x00, 0x00, //
    0x01, 0x01, 0x04, 0x00, 0x01, 0x00, 0x00, 0x00, 0x01, 0x00, 0x00, 0x00, //
    0x02, 0x01, 0x03, 0x00, 0x01, 0x00, 0x00, 0x00, 0x08, 0x00, 0x00, 0x00, //
    0x03, 0x01, 0x03, 0x00, 0x01, 0x00, 0x00, 0x00, 0x01, 0x00, 0x00, 0x00, //
    0x06, 0x01, 0x03, 0x00, 0x01, 0x00, 0x00, 0x00, 0x01, 0x00, 0x00, 0x00, //
    0x11, 0x01, 0x04, 0x00, 0x01, 0x00, 0x00, 0x00, 0x18, 0x00, 0x00, 0x00, //
    0x15, 0x01, 0x03, 0x00, 0x01, 0x00, 0x00, 0x00, 0x01, 0x00, 0x00, 0x00, //
    0x16, 0x01, 0x04, 0x00, 0x01, 0x00, 0x00, 0x00, 0x40, 0x42, 0x0f, 0x00, //
    0x17, 0x01, 0x04, 0x00, 0x01, 0x00, 0x00, 0x00, 0x01, 0x00, 0x00, 0x00, //
    0x1a, 0x01, 0x05, 0x00, 0x01, 0x00, 0x00, 0x00, 0x08, 0x00, 0x00, 0x00, //
    0x1b, 0x01, 0x05, 0x00, 0x01, 0x00, 0x00, 0x00, 0x10, 0x00, 0x00, 0x00, //
    0x28, 0x01, 0x03, 0x00, 0x01, 0x00, 0x00, 0x00, 0x01, 0x00, 0x00, 0x00, //
    0x3d, 0x01, 0x03, 0x00, 0x01, 0x00, 0x00, 0x00, 0x01, 0x00, 0x00, 0x00, //
    0x53, 0x01, 0x03, 0x00, 0x01, 0x00, 0x00, 0x00, 0x01, 0x00, 0x00, 0x00, //
    0x00, 0x00, 0x00, 0x00, // link
];

// Files that are others with one byte changed: the name, the other, the place of the byte, and its
// value. LONG is ONE with six zeros behind it.
const CHANGED: [(&str, &str, usize, u8); 5] = [
    ("EMPTY", "ONE", 151, 0), // the count of YResolution
    ("PAST", "ONE", 155, 255), // where its value is
    ("LINKED", "LONG", 195, 199), // the link, to a directory without entries
    ("CYCLE", "LINKED", 201, 25), // its link, to the first directory
    (HOLED, "ONE", 198, 4), // the link, to 67108864
];

// What standard input has, and command lines. `cmp` compares two files. BYTE has the byte 7, IN
// three bytes.
const COMMANDS: [(&str, &str); 3] = [
    (
        "",
        "\
tiffpage
tiffpage gray OUT 1 1 BYTE
cmp OUT ONE
tiffpage raw OUT 0 BACK
cmp BACK BYTE
tiffpage gray OUT 0 5 IN
tiffpage gray OUT 2 2 IN
tiffpage tags ONE 0
tiffpage tags EMPTY 0
tiffpage tags PAST 0
tiffpage list ONE
tiffpage list LINKED
tiffpage list CYCLE
tiffpage directories HOLED
tiffpage check HOLED
tiffpage check ONE
tiffpage check LOCKED
tiffpage tags ONE
tiffpage gray FULL 0 -5 NONE
tiffpage gray FULL 0 5 NONE
tiffpage gray FULL 0 5 IN
tiffpage gray FULL 1 1 IN
tiffpage raw NONE 0x1 FULL
tiffpage raw LOCKED 1 FULL
tiffpage raw ONE 1 FULL
tiffpage raw ONE 0 FULL",
    ),
    (
        "\
image Gray8 1 1
write_data 7
image Gray8 1 1
write_data 8",
        "\
tiffpage jobs OUT
tiffpage list OUT",
    ),
    (
        "\
image Gray8 20 20
tiles 16 16
write_data 0*400",
        "\
tiffpage jobs OUT
tiffpage list OUT",
    ),
];

// Command lines whose output or error doesn't fit into five bytes.
const LONG_OUTPUTS: [&str; 5] = [
    "tiffpage",
    "tiffpage --version",
    "tiffpage tags ONE 0",
    "tiffpage tags ONE",
    "tiffpage tags NONE 0",
];

// The words of a command line behind the name of the program.
fn words_of(alloc: Global, line: &str) -> TiffResult<Vec<String>> {
    let mut words = Vec::new(alloc);
    if let Some(rest) = line.strip_prefix("tiffpage ") {
        for word in rest.split(' ') {
            words.push(String::from_str(alloc, word)?)?;
        }
    }
    Ok(words)
}

// Whether two files, with a space between their names, have the same bytes.
fn are_same(files: &mut MemoryFiles, names: &str) -> TiffResult<bool> {
    let Some((first, second)) = names.split_once(' ') else {
        return Ok(false);
    };
    let first = files.read(first)?;
    let second = files.read(second)?;
    Ok(first.as_slice() == second.as_slice())
}

// The texts of standard output and of standard error, which is marked by `2> `.
fn printed(alloc: Global, out: Vec<u8>, err: Vec<u8>) -> TiffResult<String> {
    let out = String::from_utf8(out)?;
    let err = String::from_utf8(err)?;
    let mark = if err.is_empty() { "" } else { "2> " };
    Ok(format!(in alloc; "{out}{mark}{err}")?)
}

// What the words of a command line print, and their status.
fn ran(alloc: Global, words: &[String], files: &mut MemoryFiles) -> TiffResult<(String, u8)> {
    let mut out = Vec::new(alloc);
    let mut err = Vec::new(alloc);
    let status = run::<_, _, _, Brand>(alloc, words, files, &mut out, &mut err);
    Ok((printed(alloc, out, err)?, status))
}

// Adds what a command line prints, and its status.
fn add_command(report: &mut Report, files: &mut MemoryFiles, line: &str) -> TiffResult<()> {
    let alloc = report.alloc();
    if let Some(names) = line.strip_prefix("cmp ") {
        let status = u8::from(!are_same(files, names)?);
        report.command(line, "", status);
        return Ok(());
    }
    let words = words_of(alloc, line)?;
    let (text, status) = ran(alloc, words.as_slice(), files)?;
    report.command(line, &text, status);
    Ok(())
}

// Adds ONE with six zeros behind it.
fn add_long(files: &mut MemoryFiles) -> TiffResult<()> {
    let mut long = files.read("ONE")?;
    long.extend_from_slice(&[0; 6])?;
    files.write("LONG", long.as_slice())
}

// Adds the files that are others with one byte changed.
fn add_changed(files: &mut MemoryFiles) -> TiffResult<()> {
    for (name, other, place, byte) in CHANGED {
        let mut bytes = files.read(other)?;
        if let Some(changed) = bytes.get_mut(place) {
            *changed = byte;
        }
        files.write(name, bytes.as_slice())?;
    }
    Ok(())
}

// Adds the files that the command lines begin with.
fn add_given(files: &mut MemoryFiles, stdin: &str) -> TiffResult<()> {
    files.write("-", stdin.as_bytes())?;
    files.write("IN", &[1, 2, 3])?;
    files.write("BYTE", &[7])?;
    files.write("ONE", ONE.as_slice())?;
    add_long(files)?;
    add_changed(files)
}

// The files that the command lines begin with.
fn given(alloc: Global, stdin: &str) -> TiffResult<MemoryFiles> {
    let mut files = MemoryFiles {
        alloc,
        files: Vec::new(alloc),
    };
    add_given(&mut files, stdin)?;
    Ok(files)
}

// Adds command lines with streams that take five bytes each.
fn add_full_streams(report: &mut Report) -> TiffResult<()> {
    let alloc = report.alloc();
    let mut files = given(alloc, "")?;
    for line in LONG_OUTPUTS {
        let words = words_of(alloc, line)?;
        let (mut out_room, mut err_room) = ([0u8; 5], [0u8; 5]);
        let (mut out, mut err) = (out_room.as_mut_slice(), err_room.as_mut_slice());
        let status = run::<_, _, _, Brand>(alloc, words.as_slice(), &mut files, &mut out, &mut err);
        report.line(line, status);
    }
    Ok(())
}

/// Adds the command lines, with what each prints, and its status.
pub fn add_lines(report: &mut Report) -> TiffResult<()> {
    for (stdin, lines) in COMMANDS {
        let mut files = given(report.alloc(), stdin)?;
        for line in lines.split('\n') {
            add_command(report, &mut files, line)?;
        }
    }
    add_full_streams(report)
}
