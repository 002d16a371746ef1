//! Why commands fail, and the status behind that.

ghost use Rattle.std.specs.Prelude.{◌≡◌};
ghost use Rattle.tiffpage_lib.specs.Status.{status_of};

use std::fmt;
use tiff::TiffError;

/// Why a command failed.
#[derive(Drop)]
pub(crate) enum Failure<'a> {
    Read(&'a str),
    Write(&'a str),

    /// The output is the file of the input.
    WriteInput(&'a str),
    Tiff(TiffError),

    /// The line with this number is no call.
    NoCall(usize),

    /// The line with this number is no job.
    NoJob(usize),

    /// The line with this number is not UTF-8.
    NoText(usize),

    /// A list of jobs has no image and no directory.
    NoPage,
}

impl fmt::Display for Failure<'_> {
    fn fmt<W: fmt::Write>(&self, f: &mut fmt::Formatter<W>) -> fmt::Result {
        match self {
            Failure::Read(name) => write!(f, "cannot read {name}"),
            Failure::Write(name) => write!(f, "cannot write {name}"),
            Failure::WriteInput(name) => write!(f, "cannot write {name}: it is the input"),
            Failure::Tiff(fault) => write!(f, "{fault}"),
            Failure::NoCall(number) => write!(f, "line {number} is no call"),
            Failure::NoJob(number) => write!(f, "line {number} is no job"),
            Failure::NoText(number) => write!(f, "line {number} is not UTF-8"),
            Failure::NoPage => write!(f, "the list has no image and no directory"),
        }
    }
}

impl<'a> From<TiffError> for Failure<'a> {
    ghost use Rattle.tiffpage_lib.specs.declared.failure.Failure.TheVariants as failure;

    ghost from_gives = { λ fault f. f ≡ failure.Tiff fault };

    fn from(fault: TiffError) -> Failure<'a> {
        Failure::Tiff(fault)
    }
}

impl Failure<'_> {
    /// The status with which the program ends after a failure.
    pub(crate) fn status(&self) -> u8
        ensures { result ≡ status_of self.now }
    {
        match self {
            Failure::NoCall(_) | Failure::NoJob(_) | Failure::NoText(_) | Failure::NoPage => 2,
            _ => 1,
        }
    }
}
