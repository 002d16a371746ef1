//! Laws of the definitions. Each is the contract of a function with an empty body.

ghost use Rattle.tiff_base.specs.Blocks.{IsUnpacked, IsOneUnpacked};
ghost use Rattle.tiff_base.specs.Directory.{LastOfEachStand};
ghost use Rattle.tiff_base.specs.Named.{NumbersComeBack, NamesComeBack};
ghost use Rattle.tiff_base.specs.ByteOrders.{TurnsBack};

/// A conversion from one byte order to another and back leaves the bytes unchanged. Bytes after the
/// last whole number stay unchanged too.
pub fn turns_back()
    ensures { TurnsBack }
{}

/// A list of bytes unpacks, block by block, to what `runs` says.
pub fn unpacked()
    ensures { IsUnpacked }
{}

/// A list of bytes unpacks, block by block, to nothing else than what `runs` says.
pub fn one_unpacked()
    ensures { IsOneUnpacked }
{}

/// A number is the number of the tag, the method or the sample format that it names.
pub fn numbers_come_back()
    ensures { NumbersComeBack }
{}

/// A value that has a name is the value that its number names.
pub fn names_come_back()
    ensures { NamesComeBack }
{}

/// A directory that starts empty, and whose fields are set in turn, contains the last field of each
/// tag number.
pub fn last_of_each_stand()
    ensures { LastOfEachStand }
{}
