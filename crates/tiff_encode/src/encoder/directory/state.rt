//! The state of an open directory.

ghost use Rattle.std.specs.Prelude.{◌≡◌, IfOk, MatchResult, Some, true};
ghost use Rattle.std.specs.FinMap as map;
ghost use Rattle.tiff_base.specs.declared.error.TiffError.TheVariants.{OutOfMemory};
ghost use Rattle.tiff_encode.specs.Calls.{with_field, without_field};
ghost use Rattle.tiff_encode.specs.Extending.{Extends};
ghost use Rattle.tiff_encode.specs.Machine.{OpenDirectory};
ghost use Rattle.tiff_encode.specs.Rooms.{IsRoomFor, IsSettled, is_made, with_room};

use std::alloc::Global;
use std::marker::Model;
use tiff_base::directory::{Directory, Entry};
use tiff_base::error::{TiffError, TiffResult};
use tiff_base::tags::{Tag, Type};

/// An open directory: its fields, the offset of the link that points to it when it ends, and
/// whether it is in the IFD chain, so that its own link becomes the last link of the chain.
#[derive(Drop)]
pub struct DirectoryState {
    pub(crate) directory: Directory,
    pub(crate) parent: Option<u64>,
    pub(crate) chained: bool,
}

impl Model for DirectoryState {
    ghost use Rattle.tiff_encode.specs.Machine.{OpenDirectory};
    ghost use Rattle.std.specs.Coded.{codes};
    ghost use Rattle.std.specs.FinMap as map;

    ghost Value = { OpenDirectory };

    ghost coded = { Prim.hlevel (codes, map.code) };

    ghost view = { λ d. record { fields = d.directory.entries; parent = d.parent; chained = d.chained } };
}

/// The room for the field of a tag.
#[derive(Clone, Copy, Drop)]
pub enum Room {
    /// The directory has a field of the tag, which the new one replaces.
    Taken,
    /// A field without a value holds the place.
    Held,
    /// There is no memory for a field.
    Missing,
}

impl Room {
    /// Returns whether there is room.
    pub(crate) fn is_made(self) -> bool
        ensures { result ≡ is_made self }
    {
        !matches!(self, Room::Missing)
    }
}

/// What is open in the file of an encoder: a directory, alone or with the state of an image (this
/// project's).
pub trait HasDirectory {
    ghost use Rattle.std.specs.Prelude.{◌≡◌};
    ghost use Rattle.tiff_encode.specs.Machine.{OpenDirectory};

    // The open directory.
    ghost open_directory: { Self → OpenDirectory };

    // The same state with another directory.
    ghost with_directory: { Self → OpenDirectory → Self };

    /// Makes room for the field of a tag, before a byte of its value is written: if the directory
    /// has no field of the tag, a field without a value is set. `settle` ends this.
    fn make_room(&mut self, tag: Tag) -> Room
        ensures state { self.new ≡ with_directory self.old (with_room (open_directory self.old) tag result) }
        ensures room { IsRoomFor tag (open_directory self.old) result };

    /// Sets the field of a tag to an entry that was written, in the room that `make_room` made for
    /// it. If it was refused instead, returns that error, and the state is as it was before
    /// `make_room`.
    fn settle(&mut self, tag: Tag, room: Room, placed: TiffResult<Entry>) -> TiffResult<()>
        ensures { (s : Self) → self.old ≡ with_directory s (with_room (open_directory s) tag room)
            → IsRoomFor tag (open_directory s) room
            → IfOk placed (λ _. is_made room ≡ true)
            → IsSettled (λ entry. with_directory s (with_field (open_directory s) tag entry)) s
            placed result self.new };

    /// Sets each field of a directory in turn. Each field replaces an earlier field of its tag. The
    /// only error is `OutOfMemory`; then the fields before the one that failed are set.
    fn extend_from(&mut self, directory: &Directory) -> TiffResult<()>
        ensures set { Extends (map.entries directory.now.entries) (open_directory self.old)
            (open_directory self.new) result }
        ensures rest { self.new ≡ with_directory self.old (open_directory self.new) };

    // A state with a given directory has that directory.
    ghost given_directory: { (s : Self) (d : OpenDirectory)
        → open_directory (with_directory s d) ≡ d };

    // A state with its own directory doesn't change.
    ghost with_its_own: { (s : Self) → with_directory s (open_directory s) ≡ s };
}

impl HasDirectory for DirectoryState {
    ghost use Rattle.std.specs.Prelude.{refl};

    ghost open_directory = { λ d. d };

    ghost with_directory = { λ s d. d };

    fn make_room(&mut self, tag: Tag) -> Room {
        if self.directory.contains(tag) {
            return Room::Taken;
        }
        // A blank field, and no reserved memory: a directory is a map to clauses, which see none.
        let blank = Entry::new_u64(Type::BYTE, 0, [0; 8]);
        match self.directory.insert(tag.to_u16(), blank) {
            Ok(()) => Room::Held,
            Err(_) => Room::Missing,
        }
    }

    fn settle(&mut self, tag: Tag, room: Room, placed: TiffResult<Entry>) -> TiffResult<()> {
        let entry = match placed {
            Ok(entry) => entry,
            Err(fault) => {
                self.give_up(tag, room);
                return Err(fault);
            }
        };
        match self.directory.insert(tag.to_u16(), entry) {
            Ok(()) => return Ok(()),
            Err(_) => return Err(TiffError::OutOfMemory),
        }
    }

    fn extend_from(&mut self, directory: &Directory) -> TiffResult<()> {
        for (tag, entry) in directory.iter() {
            let copy = Entry::new_u64(entry.field_type(), entry.count(), entry.value());
            match self.directory.insert(tag.to_u16(), copy) {
                Ok(()) => {}
                Err(_) => return Err(TiffError::OutOfMemory),
            }
        }
        Ok(())
    }

    ghost given_directory = { λ s d. refl };

    ghost with_its_own = { λ s. refl };
}

impl DirectoryState {
    /// Sets the offset of the link that points to the directory when it ends.
    pub(crate) fn set_parent(&mut self, link: u64)
        ensures { self.new ≡ record self.old { parent = Some link } }
    {
        self.parent = Some(link);
    }

    /// Removes the field of a tag.
    pub(crate) fn remove(&mut self, tag: Tag)
        ensures { self.new ≡ without_field self.old tag }
    {
        let _taken = self.directory.remove(tag);
    }

    // Gives up the room for the field of a tag.
    fn give_up(&mut self, tag: Tag, room: Room)
        ensures { (d : OpenDirectory) → self.old ≡ with_room d tag room → IsRoomFor tag d room
            → self.new ≡ d }
    {
        match room {
            Room::Held => self.remove(tag),
            Room::Taken | Room::Missing => {}
        }
    }

    /// Returns a copy of the directory. The only error is `OutOfMemory`.
    pub(crate) fn copy(&self, alloc: Global) -> TiffResult<DirectoryState>
        ensures { MatchResult result (λ d. d ≡ self.now) (λ e. e ≡ OutOfMemory) }
    {
        let mut copy = DirectoryState {
            directory: Directory::empty(alloc),
            parent: self.parent,
            chained: self.chained,
        };
        copy.extend_from(&self.directory)?;
        Ok(copy)
    }
}
