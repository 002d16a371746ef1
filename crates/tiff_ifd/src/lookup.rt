//! Looks up the tags of a directory and converts their values.

ghost use Rattle.std.specs.Prelude.{◌≡◌, ℕ, ◌≤◌, ◌^◌, option_map};
ghost use Rattle.tiff_base.specs.Answers.{IsKept};
ghost use Rattle.tiff_ifd.specs.View.{plain_value};
ghost use Rattle.tiff_ifd.specs.Into as into;
ghost use Rattle.tiff_ifd.specs.TagLookup.{AnswersFound, AsksForTag, find, require};

use crate::value::Value;
use std::alloc::Global;
use tiff_base::error::{TiffFormatError, TiffResult};
use tiff_base::tags::Tag;

/// The tags of a directory, and their values.
pub trait Tags {
    ghost use Rattle.tiff_ifd.specs.TagLookup.{DirectoryTags};

    /// The tags that the directory has, the value of each, and the file that they are from.
    ghost contents: { Self → DirectoryTags };

    /// The number of failed reads so far.
    ghost failures: { Self → ℕ };

    /// Whether the directory has a tag.
    fn contains(&self, tag: Tag) -> bool
        ensures { result ≡ (contents self.now).look.has tag };

    /// Reads the value of a tag. Returns `None` if the directory does not have the tag. Allocates
    /// memory only for a tag that the directory has, within the limits and the source.
    fn find(&mut self, alloc: Global, tag: Tag) -> TiffResult<Option<Value>>
        ensures kept { IsKept contents failures result self.old self.new }
        ensures answer { AnswersFound (λ v. option_map plain_value v) result ((contents self.old).look.value tag)
            (contents self.old).look tag (failures self.old) (failures self.new) }
        ensures asked { AsksForTag (contents self.old) tag result };

    /// Reads the numbers of a tag, converted as by `Value::into_u64_vec`. Returns `None` if the
    /// directory does not have the tag.
    fn find_u64_vec(&mut self, alloc: Global, tag: Tag) -> TiffResult<Option<Vec<u64>>>
        ensures kept { IsKept contents failures result self.old self.new }
        ensures answer { AnswersFound (λ o. option_map (λ v. v.items) o) result
            (find into.into_u64_vec (contents self.old).look tag) (contents self.old).look tag
            (failures self.old) (failures self.new) }
        ensures asked { AsksForTag (contents self.old) tag result };
}

/// Reads the number of a tag, below 2^16. Returns `None` if the directory does not have the tag.
#[tactic(auto, unfolding(crate::specs::TagLookup::find))]
pub fn find_u16<T: Tags>(tags: &mut T, alloc: Global, tag: Tag) -> TiffResult<Option<u16>>
    ensures kept { IsKept T.contents T.failures result tags.old tags.new }
    ensures answer { AnswersFound (λ n. n) result (find into.into_u16 (T.contents tags.old).look tag)
        (T.contents tags.old).look tag (T.failures tags.old) (T.failures tags.new) }
    ensures asked { AsksForTag (T.contents tags.old) tag result }
{
    match tags.find(alloc, tag)? {
        None => Ok(None),
        Some(value) => Ok(Some(value.into_u16()?)),
    }
}

/// Reads the number of a tag, below 2^32. Returns `None` if the directory does not have the tag.
#[tactic(auto, unfolding(crate::specs::TagLookup::find))]
pub fn find_u32<T: Tags>(tags: &mut T, alloc: Global, tag: Tag) -> TiffResult<Option<u32>>
    ensures kept { IsKept T.contents T.failures result tags.old tags.new }
    ensures answer { AnswersFound (λ n. n) result (find into.into_u32 (T.contents tags.old).look tag)
        (T.contents tags.old).look tag (T.failures tags.old) (T.failures tags.new) }
    ensures asked { AsksForTag (T.contents tags.old) tag result }
{
    match tags.find(alloc, tag)? {
        None => Ok(None),
        Some(value) => Ok(Some(value.into_u32()?)),
    }
}

/// Reads the numbers of a tag, below 2^16. Returns `None` if the directory does not have the tag.
#[tactic(auto, unfolding(crate::specs::TagLookup::find))]
pub fn find_u16_vec<T: Tags>(tags: &mut T, alloc: Global, tag: Tag) -> TiffResult<Option<Vec<u16>>>
    ensures kept { IsKept T.contents T.failures result tags.old tags.new }
    ensures answer { AnswersFound (λ o. option_map (λ v. v.items) o) result
        (find into.into_u16_vec (T.contents tags.old).look tag) (T.contents tags.old).look tag
        (T.failures tags.old) (T.failures tags.new) }
    ensures asked { AsksForTag (T.contents tags.old) tag result }
{
    match tags.find(alloc, tag)? {
        None => Ok(None),
        Some(value) => Ok(Some(value.into_u16_vec(alloc)?)),
    }
}

/// Reads the number of a required tag, below 2^32. Returns `RequiredTagNotFound` if the directory
/// does not have the tag.
#[tactic(auto, unfolding(crate::specs::TagLookup::require))]
pub fn require_u32<T: Tags>(tags: &mut T, alloc: Global, tag: Tag) -> TiffResult<u32>
    ensures kept { IsKept T.contents T.failures result tags.old tags.new }
    ensures answer { AnswersFound (λ n. n) result (require into.into_u32 (T.contents tags.old).look tag)
        (T.contents tags.old).look tag (T.failures tags.old) (T.failures tags.new) }
    ensures asked { AsksForTag (T.contents tags.old) tag result }
{
    match find_u32(tags, alloc, tag)? {
        None => Err(TiffFormatError::RequiredTagNotFound(tag).into()),
        Some(n) => Ok(n),
    }
}

/// Reads the numbers of a required tag. Returns `RequiredTagNotFound` if the directory does not
/// have the tag.
#[tactic(auto, unfolding(crate::specs::TagLookup::require))]
pub fn require_u64_vec<T: Tags>(tags: &mut T, alloc: Global, tag: Tag) -> TiffResult<Vec<u64>>
    ensures kept { IsKept T.contents T.failures result tags.old tags.new }
    ensures answer { AnswersFound (λ v. v.items) result (require into.into_u64_vec (T.contents tags.old).look tag)
        (T.contents tags.old).look tag (T.failures tags.old) (T.failures tags.new) }
    ensures asked { AsksForTag (T.contents tags.old) tag result }
{
    match tags.find_u64_vec(alloc, tag)? {
        None => Err(TiffFormatError::RequiredTagNotFound(tag).into()),
        Some(numbers) => Ok(numbers),
    }
}
