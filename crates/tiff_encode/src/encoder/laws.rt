//! The laws by which a file keeps what it contains and contains more after each write. Each law is
//! the contract of a function that does nothing.

pub mod data;
pub mod fit;
pub mod image;
pub mod reading;

ghost use Rattle.tiff_encode.specs.Appending.{FormerBytesStay};
ghost use Rattle.tiff_encode.specs.AppendLaws.{DirectoryCallsAppend, ImageCallsAppend, EndsLinkParent};
ghost use Rattle.tiff_encode.specs.FormerPages.{FormerPagesStay, FormerSamplesStay};
ghost use Rattle.tiff_encode.specs.JobsBehind.{JobsGoOn};
ghost use Rattle.tiff_encode.specs.Held.{ChunksShow, ImagesShow, PageTold};
ghost use Rattle.tiff_value.specs.FileLaws.{HeaderStands, KeptByAppending, KeptByPatching, KeptByTearing, GrownByRegion, GrownByInline, GrownByPlaced, GrownByListing, FinishStep, OpsStand, OpsGrow, OpsBegun, OpsTorn, OpsJoin, OpsAppend, FirstTold, ModelsAgree};
ghost use Rattle.tiff_encode.specs.LongerChain.{ChainGoesOn, LastLinkEnds, PagesGoOn};
ghost use Rattle.tiff_encode.specs.RunLaws.{OffsetsAgree, OneStep, OneStored};
ghost use Rattle.tiff_encode.specs.CallLaws.{PlacedFits, FinishFits};

/// States that a file with only a header contains the model of a header.
pub fn header_stands()
    ensures { HeaderStands }
{}

/// States that a file that contains a model still contains it after bytes are appended.
pub fn kept_by_appending()
    ensures { KeptByAppending }
{}

/// States that a file that contains a model contains it with one changed link after that link is
/// overwritten.
pub fn kept_by_patching()
    ensures { KeptByPatching }
{}

/// States that a file that contains a model contains it with one link changed to some number after
/// a write of that link fails partway.
pub fn kept_by_tearing()
    ensures { KeptByTearing }
{}

/// States that a file with appended bytes contains these bytes as a region.
pub fn grown_by_region()
    ensures { GrownByRegion }
{}

/// States that a file contains a field whose bytes fit into its entry, with these bytes.
pub fn grown_by_inline()
    ensures { GrownByInline }
{}

/// States that a file contains a field whose bytes are a region, with these bytes.
pub fn grown_by_placed()
    ensures { GrownByPlaced }
{}

/// States that a file with an appended directory contains it, with link 0, and with its fields as
/// the entries store them.
pub fn grown_by_listing()
    ensures { GrownByListing }
{}

/// States that a file contains a directory that is appended and to which a link points.
pub fn finished()
    ensures { FinishStep }
{}

/// States that valid writes to a file that contains a model result in a file that contains the
/// model after these writes.
pub fn ops_stand()
    ensures { OpsStand }
{}

/// States that the model after some writes has everything that the model before them has.
pub fn ops_grow()
    ensures { OpsGrow }
{}

/// States that a file that contains a model still contains it after the sink fails while a call
/// appends.
pub fn ops_begun()
    ensures { OpsBegun }
{}

/// States that a file contains everything except one link after the sink fails while the last write
/// of a call, that link, is written.
pub fn ops_torn()
    ensures { OpsTorn }
{}

/// States that some writes and then more writes have the same effect as all of them one after
/// another.
pub fn ops_join()
    ensures { OpsJoin }
{}

/// States that writes that change no link append bytes and do nothing else.
pub fn ops_append()
    ensures { OpsAppend }
{}

/// States that the writes of a value for a field are valid for a file that contains a model.
pub fn placed_fits()
    ensures { PlacedFits }
{}

/// States that the writes that end a directory are valid for a file that contains a model.
pub fn finish_fits()
    ensures { FinishFits }
{}

/// States that the header of a file that contains a model links to the first directory of the
/// model.
pub fn first_told()
    ensures { FirstTold }
{}

/// States that two models that one file contains agree on the directories that are finished in
/// both.
pub fn models_agree()
    ensures { ModelsAgree }
{}

/// States that a directory with the values that describe an image is the page of that image.
pub fn page_told()
    ensures { PageTold }
{}

/// States that a call that doesn't fail has one result, and leaves one file and one model.
pub fn one_step()
    ensures { OneStep }
{}

/// States that a chunk that isn't compressed is stored in one way.
pub fn one_stored()
    ensures { OneStored }
{}

/// States that `DirectoryOffset::new` of a finished directory returns the offsets that the end of
/// the directory returned.
pub fn offsets_agree()
    ensures { OffsetsAgree }
{}

/// States that the chunks in a file show the samples that they store.
pub fn chunks_show()
    ensures { ChunksShow }
{}

/// States that a file that contains a model with an image shows that image.
pub fn images_show()
    ensures { ImagesShow }
{}

/// States that the calls that begin a directory, and the calls of an open directory except its end,
/// only append.
pub fn directory_calls_append()
    ensures { DirectoryCallsAppend }
{}

/// States that the calls that begin an image, and the calls of an open image except its end, only
/// append.
pub fn image_calls_append()
    ensures { ImageCallsAppend }
{}

/// States that an end appends, and changes no link except its parent's.
pub fn ends_link_parent()
    ensures { EndsLinkParent }
{}

/// States that the chain of a file goes on behind the file where its last link points there.
pub fn chain_goes_on()
    ensures { ChainGoesOn }
{}

/// States that the bytes of a file that an encoder goes on behind stay, except those of its last
/// link.
pub fn former_bytes_stay()
    ensures { FormerBytesStay }
{}

/// States that the directories and pages of a file that an encoder goes on behind are read as
/// before.
pub fn former_pages_stay()
    ensures { FormerPagesStay }
{}

/// States that the chain of a file that an encoder goes on behind is the former chain and then the
/// directories that are linked behind it.
pub fn pages_go_on()
    ensures { PagesGoOn }
{}

/// States that the last link of a file is that of its header or of its last directory, where an
/// encoder can go on.
pub fn last_link_ends()
    ensures { LastLinkEnds }
{}

/// States that the samples of a file that an encoder goes on behind are shown as before.
pub fn former_samples_stay()
    ensures { FormerSamplesStay }
{}

/// States that jobs that are run behind a file leave its bytes, except those of its last link, and
/// all that they wrote.
pub fn jobs_go_on()
    ensures { JobsGoOn }
{}
