//! The laws that the writes of the calls of an image are valid for a file that contains a model.
//! Each law is the contract of a function that does nothing.

ghost use Rattle.tiff_encode.specs.CallLaws.{NewImageFits, SettingsFit, ResolutionsFit, ChunksFit, FinishImageFits};

/// States that the writes of `new_image` are valid for a file that contains a model.
pub fn new_image_fits()
    ensures { NewImageFits }
{}

/// States that the writes of the calls that set the division into chunks and the extra samples are
/// valid for a file that contains a model.
pub fn settings_fit()
    ensures { SettingsFit }
{}

/// States that the writes of the calls that set the resolution are valid for a file that contains a
/// model.
pub fn resolutions_fit()
    ensures { ResolutionsFit }
{}

/// States that the writes of the calls that write a chunk are valid for a file that contains a
/// model.
pub fn chunks_fit()
    ensures { ChunksFit }
{}

/// States that the writes of the calls that end an image are valid for a file that contains a
/// model.
pub fn finish_image_fits()
    ensures { FinishImageFits }
{}
