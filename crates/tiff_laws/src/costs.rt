//! Laws of how many bytes a decoder asks its source for. Each law is the contract of a function
//! with an empty body.

ghost use Rattle.tiff_laws.specs.Costs.{ChunkCosts, ImageCosts, StripsCost, WayCosts};

/// A decoder that seeks a directory of the chain asks for at most 16 bytes of each directory on the
/// way, whatever the bytes of the file.
pub fn way_costs()
    ensures { WayCosts }
{}

/// A decoder that reads an image asks, in each plane that it reads, for at most as many stored rows
/// of each chunk side by side as the image has rows; of PackBits data, for at most the counted
/// bytes of each chunk.
pub fn image_costs()
    ensures { ImageCosts }
{}

/// A decoder that reads a chunk asks, in each plane that it reads, for at most as many stored rows
/// as a chunk has; of PackBits data, for at most its counted bytes.
pub fn chunk_costs()
    ensures { ChunkCosts }
{}

/// For an image of strips without compression whose samples are all shown, this is the number of
/// bytes that the decoder returns.
pub fn strips_cost()
    ensures { StripsCost }
{}
