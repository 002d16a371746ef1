//! The laws of a decoder's calls. Each law is the contract of a function with an empty body.

ghost use Rattle.tiff_laws.specs.OneAnswer.{IsEachAlong, IsSingleAnswer};
ghost use Rattle.tiff_decode.specs.Result.{BytesAgain};
ghost use Rattle.tiff_laws.specs.Samples.{BufferByBytes, BufferOfChunks, ChunkByBytes, ImageByBytes, SamplesOfChunks};
ghost use Rattle.tiff_laws.specs.Units.{UnitIsItsChunks, UnitRefusedWhereChunks, UnitWhereChunks};
ghost use Rattle.tiff_laws.specs.Whole.{ImageIsItsChunks, PlaneOfChunks, PlanesCovered, ReadWhereChunks, RefusedWhereChunks};

use tiff_page::laws;

/// A call leaves the file unchanged, counts its failed reads, and moves the decoder to its next
/// state. If memory is out or the device fails, the decoder keeps its state.
pub fn each_along()
    ensures { IsEachAlong }
{}

/// A call has one result, except when memory is out or the device fails.
pub fn one_answer()
    ensures { IsSingleAnswer }
{}

/// Some bytes, read as numbers, are the bytes of these numbers, except for the zeros that fill up
/// the last number.
pub fn bytes_again()
    ensures { BytesAgain }
{}

/// The image that is read whole contains each chunk as it is read alone.
pub fn plane_of_chunks()
    ensures { PlaneOfChunks }
{
    laws::chunks_within();
    laws::placed_each();
    laws::whole_rows();
    laws::image_of_chunks();
}

/// Each byte of an image's planes belongs to a chunk.
pub fn planes_covered()
    ensures { PlanesCovered }
{
    laws::one_chunk();
}

/// An image is read exactly if its chunks are.
pub fn read_where_chunks()
    ensures { ReadWhereChunks }
{
    laws::chunks_within();
    laws::no_fault();
}

/// Reading a whole image gives exactly the bytes that its chunks make, read one by one and placed.
pub fn image_is_its_chunks()
    ensures { ImageIsItsChunks }
{
    laws::placed_each();
    plane_of_chunks();
    planes_covered();
    read_where_chunks();
}

/// An image is refused with the error of the first chunk that is refused.
pub fn refused_where_chunks()
    ensures { RefusedWhereChunks }
{
    laws::chunks_within();
    laws::no_fault();
    laws::first_fault();
}

/// The samples of an image are the numbers of the bytes that are read into zeros for one plane.
pub fn image_by_bytes()
    ensures { ImageByBytes }
{
    laws::some_bytes();
}

/// The samples of all planes, or of the first plane if not all are within the limit, are the
/// numbers of the bytes that are read into zeros for these planes.
pub fn buffer_by_bytes()
    ensures { BufferByBytes }
{
    laws::some_bytes();
}

/// The samples of a chunk are the numbers of the bytes that are read into zeros for it.
pub fn chunk_by_bytes()
    ensures { ChunkByBytes }
{}

/// The samples of an image are the numbers of the bytes that the chunks of its first plane make,
/// read one by one and placed. The image is refused with the error of the first of these chunks
/// that is refused.
pub fn samples_of_chunks()
    ensures { SamplesOfChunks }
{
    laws::some_bytes();
    image_is_its_chunks();
    refused_where_chunks();
    image_by_bytes();
}

/// The samples of all planes, or of the first plane if not all are within the limit, are the
/// numbers of the bytes that the chunks of these planes make. The planes are refused with the error
/// of the first of these chunks that is refused.
pub fn buffer_of_chunks()
    ensures { BufferOfChunks }
{
    laws::some_bytes();
    image_is_its_chunks();
    refused_where_chunks();
    buffer_by_bytes();
}

/// A coding unit is read exactly if the chunk of each plane is.
pub fn unit_where_chunks()
    ensures { UnitWhereChunks }
{
    laws::no_fault();
}

/// Reading a coding unit gives exactly the bytes that the chunk of each plane makes, read alone and
/// placed after the chunks of the planes before.
pub fn unit_is_its_chunks()
    ensures { UnitIsItsChunks }
{
    laws::chunks_within();
    laws::placed_each();
    laws::unit_of_chunks();
    unit_where_chunks();
}

/// A coding unit is refused with the error of the first of its chunks that is refused.
pub fn unit_refused_where_chunks()
    ensures { UnitRefusedWhereChunks }
{
    laws::no_fault();
    laws::first_fault();
}
