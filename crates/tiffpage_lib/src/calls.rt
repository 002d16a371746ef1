//! Calls of a decoder, and the replies to them.

ghost use Rattle.std.specs.Prelude.{◌≡◌, ◌<◌, ◌∷◌, [], length, MatchResult, string_bytes};
ghost use Rattle.std.specs.Result.{result_map_both};
ghost use Rattle.std.specs.Vec.Iter.{into_iter_items};
ghost use Rattle.tiff_decode.specs.Steps.{Steps};
ghost use Rattle.tiffpage_lib.specs.Commands.{RepliesTo};

use std::alloc::Global;
use std::vec::IntoIter;
use tiff::decoder::Decoder;
use tiff::decoder::script::{Call, Reply, run_calls};
use tiff::io::{MemorySource, Source};
use tiff::{TiffError, TiffResult};
use tiff_script::replies::lines_of_calls;

/// Opens the file, makes the calls one after another, and returns a line for the reply to each,
/// also to one that is refused. Its errors are those of opening the file, and `OutOfMemory`.
pub fn replies_to(alloc: Global, file: Vec<u8>, calls: &[Call]) -> TiffResult<String>
    ensures { RepliesTo file.items calls.now (result_map_both string_bytes (λ e. e) result) }
{
    let mut decoder = Decoder::new(alloc, MemorySource::new(file))?;
    lines_of_calls(alloc, &mut decoder, calls)
}

/// Drops a value. A list of replies is dropped here, since a proof about that is long in a function
/// that isn't generic.
pub fn drop_value<T: Drop>(_value: T) {}

/// The next item of a list that has one.
pub(crate) fn next_of<T: Drop>(rest: &mut IntoIter<T>) -> T
    requires { 0 < length (into_iter_items rest.old) }
    ensures { into_iter_items rest.old ≡ result ∷ into_iter_items rest.new }
{
    match rest.next() {
        Some(item) => item,
        None => unreachable!(),
    }
}

/// The item of a list of one item.
pub(crate) fn single<T: Drop>(items: Vec<T>) -> T
    requires { length items.items ≡ 1 }
    ensures { items.items ≡ result ∷ [] }
{
    let mut rest = items.into_iter();
    next_of(&mut rest)
}

// The items of a list of two items.
fn both<T: Drop>(items: Vec<T>) -> (T, T)
    requires { length items.items ≡ 2 }
    ensures { items.items ≡ result.0 ∷ result.1 ∷ [] }
{
    let mut rest = items.into_iter();
    let first = next_of(&mut rest);
    (first, next_of(&mut rest))
}

/// Makes calls of a decoder one after another, and returns the reply to each. Its only error is
/// `OutOfMemory` for the replies; then it makes no call.
#[tactic(auto, using(crate::proofs::CallsMade::steps_made))]
pub fn replies_to_calls<R: Source>(
    alloc: Global,
    decoder: &mut Decoder<R>,
    calls: &[Call],
) -> TiffResult<Vec<Reply>>
    ensures { MatchResult result (λ replies. Steps decoder.old calls.now replies.items decoder.new)
        (λ e. (e ≡ TiffError.OutOfMemory) × (decoder.new ≡ decoder.old)) }
{
    let mut replies = Vec::new(alloc);
    match run_calls(decoder, calls, &mut replies) {
        Ok(()) => Ok(replies),
        Err(fault) => {
            drop_value(replies);
            Err(fault)
        }
    }
}

/// Makes one call, and returns the reply. Its only error is `OutOfMemory` for the reply.
#[tactic(auto, using(crate::proofs::CallsMade::steps_length))]
pub fn reply_to_one<R: Source>(
    alloc: Global,
    decoder: &mut Decoder<R>,
    call: Call,
) -> TiffResult<Reply>
    ensures { MatchResult result (λ reply. Steps decoder.old (call ∷ []) (reply ∷ []) decoder.new)
        (λ e. (e ≡ TiffError.OutOfMemory) × (decoder.new ≡ decoder.old)) }
{
    let calls = [call];
    let replies = replies_to_calls(alloc, decoder, &calls)?;
    Ok(single(replies))
}

/// Makes two calls, and returns both replies. Its only error is `OutOfMemory` for the replies.
#[tactic(auto, using(crate::proofs::CallsMade::steps_length))]
pub fn replies_to_both<R: Source>(
    alloc: Global,
    decoder: &mut Decoder<R>,
    first: Call,
    second: Call,
) -> TiffResult<(Reply, Reply)>
    ensures { MatchResult result
        (λ r. Steps decoder.old (first ∷ second ∷ []) (r.0 ∷ r.1 ∷ []) decoder.new)
        (λ e. (e ≡ TiffError.OutOfMemory) × (decoder.new ≡ decoder.old)) }
{
    let calls = [first, second];
    let replies = replies_to_calls(alloc, decoder, &calls)?;
    Ok(both(replies))
}
