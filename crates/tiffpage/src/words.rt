//! The words of the command line.

use std::env::{Env, FillError};
use std::io;

// The size of the buffer into which a word is read first, and how often that size is doubled at
// most.
const FIRST_SIZE: usize = 4096;

const DOUBLINGS: u32 = 40;

// The bytes of the word at a place, if there is one. The word is at most as long as the last
// buffer, which is far longer than a machine accepts.
fn word_bytes<R: Env + AllocGlobal>(rt: &R, place: usize) -> io::Result<Option<Vec<u8>>> {
    for doubled in 0..DOUBLINGS {
        let mut word = vec![in rt.alloc(); 0; FIRST_SIZE << doubled]?;
        match rt.arg(place, word.as_mut_slice()) {
            Ok(len) => {
                word.truncate(len);
                return Ok(Some(word));
            }
            Err(FillError::NotPresent) => return Ok(None),
            Err(FillError::TooLong) => {}
        }
    }
    Err(io::Error::from(io::ErrorKind::InvalidInput))
}

/// The words behind the program's name; or the place of the first one that isn't UTF-8, where 1 is
/// the first of all.
pub fn words<R: Env + AllocGlobal>(rt: &R) -> io::Result<Result<Vec<String>, usize>> {
    let mut words = Vec::new(rt.alloc());
    // Word by word: the kit's `env::args` refuses all words if one is none.
    for place in 1..usize::MAX {
        let Some(bytes) = word_bytes(rt, place)? else {
            break;
        };
        match String::from_utf8(bytes) {
            Ok(word) => words.push(word)?,
            Err(_) => return Ok(Err(place)),
        }
    }
    Ok(Ok(words))
}
