use std::alloc::{AllocError, Global};
use std::env::{Env, FillError};

/// The words of the command line, the program's name first. What is not UTF-8 in a word is replaced, so that such a
/// word is no option and no number.
pub fn words<E: Env>(heap: Global, env: &E) -> Result<Vec<String>, AllocError> {
    let mut words = Vec::new(heap);
    for place in 0..usize::MAX {
        let Some(bytes) = word(heap, env, place)? else {
            break;
        };
        words.push(String::from_utf8_lossy(heap, bytes.as_slice())?)?;
    }
    Ok(words)
}

// The word at a place, or `None` behind the last. The room for it is doubled until it fits.
fn word<E: Env>(heap: Global, env: &E, place: usize) -> Result<Option<Vec<u8>>, AllocError> {
    let mut room = 256usize;
    for _ in 0..usize::BITS {
        let mut bytes = vec![in heap; 0u8; room]?;
        match env.arg(place, bytes.as_mut_slice()) {
            Ok(length) => {
                bytes.truncate(length);
                return Ok(Some(bytes));
            }
            Err(FillError::NotPresent) => return Ok(None),
            Err(FillError::TooLong) => room = room.saturating_mul(2),
        }
    }
    Err(AllocError)
}
