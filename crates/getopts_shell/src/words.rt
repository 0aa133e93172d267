//! The system's words, without the program's own name.

ghost use Rattle.std.specs.Prelude.{◌≡◌, ◌≤◌, vec_len, IfOk, IfSome};
ghost use Rattle.std.specs.String.{string_bytes};
ghost use Rattle.getopts_bytes.specs.Marks.{text_of};

use getopts_bytes::push_text;
use std::alloc::{AllocError, Global};
use std::env::{Env, FillError};

/// The initial size of the buffer for a word, in bytes.
const BYTES: usize = 256;

/// The texts of the words that the system gave, after the program's own name.
pub(crate) fn system_words(rt: &HostRuntime) -> Result<Vec<String>, AllocError> {
    let mut words = Vec::new(rt.alloc());
    let mut buffer = Vec::new(rt.alloc());
    buffer.resize(BYTES, 0)?;
    for place in 1..usize::MAX {
        let Some(len) = read_word(rt, place, &mut buffer)? else {
            break;
        };
        words.push(text_of(rt.alloc(), &buffer[..len])?)?;
    }
    Ok(words)
}

/// Reads the word with this index to the front of a buffer, which grows until the word fits, and
/// returns its length. There is none after the last word.
fn read_word(
    rt: &HostRuntime,
    place: usize,
    buffer: &mut Vec<u8>,
) -> Result<Option<usize>, AllocError>
    ensures { IfOk result (λ place. IfSome place (λ len. len ≤ vec_len buffer.new)) }
{
    // Doubling the buffer more often than this would overflow its length.
    for _ in 0..usize::BITS {
        match rt.arg(place, buffer) {
            Ok(len) => return Ok(Some(len)),
            Err(FillError::NotPresent) => return Ok(None),
            Err(FillError::TooLong) => buffer.resize(buffer.len().saturating_mul(2), 0)?,
        }
    }
    Err(AllocError)
}

/// The text of a word.
fn text_of(alloc: Global, word: &[u8]) -> Result<String, AllocError>
    ensures { IfOk result (λ text. string_bytes text ≡ text_of word.now) }
{
    let mut text = String::new(alloc);
    push_text(&mut text, word)?;
    Ok(text)
}
