// What words come to as fields.
ghost use Rattle.std.specs.Prelude.{◌≡◌, IfOk, vec_items};
ghost use Rattle.fields.specs.Fields.{byte_string, bytes_of, fixed_of, number_of, Reads};
ghost use Rattle.std.specs.Option.{option_map};

use crate::faults::{Failure, Malformed};
use crate::field::Field;
use std::alloc::{AllocError, Global};
use words::numbers::counter;

// The byte string of a word, if it is one.
fn string_of(heap: Global, word: &[u8]) -> Result<Option<Vec<u8>>, AllocError>
    ensures { IfOk result (λ bytes. option_map vec_items bytes ≡ byte_string word.now) }
{
    if let b"-" = word {
        return Ok(Some(Vec::new(heap)));
    }
    hex_text::decode(heap, word)
}

// A byte string of any length.
pub fn byte_string(heap: Global, field: Field, word: &[u8]) -> Result<Vec<u8>, Failure>
    ensures { Reads vec_items result (bytes_of field word.now) }
{
    Ok(string_of(heap, word)?.ok_or(Malformed::NotHex { field })?)
}

// A byte string of one length.
pub fn fixed<const N: usize>(heap: Global, field: Field, word: &[u8]) -> Result<[u8; N], Failure>
    ensures { Reads (λ bytes. bytes) result (fixed_of N field word.now) }
{
    let bytes = byte_string(heap, field, word)?;
    let otherwise = Malformed::Length { field, expected: N };
    let array = <[u8; N]>::try_from(bytes.as_slice()).or(Err(otherwise))?;
    Ok(array)
}

// A number of 32 bits.
pub fn number(field: Field, word: &[u8]) -> Result<u32, Failure>
    ensures { Reads (λ n. n) result (number_of field word.now) }
{
    Ok(counter(word).ok_or(Malformed::NotACounter { field })?)
}
