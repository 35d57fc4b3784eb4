// Byte strings as hex: either case is read, lower case is written.
#![tactic(auto)]

ghost use Rattle.std.specs.Prelude.{◌≡◌, ◌<◌, ◌++◌, IfOk, vec_items, string_bytes, OnOk};
ghost use Rattle.hex_text.specs.Hex.{digit as digit_of, byte as byte_of, decode as decoded};
ghost use Rattle.hex_text.specs.Hex.{letter as letter_of, pair, encode as encoded, DecodesAgain};
ghost use Rattle.std.specs.Option.{option_map};

use std::alloc::{AllocError, Global};

// The value of a digit. `char::to_digit` would answer a `u32`, to be brought back to a byte.
fn digit(letter: u8) -> Option<u8>
    ensures { result ≡ digit_of letter }
{
    match letter {
        b'0'..=b'9' => Some(letter - b'0'),
        b'a'..=b'f' => Some(letter - b'a' + 10),
        b'A'..=b'F' => Some(letter - b'A' + 10),
        _ => None,
    }
}

// The byte of two digits, the higher half first.
fn byte(high: u8, low: u8) -> Option<u8>
    ensures { result ≡ byte_of high low }
{
    Some(16 * digit(high)? + digit(low)?)
}

// The character of a digit. `char::from_digit` would answer an `Option` that is always `Some`.
fn letter(digit: u8) -> char
    requires { digit < 16 }
    ensures value { result ≡ letter_of digit }
    ensures ascii { result < 128 }
{
    if digit < 10 {
        char::from(b'0' + digit)
    } else {
        char::from(b'a' - 10 + digit)
    }
}

// The byte string of a text; none where a character is left over or is no digit.
pub fn decode(heap: Global, text: &[u8]) -> Result<Option<Vec<u8>>, AllocError>
    ensures { IfOk result (λ bytes. option_map vec_items bytes ≡ decoded text.now) }
{
    let (pairs, odd) = text.as_chunks::<2>();
    if !odd.is_empty() {
        return Ok(None);
    }
    let mut bytes = Vec::with_capacity(heap, pairs.len())?;
    for [high, low] in pairs {
        let Some(byte) = byte(*high, *low) else {
            return Ok(None);
        };
        bytes.push(byte)?;
    }
    Ok(Some(bytes))
}

// Writes a byte's two digits behind a text.
fn push_byte(text: &mut String, byte: u8) -> Result<(), AllocError>
    ensures { OnOk result (string_bytes text.new ≡ string_bytes text.old ++ pair byte) }
{
    text.push(letter(byte / 16))?;
    text.push(letter(byte % 16))?;
    Ok(())
}

// The text of a byte string.
pub fn encode(heap: Global, bytes: &[u8]) -> Result<String, AllocError>
    ensures { IfOk result (λ text. string_bytes text ≡ encoded bytes.now) }
{
    let mut text = String::new(heap);
    for byte in bytes {
        push_byte(&mut text, *byte)?;
    }
    Ok(text)
}

// What was encoded decodes to what it was.
pub fn decodes_again() -> u8
    ensures { DecodesAgain }
{
    0
}
