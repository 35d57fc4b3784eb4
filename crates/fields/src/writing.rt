// Byte strings as answers.
ghost use Rattle.std.specs.Prelude.{◌≡◌, IfOk, string_bytes};
ghost use Rattle.fields.specs.Fields.{written_of};

use std::alloc::{AllocError, Global};

// What the empty byte string is written as.
const EMPTY: &str = "-";

// A byte string as an answer.
pub fn written(heap: Global, bytes: &[u8]) -> Result<String, AllocError>
    ensures { IfOk result (λ text. string_bytes text ≡ written_of bytes.now) }
{
    if bytes.is_empty() {
        String::from_str(heap, EMPTY)
    } else {
        hex_text::encode(heap, bytes)
    }
}
