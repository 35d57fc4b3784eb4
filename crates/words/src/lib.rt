// The words of a line, and the numbers that they write.
#![tactic(auto)]

ghost use Rattle.std.specs.Prelude.{◌≡◌, ◌<◌, [], ◌∷◌, map, length, IfOk, IfSome, MatchOption};
ghost use Rattle.words.specs.Words.{blank, bare, words_in, words_of};

pub mod numbers;

use std::alloc::{AllocError, Global};

// A space or a tab.
fn is_blank(byte: u8) -> bool
    ensures { result ≡ blank byte }
{
    byte == b' ' || byte == b'\t'
}

// The line without a carriage return at its end.
fn without_return(line: &[u8]) -> &[u8]
    ensures { result.now ≡ bare line.now }
{
    line.strip_suffix(b"\r").unwrap_or(line)
}

// The first word of a text, and what follows it; none where the text is blank.
fn next_word(text: &[u8]) -> Option<(&[u8], &[u8])>
    ensures words { MatchOption result (words_in text.now ≡ []) (λ found. words_in text.now ≡ found.0.now ∷ words_in found.1.now) }
    ensures shorter { IfSome result (λ found. length found.1.now < length text.now) }
{
    let start = text.iter().position(|byte| !is_blank(*byte))?;
    let from = &text[start..];
    let end = from
        .iter()
        .position(|byte| is_blank(*byte))
        .unwrap_or(from.len());
    Some(from.split_at(end))
}

// The words of a line without its line feed: what stands between spaces and tabs. A carriage return at the line's end counts as one of those.
pub fn split<'a>(heap: Global, line: &'a [u8]) -> Result<Vec<&'a [u8]>, AllocError>
    ensures { IfOk result (λ words. map (λ w. w.now) words.items ≡ words_of line.now) }
{
    let mut words = Vec::new(heap);
    let mut rest = without_return(line);
    while let Some((word, after)) = next_word(rest) {
        words.push(word)?;
        rest = after;
    }
    Ok(words)
}
