// Sealing a text in place, and opening it again.
ghost use Rattle.std.specs.Prelude.{◌≡◌, ℕ, ◌<◌, true, false, T, ◌≢◌, slice_index};
ghost use Rattle.chacha20.specs.Stream.{idle};
ghost use Rattle.sealing.specs.Aead.{Applies, Seals};
ghost use Rattle.sealing.specs.Open.{Comes};
ghost use Rattle.sealing.specs.Work.{Idle};

use crate::key::Key;
use crate::opening::{DoesNotOpen, Mark, Nonce};
use crate::workspace::Workspace;
use chacha20::stream::TooLong;

// The counter of the text's first block; block 0 makes the one-time key.
const FIRST: u32 = 1;

// The bits in which two marks differ, all bytes taken together. Every byte is read, whatever the others are: marks are never compared by `==`, which may stop at the first difference and so tells by its time how much of a forged mark is right.
fn difference(a: &[u8; 16], b: &[u8; 16]) -> u8
    ensures none { result ≡ 0 → (k : ℕ) → k < 16 → slice_index a.now k ≡ slice_index b.now k }
    ensures same { a.now ≡ b.now → result ≡ 0 }
{
    let mut bits = 0;
    for (x, y) in a.iter().zip(b) {
        bits |= *x ^ *y;
    }
    bits
}

// Whether two marks are the same.
fn agree(a: &[u8; 16], b: &[u8; 16]) -> bool
    ensures yes { result ≡ true → a.now ≡ b.now }
    ensures no { result ≡ false → a.now ≢ b.now }
{
    difference(a, b) == 0
}

impl Workspace {
    // Puts a text under the key stream, or takes it from under it.
    fn apply(&mut self, key: &Key, nonce: &Nonce, text: &mut [u8]) -> Result<(), TooLong>
        ensures value { Applies key.now.bytes nonce.now.0 text.old result text.new }
        ensures stream { self.new.stream ≡ idle }
        ensures mark { self.new.mark ≡ self.old.mark }
        ensures block { self.new.block ≡ self.old.block }
        ensures once { self.new.once ≡ self.old.once }
    {
        self.stream.encrypt(key.as_bytes(), FIRST, &nonce.0, text)
    }
}

// Seals a text in place, and gives its mark. A text longer than the standard allows is refused, and stays as it was.
pub fn seal(
    key: &Key,
    nonce: &Nonce,
    marked: &[u8],
    text: &mut [u8],
    work: &mut Workspace,
) -> Result<Mark, TooLong>
    ensures value { Seals key.now.bytes nonce.now.0 marked.now text.old result text.new }
    ensures wiped { Idle work.new }
{
    // The working memory is wiped before a refusal is handed on.
    if let Err(why) = work.apply(key, nonce, text) {
        work.wipe();
        return Err(why);
    }
    Ok(Mark(work.tag(key.as_bytes(), &nonce.0, marked, text)))
}

// Opens a sealed text in place where the mark agrees; else nothing in the buffer has changed.
pub fn open(
    key: &Key,
    nonce: &Nonce,
    marked: &[u8],
    sealed: &mut [u8],
    mark: &Mark,
    work: &mut Workspace,
) -> Result<(), DoesNotOpen>
    ensures value { Comes key.now.bytes nonce.now.0 marked.now sealed.old mark.now.0 result sealed.new }
    ensures wiped { Idle work.new }
{
    let made = work.tag(key.as_bytes(), &nonce.0, marked, sealed);
    if !agree(&made, &mark.0) {
        return Err(DoesNotOpen);
    }
    work.apply(key, nonce, sealed).map_err(|_| DoesNotOpen)
}
