// A way of sealing.
ghost use Rattle.std.specs.Prelude.{◌≡◌, ℕ, ◌+◌, ◌≤◌, List, length};
ghost use Rattle.cipher.specs.Sealed.{text_of, Comes};

use sealing::key::Key;
use sealing::opening::{DoesNotOpen, Nonce};

pub trait Sealing {
    // The sealed text, with its mark of 16 bytes, of a key, a nonce, what is marked besides, and a text.
    ghost sealed: { List ℕ → List ℕ → List ℕ → List ℕ → List ℕ };

    // No secret is left in the working memory.
    ghost clear: { Self → Type 0 };

    // Seals the text that stands in a part, before 16 bytes of room for its mark.
    fn seal(&mut self, key: &Key, nonce: &Nonce, marked: &[u8], part: &mut [u8])
        requires { (16 ≤ length part.old) × (length part.old ≤ 65536) }
        ensures value { part.new ≡ sealed key.now.bytes nonce.now.0 marked.now (text_of part.old) }
        ensures clear { clear self.new };

    // Opens a part in place where its mark agrees; else it is as it was.
    fn open(
        &mut self,
        key: &Key,
        nonce: &Nonce,
        marked: &[u8],
        part: &mut [u8],
    ) -> Result<(), DoesNotOpen>
        requires { (16 ≤ length part.old) × (length part.old ≤ 65536) }
        ensures value { Comes (sealed key.now.bytes nonce.now.0 marked.now) part.old result part.new }
        ensures clear { clear self.new };

    ghost long: { (key nonce marked text : List ℕ) → length key ≡ 32 → length (sealed key nonce marked text) ≡ length text + 16 };

    ghost apart: { (key nonce marked one other : List ℕ) → length key ≡ 32 → sealed key nonce marked one ≡ sealed key nonce marked other → one ≡ other };
}
