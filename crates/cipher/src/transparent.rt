// Sealing that hides nothing, for rehearsals in which keys are numbers of 16 bytes, with zeros after them: it opens under its own key and no other.
ghost use Rattle.std.specs.Prelude.{◌≡◌, ℕ, ◌+◌, ◌-◌, ◌≤◌, List, ◌++◌, length, take, drop, Decides};
ghost use Rattle.cipher.specs.Sealed.{transparent, text_of};
ghost use Rattle.cipher.specs.Parts.{length-transparent, transparent-apart};

use crate::sealing_trait::Sealing;
use sealing::key::Key;
use sealing::opening::{DoesNotOpen, Nonce};

#[derive(Clone, Copy)]
pub struct Transparent;

// Whether the last 16 bytes are the key's number.
fn has_number(part: &[u8], key: &[u8; 32]) -> bool
    requires { 16 ≤ length part.now }
    ensures { Decides result (drop (length part.now - 16) part.now ≡ take 16 key.now) }
{
    part.ends_with(&key[0..16])
}

// The key's number in the last 16 bytes.
fn put_number(part: &mut [u8], key: &[u8; 32])
    requires { 16 ≤ length part.old }
    ensures { part.new ≡ text_of part.old ++ take 16 key.now }
{
    let number = part.last_chunk_mut::<16>().unwrap();
    number.copy_from_slice(&key[0..16]);
}

impl Sealing for Transparent {
    ghost sealed = { transparent };

    ghost clear = { λ _. Unit {0} };

    ghost long = { λ key nonce marked text h. length-transparent key nonce marked text h };

    ghost apart = { λ key nonce marked one other h e. transparent-apart key nonce marked one other e };

    #[tactic(auto, unfolding(crate::specs::Sealed::transparent))]
    fn seal(&mut self, key: &Key, nonce: &Nonce, marked: &[u8], part: &mut [u8]) {
        put_number(part, key.as_bytes());
    }

    fn open(
        &mut self,
        key: &Key,
        nonce: &Nonce,
        marked: &[u8],
        part: &mut [u8],
    ) -> Result<(), DoesNotOpen> {
        if has_number(part, key.as_bytes()) {
            Ok(())
        } else {
            Err(DoesNotOpen)
        }
    }
}
