// The keys that are handed in for the next change.
ghost use Rattle.std.specs.Prelude.{◌≡◌, ◌≤◌, length, replicate, IfOk, vec_len};

use change::keys::wipe_keys;
use sealing::key::Key;
use std::alloc::{AllocError, Global};

// The most keys that can be handed in at once.
pub const MOST_KEYS: usize = 64;

// There is room for all of them from the first: a list that grows would leave copies behind.
pub struct Chance {
    pub(crate) keys: Vec<Key>,
}

impl Drop for Chance {
    fn drop(self) {
        let Chance { mut keys } = self;
        empty(&mut keys);
        keys.destroy_empty();
    }
}

// Lets keys go; zeros are written over them first.
fn empty(keys: &mut Vec<Key>)
    ensures { vec_len keys.new ≡ 0 }
{
    wipe_keys(keys);
    while let Some(mut key) = keys.pop() {
        key.wipe();
    }
}

impl Chance {
    pub fn new(heap: Global) -> Result<Chance, AllocError>
        ensures { IfOk result (λ chance. vec_len chance.keys ≡ 0) }
    {
        Ok(Chance {
            keys: Vec::with_capacity(heap, MOST_KEYS)?,
        })
    }

    // One key more, moved out of the first 32 bytes of a buffer, which is zeros afterwards; where there is no room for it, there is none more.
    pub fn add(&mut self, buffer: &mut [u8])
        requires { 32 ≤ length buffer.old }
        ensures { buffer.new ≡ replicate (length buffer.old) 0 }
    {
        if self.keys.len() < self.keys.capacity() {
            let mut key = Key::blank();
            key.load(buffer);
            self.keys.push_reserved(key);
        }
        octets::wipe(buffer);
    }

    // No keys any more.
    pub fn clear(&mut self)
        ensures { vec_len self.new.keys ≡ 0 }
    {
        empty(&mut self.keys);
    }
}
