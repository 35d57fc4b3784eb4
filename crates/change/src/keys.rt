// The keys of one change.
ghost use Rattle.std.specs.Prelude.{◌≡◌, ℕ, ◌+◌, ◌^◌, ◌<◌, length, replicate};
ghost use Rattle.change.specs.Nodes.{bytes_in, drawn_key, numbered};

use sealing::key::Key;

// The new keys of one change, in the order in which they are drawn; a smaller tree uses the first ones: a list that grows would leave copies of keys behind. Their owner holds them on the heap.
pub struct NewKeys {
    pub keys: [Key; 11],
    ghost eleven: { length keys ≡ 11 },
}

// The keys that one change draws, in their order; their numbers are counted on from the last one that was given.
#[derive(Clone, Copy)]
pub struct Drawn<'a> {
    pub keys: &'a [Key],
    pub last: u32,
}

// A key with its number.
#[derive(Clone, Copy)]
pub(crate) struct KeyRef<'a> {
    pub(crate) number: u32,
    pub(crate) key: &'a Key,
}

impl<'a> Drawn<'a> {
    // Key j with its number.
    pub(crate) fn key(self, j: usize) -> KeyRef<'a>
        requires { (j < length self.keys.now) × (self.last + 1 + j < 2 ^ 32) }
        ensures { numbered result ≡ drawn_key self.entry.last self.entry.keys.now j }
    {
        KeyRef {
            number: self.last + 1 + j as u32,
            key: &self.keys[j],
        }
    }
}

// Clears every key to zeros.
pub fn wipe_keys(keys: &mut [Key])
    ensures { (j : ℕ) → j < length keys.old → bytes_in keys.new j ≡ replicate 32 0 }
{
    for key in keys.iter_mut() {
        key.wipe();
    }
}

impl NewKeys {
    pub fn wipe(&mut self)
        ensures { (j : ℕ) → j < 11 → bytes_in self.new.keys j ≡ replicate 32 0 }
    {
        wipe_keys(&mut self.keys);
    }
}

// Puts key i in place of the one in `root`, and wipes all keys that were handed in. The two change places, so that no copy is made.
pub fn hand_over(keys: &mut [Key], i: usize, root: &mut Key)
    requires { i < length keys.old }
    ensures root { root.new.bytes ≡ bytes_in keys.old i }
    ensures wiped { (j : ℕ) → j < length keys.old → bytes_in keys.new j ≡ replicate 32 0 }
{
    std::mem::swap(root, &mut keys[i]);
    wipe_keys(keys);
}
