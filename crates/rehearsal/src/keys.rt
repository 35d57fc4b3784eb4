// Numbers for keys.
ghost use Rattle.std.specs.Prelude.{◌≡◌, ℕ, ◌+◌, ◌^◌, ◌<◌, ◌≤◌, List, map, IfOk, vec_len};
ghost use Rattle.forgetting.specs.Change.{draws};
ghost use Rattle.rehearsal.specs.Keys.{key_of, keys_after};
ghost use Rattle.sealing.specs.declared.key.Key.{Key as Secret};

use sealing::key::Key;
use std::alloc::{AllocError, Global};

// The key with a number: the number in 16 bytes, the high byte first, and 16 zeros.
pub fn key_of(number: u64) -> Key
    ensures { result.bytes ≡ key_of number }
{
    let [a, b, c, d, e, f, g, h] = number.to_be_bytes();
    let mut bytes = [
        0, 0, 0, 0, 0, 0, 0, 0, a, b, c, d, e, f, g, h, 0, 0, 0, 0, 0, 0, 0, 0, 0, 0, 0, 0, 0, 0,
        0, 0,
    ];
    Key::take(&mut bytes)
}

// How many keys a change draws: one for each node above the place, and one for its own node where a content is put in. The one of `change` is private to it, and takes borrowed bytes alone.
pub fn draws<T>(levels: u32, content: &Option<T>) -> u32
    requires { levels ≤ 20 }
    ensures { result ≡ draws content.now levels }
{
    match content {
        Some(_) => levels + 1,
        None => levels,
    }
}

// Keys that are wiped when they are let go.
pub struct Keys(pub Vec<Key>);

impl Drop for Keys {
    fn drop(self) {
        let Keys(mut keys) = self;
        // By hand: a key can be let go only where it is proved to be wiped.
        while let Some(mut key) = keys.pop() {
            key.wipe();
        }
        keys.destroy_empty();
    }
}

impl Keys {
    // So many keys, counted on from the last number.
    pub fn draw(heap: Global, last: u32, count: u32) -> Result<Keys, AllocError>
        ensures { IfOk result (λ keys. map (λ (k : Secret). k.bytes) keys.0.items ≡ keys_after last count) }
    {
        let mut keys = Vec::with_capacity(heap, count as usize)?;
        let first = u64::from(last) + 1;
        for number in first..first + u64::from(count) {
            keys.push_reserved(key_of(number));
        }
        Ok(Keys(keys))
    }
}
