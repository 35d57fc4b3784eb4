// Working memory made and let go.
ghost use Rattle.std.specs.Prelude.{◌≡◌, ℕ, ◌≤◌, List, [], ◌∷◌, length, replicate, IfOk, None, vec_len};
ghost use Rattle.change.specs.Nodes.{Keyless};

use crate::work::Work;
use change::node;
use change::node::NodeKey;
use sealing::key::Key;
use std::alloc::{AllocError, Global};

// The longest content with its mark.
pub const ROOM: usize = 4112;

// So many nodes without keys.
fn blank_nodes(heap: Global, count: u32) -> Result<Vec<Option<NodeKey>>, AllocError>
    ensures { IfOk result (λ nodes. (vec_len nodes ≡ count) × Keyless nodes.items) }
{
    let mut nodes = Vec::with_capacity(heap, count as usize)?;
    // The library's ways to fill a Vec ask for elements that are Clone or Drop, and a key is neither.
    for _h in 0..count {
        nodes.push_reserved(None);
    }
    Ok(nodes)
}

// Clears what a call opened. The fields are handed in, since no method of Work can be called before they are clear.
pub(crate) fn clear_opened(key: &mut Key, part: &mut [u8; 48], room: &mut [u8])
    ensures key { key.new.bytes ≡ replicate 32 0 }
    ensures part { part.new ≡ replicate 48 0 }
    ensures room { room.new ≡ replicate (length room.old) 0 }
{
    key.wipe();
    *part = [0; 48];
    octets::wipe(room);
}

impl Work {
    // For a tree of so many levels.
    pub(crate) fn new(heap: Global, levels: u32) -> Result<Work, AllocError>
        ensures { IfOk result (λ work. vec_len work.siblings ≡ levels) }
    {
        let room = vec![in heap; 0; ROOM]?;
        let siblings = blank_nodes(heap, levels)?;
        Ok(Work {
            key: Key::blank(),
            part: [0; 48],
            room,
            siblings,
        })
    }

    // The end of it.
    pub(crate) fn let_go(self) {
        let Work {
            mut key,
            part: _,
            room: _,
            siblings,
        } = self;
        key.wipe();
        node::let_go(siblings);
    }
}
