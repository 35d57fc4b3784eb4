// The store's working memory.
ghost use Rattle.std.specs.Prelude.{◌≡◌, ℕ, List, length, replicate, vec_len};
ghost use Rattle.change.specs.Nodes.{Keyless};

use change::node::NodeKey;
use sealing::key::Key;

// What a call works with, lent field by field to the functions that it calls. Whenever no call is under way there is no key in it, no part of one, and nothing that was opened.
pub struct Work {
    // The key of the node that the way down has come to.
    pub(crate) key: Key,
    // A sealed key, opened in place.
    pub(crate) part: [u8; 48],
    // A content with its mark.
    pub(crate) room: Vec<u8>,
    // The keys beside a path.
    pub(crate) siblings: Vec<Option<NodeKey>>,
    ghost wiped: { key.bytes ≡ replicate 32 0 },
    ghost blank: { part ≡ replicate 48 0 },
    ghost empty: { room.items ≡ replicate 4112 0 },
    ghost keyless: { Keyless siblings.items },
}
