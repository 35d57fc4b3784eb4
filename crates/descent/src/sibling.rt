// The keys of nodes beside a path.
ghost use Rattle.std.specs.Prelude.{◌≡◌, ◌≤◌, length, take, Some};
ghost use Rattle.change.specs.Nodes.{key_in};

use change::node::{NodeKey, clear};
use sealing::key::Key;

// The node has the key with that number that stands in the first 32 bytes of a buffer. Zeros are written over one that it had.
pub fn hold(node: &mut Option<NodeKey>, number: u32, buffer: &[u8])
    requires { 32 ≤ length buffer.now }
    ensures { key_in node.new ≡ Some (record { number = number; bytes = take 32 buffer.now }) }
{
    clear(node);
    *node = Some(NodeKey {
        number,
        key: Key::blank(),
    });
    if let Some(held) = node {
        held.key.load(buffer);
    }
}
