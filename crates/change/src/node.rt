// The keys of nodes.
ghost use Rattle.std.specs.Prelude.{◌≡◌, Some, None, replicate};
ghost use Rattle.change.specs.Nodes.{key_in, numbered, Keyless};

use crate::keys::KeyRef;
use sealing::key::Key;

// The key of a node, with its number. It can be let go only where it is proved to be wiped.
pub struct NodeKey {
    pub number: u32,
    pub key: Key,
}

impl Drop for NodeKey {
    fn drop(self)
        requires { self.key.bytes ≡ replicate 32 0 }
    {
        let NodeKey { number: _, key: _ } = self;
    }
}

impl NodeKey {
    pub(crate) fn lent(&self) -> KeyRef<'_>
        ensures { Some (numbered result) ≡ key_in (Some self.now) }
    {
        KeyRef {
            number: self.number,
            key: &self.key,
        }
    }
}

// The node has no key any more. Zeros are written over one that it had, where it stood.
pub fn clear(node: &mut Option<NodeKey>)
    ensures { node.new ≡ None }
{
    if let Some(held) = node {
        held.key.wipe();
    }
    *node = None;
}

// Nodes without keys.
pub fn clear_all(nodes: &mut [Option<NodeKey>])
    ensures { Keyless nodes.new }
{
    for node in nodes.iter_mut() {
        clear(node);
    }
}

// Lets nodes go; zeros are written over the keys that they have.
pub fn let_go(mut nodes: Vec<Option<NodeKey>>) {
    clear_all(&mut nodes);
    while let Some(_) = nodes.pop() {}
    nodes.destroy_empty();
}
