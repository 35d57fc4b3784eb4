// What a change is made with.
ghost use Rattle.std.specs.Prelude.{◌≡◌, map, IfOk, vec_len};
ghost use Rattle.change.specs.Nodes.{key_in};
ghost use Rattle.rehearsal.specs.Siblings.{keyed, siblings_of};
ghost use Rattle.rehearsal.specs.Keys.{keys_after};
ghost use Rattle.sealing.specs.declared.key.Key.{Key as Secret};

use crate::keys::{Keys, key_of};
use crate::numbers::Numbers;
use change::node;
use change::node::NodeKey;
use std::alloc::{AllocError, Global};
use tree::node::NodeId;

// The siblings along a path, from the place up; their keys are wiped when they are let go.
pub struct Siblings(pub Vec<Option<NodeKey>>);

impl Drop for Siblings {
    fn drop(self) {
        let Siblings(nodes) = self;
        node::let_go(nodes);
    }
}

// The keys that it draws, and the siblings along the path.
#[derive(Drop)]
pub struct Given {
    pub keys: Keys,
    pub siblings: Siblings,
}

// The key of that number, as far as there is one.
fn node_of(number: Option<u32>) -> Option<NodeKey>
    ensures { key_in result ≡ keyed number }
{
    let number = number?;
    Some(NodeKey {
        number,
        key: key_of(u64::from(number)),
    })
}

impl Siblings {
    // The siblings along the path from a node up.
    fn of(
        heap: Global,
        numbers: &Numbers,
        start: NodeId,
        levels: u32,
    ) -> Result<Siblings, AllocError>
        ensures { IfOk result (λ siblings. (vec_len siblings.0 ≡ levels) × (map key_in siblings.0.items ≡ siblings_of start.number numbers.now.0 levels)) }
    {
        let mut nodes = Vec::with_capacity(heap, levels as usize)?;
        let mut node = start;
        for _h in 0..levels {
            nodes.push_reserved(node_of(numbers.of(node.sibling())));
            node = node.parent();
        }
        Ok(Siblings(nodes))
    }
}

impl Given {
    // So many keys after the last number, and the siblings along the path from a node up.
    pub fn new(
        heap: Global,
        numbers: &Numbers,
        start: NodeId,
        levels: u32,
        last: u32,
        count: u32,
    ) -> Result<Given, AllocError>
        ensures { IfOk result (λ given. (vec_len given.siblings.0 ≡ levels) × (map key_in given.siblings.0.items ≡ siblings_of start.number numbers.now.0 levels) × (map (λ (k : Secret). k.bytes) given.keys.0.items ≡ keys_after last count)) }
    {
        let siblings = Siblings::of(heap, numbers, start, levels)?;
        let keys = Keys::draw(heap, last, count)?;
        Ok(Given { keys, siblings })
    }
}
