// The numbers of the keys that the nodes of a small tree have.
ghost use Rattle.std.specs.Prelude.{◌≡◌, ◌+◌, ◌^◌, ◌<◌, replicate, None, slice_index_or, slice_set};
ghost use Rattle.rehearsal.specs.Numbers.{climbed};

use tree::node::NodeId;

// The nodes of a tree of 3 levels, by number; no node is 0.
const NODES: usize = 16;

#[derive(Clone, Copy)]
pub struct Numbers([Option<u32>; NODES]);

impl Numbers {
    // Those of a tree without keys.
    pub fn none() -> Numbers
        ensures { result.0 ≡ replicate 16 None }
    {
        Numbers([None; NODES])
    }

    // The number of the key that a node has.
    pub fn of(&self, node: NodeId) -> Option<u32>
        ensures { result ≡ slice_index_or self.now.0 node.number None }
    {
        *self.0.get(node.number as usize)?
    }

    // The node has the key with that number, or none.
    pub fn give(&mut self, node: NodeId, number: Option<u32>)
        requires { node.number < 16 }
        ensures { self.new.0 ≡ slice_set self.old.0 node.number number }
    {
        self.0[node.number as usize] = number;
    }

    // From a node up, each that it hangs on has the next number after `last`.
    pub fn climb(&mut self, start: NodeId, levels: u32, last: u32)
        requires { (start.number < 16) × (last + levels < 2 ^ 32) }
        ensures { self.new.0 ≡ climbed levels start.number last self.old.0 }
    {
        let mut node = start;
        // Over the numbers before: the first number, last + 1, fits only where there are levels.
        for before in last..last + levels {
            node = node.parent();
            self.give(node, Some(before + 1));
        }
    }
}
