// Parent, sibling and side by shifts and the lowest bit; places and their nodes.
ghost use Rattle.std.specs.Prelude.{◌≡◌, ℕ, ◌+◌, ◌-◌, ◌/◌, ◌%◌, ◌^◌, ◌<◌, ◌≤◌, true, false, MatchOption};
ghost use Rattle.tree.specs.Nodes.{sibling_of, slot_of};

use crate::leaf::Leaf;
use crate::node::{NodeId, Side};

// The most levels that a tree can have.
pub const MOST_LEVELS: u32 = 20;

impl NodeId {
    // The node that this one hangs on; 0 for the root.
    pub fn parent(self) -> NodeId
        ensures { result.number ≡ self.number / 2 }
    {
        NodeId {
            number: self.number >> 1,
        }
    }

    // The node so many levels above this one; 0 above the root.
    pub fn ancestor(self, levels: u32) -> NodeId
        requires { levels < 32 }
        ensures { result.number ≡ self.number / 2 ^ levels }
    {
        NodeId {
            number: self.number >> levels,
        }
    }

    pub fn sibling(self) -> NodeId
        ensures { result.number ≡ sibling_of self.number }
    {
        NodeId {
            number: self.number ^ 1,
        }
    }

    pub fn side(self) -> Side
        ensures { slot_of result ≡ self.number % 2 }
    {
        match self.number % 2 {
            0 => Side::Even,
            _ => Side::Odd,
        }
    }
}

impl Side {
    // The last byte of the nonce under which the key of a node on this side is sealed.
    pub fn slot(self) -> u8
        ensures { result ≡ slot_of self }
    {
        self as u8
    }
}

// How many places a tree of so many levels has.
pub fn places(levels: u32) -> u32
    requires { levels < 32 }
    ensures { result ≡ 2 ^ levels }
{
    1 << levels
}

// The node of a place; none where there is no such place, or no tree of so many levels.
pub fn place_node(levels: u32, place: u32) -> Option<NodeId>
    ensures { MatchOption result ((levels ≤ 20 → place < 2 ^ levels → ⊥)) (λ n. (levels ≤ 20) × (place < 2 ^ levels) × (n.number ≡ 2 ^ levels + place)) }
{
    Some(Leaf::new(levels, place)?.node())
}
