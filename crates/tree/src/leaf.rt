// Places of a tree.
ghost use Rattle.std.specs.Prelude.{◌≡◌, ℕ, ◌+◌, ◌^◌, ◌<◌, ◌≤◌, MatchOption};

use crate::node::NodeId;
use crate::numbers::{MOST_LEVELS, places};

// A place that a tree of so many levels has.
#[derive(Clone, Copy)]
pub struct Leaf {
    pub levels: u32,
    pub place: u32,
    pub ghost few: { levels ≤ 20 },
    pub ghost there: { place < 2 ^ levels },
}

impl Leaf {
    // None where there is no such place, or no tree of so many levels.
    pub fn new(levels: u32, place: u32) -> Option<Leaf>
        ensures { MatchOption result (levels ≤ 20 → place < 2 ^ levels → ⊥) (λ leaf. (leaf.levels ≡ levels) × (leaf.place ≡ place)) }
    {
        if levels > MOST_LEVELS || place >= places(levels) {
            return None;
        }
        Some(Leaf { levels, place })
    }

    // The place's node.
    pub fn node(self) -> NodeId
        ensures { result.number ≡ 2 ^ self.levels + self.place }
    {
        NodeId {
            number: places(self.levels) + self.place,
        }
    }
}
