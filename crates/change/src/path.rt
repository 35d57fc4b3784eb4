// The path from a place up to the root.
ghost use Rattle.std.specs.Prelude.{◌≤◌, length};

use crate::node::NodeKey;

// A place in a tree of so many levels, with the siblings along the path to it, from the place up. The tree may have no such place: a change of it is refused.
#[derive(Clone, Copy)]
pub struct Path<'a> {
    pub levels: u32,
    pub place: u32,
    pub siblings: &'a [Option<NodeKey>],
    pub ghost wide: { levels ≤ length siblings.now },
}
