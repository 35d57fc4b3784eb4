// From the place up: each node above gets the next key, and the keys of both nodes on it are sealed under it.
ghost use Rattle.std.specs.Prelude.{◌≡◌, ℕ, ◌+◌, ◌%◌, ◌^◌, ◌<◌, ◌≤◌, List, [], ◌∷◌, ◌++◌, length, is_ok, if◌then◌else◌};
ghost use Rattle.change.specs.Coded.{key_bytes};
ghost use Rattle.change.specs.Nodes.{key_in, drawn_key, drawn_before, Extends};
ghost use Rattle.change.specs.Turns.{turn_bytes, turns_bytes};

use crate::keys::Drawn;
use crate::node::NodeKey;
use crate::path::Path;
use crate::write::{push_key, push_node};
use cipher::sealing_trait::Sealing;
use std::alloc::AllocError;
use tree::node::NodeId;

// The record of the key drawn before key j, which is that of the node on the path, under key j; nothing where none was.
fn push_below<S: Sealing>(
    cipher: &mut S,
    node: NodeId,
    j: usize,
    drawn: Drawn<'_>,
    part: &mut [u8; 48],
    out: &mut Vec<u8>,
) -> Result<(), AllocError>
    requires { (j < length drawn.keys.now) × (drawn.last + 1 + j < 2 ^ 32) }
    ensures { out.new.items ≡ (if is_ok result then out.old.items ++ key_bytes S.sealed node.number (node.number % 2) (drawn_key drawn.entry.last drawn.entry.keys.now j) (drawn_before drawn.entry.last drawn.entry.keys.now j) else out.old.items) }
{
    if j == 0 {
        return Ok(());
    }
    push_key(cipher, node, drawn.key(j - 1), drawn.key(j), part, out)
}

// One turn: under key j, the key of the node on the path, and then that of its sibling.
fn push_both<S: Sealing>(
    cipher: &mut S,
    node: NodeId,
    j: usize,
    drawn: Drawn<'_>,
    sibling: &Option<NodeKey>,
    part: &mut [u8; 48],
    out: &mut Vec<u8>,
) -> Result<(), AllocError>
    requires { (j < length drawn.keys.now) × (drawn.last + 1 + j < 2 ^ 32) }
    ensures { Extends result out.old.items (turn_bytes S.sealed node.number drawn.entry.last drawn.entry.keys.now j (key_in sibling.now)) out.new.items }
{
    push_below(cipher, node, j, drawn, part, out)?;
    push_node(cipher, node.sibling(), sibling, drawn.key(j), part, out)
}

// The turns from a node up, one for each level of the path; `first` is the index of the key that the node above it gets.
pub(crate) fn climb<S: Sealing>(
    cipher: &mut S,
    start: NodeId,
    path: Path<'_>,
    first: usize,
    drawn: Drawn<'_>,
    part: &mut [u8; 48],
    out: &mut Vec<u8>,
) -> Result<(), AllocError>
    requires { (path.levels + first ≤ length drawn.keys.now) × (drawn.last + 1 + path.levels + first < 2 ^ 32) }
    ensures { Extends result out.old.items (turns_bytes S.sealed start.number first drawn.entry.last drawn.entry.keys.now path.entry.siblings.now path.entry.levels) out.new.items }
{
    let mut node = start;
    for (h, sibling) in path.siblings[0..path.levels as usize].iter().enumerate() {
        push_both(cipher, node, h + first, drawn, sibling, part, out)?;
        node = node.parent();
    }
    Ok(())
}
