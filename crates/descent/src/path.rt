// Down the path from the root to a place.
ghost use Rattle.std.specs.Prelude.{◌≡◌, ℕ, ◌+◌, ◌^◌, ◌<◌, ◌≤◌, List, length};
ghost use Rattle.devices.specs.Events.{changes};
ghost use Rattle.index.specs.Noted.{rows_of};
ghost use Rattle.change.specs.Nodes.{key_in};
ghost use Rattle.descent.specs.Opened.{OpensRow, Follows};
ghost use Rattle.descent.specs.Path.{OfShown, Descends, Collects, StillRuns};

use crate::failure::Failure;
use crate::sibling::hold;
use crate::source::Source;
use change::node::{NodeKey, clear};
use cipher::sealing_trait::Sealing;
use devices::medium::Medium;
use index::Index;
use index::row::KeyRow;
use sealing::key::Key;
use tree::answer::Refusal;
use tree::leaf::Leaf;
use tree::node::NodeId;

impl<S: Sealing, M: Medium> Source<S, M> {
    // From the root's key to that of a place's node, which takes its place.
    pub fn descend(
        &mut self,
        index: &Index,
        leaf: Leaf,
        key: &mut Key,
        part: &mut [u8; 48],
    ) -> Result<(), Failure>
        ensures same { changes (M.log self.new.medium) ≡ changes (M.log self.old.medium) }
        ensures down { OfShown S.sealed leaf.levels (rows_of index.now) key.old.bytes (M.log self.old.medium) (M.log self.new.medium) (Descends leaf.levels leaf.place result key.new.bytes) }
    {
        let node = leaf.node();
        for h in (0..leaf.levels).rev() {
            let on_path = node.ancestor(h);
            let row = index.key(on_path.number).ok_or(Refusal::Nothing)?;
            self.step_down(on_path, row, key, part)?;
        }
        Ok(())
    }

    // The key that a node has by its row, opened under the key of the node above.
    fn open_row(
        &mut self,
        node: NodeId,
        row: Option<KeyRow>,
        above: &Key,
        part: &mut [u8; 48],
        held: &mut Option<NodeKey>,
    ) -> Result<(), Failure>
        ensures { OpensRow S.sealed node.number row above.now.bytes (M.log self.old.medium) (M.log self.new.medium) result (key_in held.new) }
    {
        match row {
            None => clear(held),
            Some(row) => {
                self.open_key(node, row, above, part)?;
                hold(held, row.number, part);
            }
        }
        Ok(())
    }

    // From a node's key to that of a node on it, as far as it has one.
    fn follow(
        &mut self,
        node: NodeId,
        row: Option<KeyRow>,
        key: &mut Key,
        part: &mut [u8; 48],
    ) -> Result<(), Failure>
        ensures { Follows S.sealed node.number row key.old.bytes (M.log self.old.medium) (M.log self.new.medium) result key.new.bytes }
    {
        match row {
            None => Ok(()),
            Some(row) => self.step_down(node, row, key, part),
        }
    }

    // The keys beside the path to a place, from the place up, opened on the way down from the root's key, which is lost on the way.
    pub fn collect(
        &mut self,
        index: &Index,
        leaf: Leaf,
        key: &mut Key,
        part: &mut [u8; 48],
        siblings: &mut [Option<NodeKey>],
    ) -> Result<(), Failure>
        requires { (1 ≤ leaf.levels) × (leaf.levels ≤ length siblings.old) }
        ensures same { changes (M.log self.new.medium) ≡ changes (M.log self.old.medium) }
        ensures running { StillRuns result }
        ensures all { OfShown S.sealed leaf.levels (rows_of index.now) key.old.bytes (M.log self.old.medium) (M.log self.new.medium) (Collects leaf.levels leaf.place result siblings.new) }
    {
        let node = leaf.node();
        for h in (1..leaf.levels).rev() {
            let on_path = node.ancestor(h);
            let beside = on_path.sibling();
            let row = index.key(beside.number);
            self.open_row(beside, row, key, part, &mut siblings[h as usize])?;
            self.follow(on_path, index.key(on_path.number), key, part)?;
        }
        let last = node.sibling();
        let row = index.key(last.number);
        self.open_row(last, row, key, part, &mut siblings[0])
    }
}
