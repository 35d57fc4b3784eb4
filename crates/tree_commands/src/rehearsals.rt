// A rehearsal has the commands of every tree, and no others.
ghost use Rattle.std.specs.Prelude.{◌≡◌, vec_items};
ghost use Rattle.tree_commands.specs.Trees.{Empty, PutTold, TakenTold};

use crate::key_tree::KeyTree;
use fields::faults::Failure;
use rehearsal::levels::Levels;
use rehearsal::state::Rehearsal;
use std::alloc::{AllocError, Global};

impl KeyTree for Rehearsal {
    ghost new_gives = { Empty };

    ghost put_gives = { PutTold };

    ghost out_gives = { TakenTold };

    ghost last_gives = { λ tree bytes. bytes ≡ vec_items tree.bytes };

    fn new(heap: Global, levels: Levels) -> Result<Rehearsal, AllocError> {
        Ok(Rehearsal::new(heap, levels))
    }

    fn put(&mut self, heap: Global, place: u32, content: Vec<u8>) -> Result<String, Failure> {
        Rehearsal::put(self, place, &content)?;
        Ok(self.written().to_string(heap)?)
    }

    fn take_out(&mut self, heap: Global, place: u32) -> Result<String, Failure> {
        Rehearsal::take_out(self, place)?;
        Ok(self.written().to_string(heap)?)
    }

    fn bytes(&self) -> &[u8] {
        Rehearsal::bytes(self)
    }

    fn answer_own(
        _heap: Global,
        _word: &[u8],
        _fields: &[&[u8]],
        _tree: &mut Option<Rehearsal>,
    ) -> Result<Option<String>, Failure> {
        Ok(None)
    }
}
