// What the commands act on.
ghost use Rattle.std.specs.Prelude.{ℕ, List, IfOk, Result, String as Text};
ghost use Rattle.std.specs.declared.alloc.Global.{Global as Heap};
ghost use Rattle.fields.specs.declared.faults.Failure.{Failure as Why};
ghost use Rattle.rehearsal.specs.declared.levels.Levels.{Levels as Height};

use fields::faults::Failure;
use rehearsal::levels::Levels;
use std::alloc::{AllocError, Global};

// A small tree of keys.
pub trait KeyTree: Drop {
    // What is known of a new tree, of one before and after a put and a taking out, and of the bytes of the last change.
    ghost new_gives: { Height → Self → Type 0 };

    ghost put_gives: { ℕ → List ℕ → Self → Result (Text Heap) Why → Self → Type 0 };

    ghost out_gives: { ℕ → Self → Result (Text Heap) Why → Self → Type 0 };

    ghost last_gives: { Self → List ℕ → Type 0 };

    fn new(heap: Global, levels: Levels) -> Result<Self, AllocError>
        ensures { IfOk result (new_gives levels) };

    // Puts a content in a place: what becomes of that, in readable form.
    fn put(&mut self, heap: Global, place: u32, content: Vec<u8>) -> Result<String, Failure>
        ensures { put_gives place content.items self.old result self.new };

    // Takes out what a place holds, or nothing: the same.
    fn take_out(&mut self, heap: Global, place: u32) -> Result<String, Failure>
        ensures { out_gives place self.old result self.new };

    // The bytes that the last change wrote.
    fn bytes(&self) -> &[u8]
        ensures { last_gives self.now result.now };

    // What a command that only such a tree has answers; none where the word is another.
    fn answer_own(
        heap: Global,
        word: &[u8],
        fields: &[&[u8]],
        tree: &mut Option<Self>,
    ) -> Result<Option<String>, Failure>;
}
