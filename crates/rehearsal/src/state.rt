// A small tree of keys, and its changes.
ghost use Rattle.std.specs.Prelude.{◌≡◌, ◌+◌, ◌^◌, ◌<◌, ◌≤◌, [], replicate, IfOk, Some, None};
ghost use Rattle.forgetting.specs.Change.{draws};
ghost use Rattle.change.specs.Nodes.{content_in};
ghost use Rattle.rehearsal.specs.Changes.{Recorded, Put, Taken, Changed};
ghost use Rattle.rehearsal.specs.Levels.{levels_of};

use crate::given::Given;
use crate::keys::draws;
use crate::levels::Levels;
use crate::numbers::Numbers;
use crate::readable::Written;
use change::change::change;
use change::failure::Failure;
use change::keys::Drawn;
use change::path::Path;
use cipher::transparent::Transparent;
use std::alloc::Global;
use tree::answer::Refusal;
use tree::leaf::Leaf;

// The bytes of a sealed key with its mark, and the most of a sealed content.
const PART: usize = 48;

const ROOM: usize = 4112;

// The key of each node is a number; keys are counted from 1 on.
#[derive(Drop)]
pub struct Rehearsal {
    heap: Global,
    levels: Levels,
    last: u32,
    numbers: Numbers,
    bytes: Vec<u8>,
}

impl Rehearsal {
    // A tree without keys.
    pub fn new(heap: Global, levels: Levels) -> Rehearsal
        ensures { (result.levels ≡ levels) × (result.last ≡ 0) × (result.numbers.0 ≡ replicate 16 None) × (result.bytes.items ≡ []) }
    {
        Rehearsal {
            heap,
            levels,
            last: 0,
            numbers: Numbers::none(),
            bytes: Vec::new(heap),
        }
    }

    // The records of the last change, in readable form.
    pub fn written(&self) -> Written<'_>
        ensures { (result.levels ≡ levels_of self.now.levels) × (result.bytes.now ≡ self.now.bytes.items) × (result.root ≡ self.now.last) }
    {
        Written {
            levels: self.levels.count(),
            bytes: &self.bytes,
            root: self.last,
        }
    }

    // The bytes of the last change.
    pub fn bytes(&self) -> &[u8]
        ensures { result.now ≡ self.now.bytes.items }
    {
        &self.bytes
    }

    // The records of a change at the end of a buffer, and the number of the root's new key.
    fn write(&self, leaf: Leaf, content: Option<&[u8]>, out: &mut Vec<u8>) -> Result<u32, Failure>
        requires { out.old.items ≡ [] }
        ensures { IfOk result (λ root. (root ≡ self.now.last + draws (content_in content.entry) leaf.levels) × Recorded leaf.levels leaf.place self.now.last (content_in content.entry) self.now.numbers.0 out.new.items) }
    {
        // A taking out seals no content, so it needs no room for one.
        let size = if content.is_some() { ROOM } else { 0 };
        let mut room = vec![in self.heap; 0; size]?;
        let count = draws(leaf.levels, &content);
        let given = Given::new(
            self.heap,
            &self.numbers,
            leaf.node(),
            leaf.levels,
            self.last,
            count,
        )?;
        let drawn = Drawn {
            keys: &given.keys.0,
            last: self.last,
        };
        let path = Path {
            levels: leaf.levels,
            place: leaf.place,
            siblings: &given.siblings.0,
        };
        change(
            &mut Transparent,
            path,
            content,
            drawn,
            &mut [0; PART],
            &mut room,
            out,
        )
    }

    // Puts a content in a place, or takes out what it holds: the number of the root's new key.
    fn change(&mut self, place: u32, content: Option<&[u8]>) -> Result<u32, Failure>
        ensures { Changed place (content_in content.entry) self.old result self.new }
    {
        let leaf = Leaf::new(self.levels.count(), place).ok_or(Refusal::NoSuchPlace)?;
        let mut out = Vec::new(self.heap);
        let root = self.write(leaf, content, &mut out)?;
        // The last number before those of the nodes above; where something was put in, the place's node has it.
        let number = root - leaf.levels;
        self.numbers.give(leaf.node(), content.and(Some(number)));
        self.numbers.climb(leaf.node(), leaf.levels, number);
        self.last = root;
        self.bytes = out;
        Ok(root)
    }

    // Puts a content in a place: the number of the root's new key.
    pub fn put(&mut self, place: u32, content: &[u8]) -> Result<u32, Failure>
        ensures { Put place content.now self.old result self.new }
    {
        self.change(place, Some(content))
    }

    // Takes out what a place holds, or nothing: the same.
    pub fn take_out(&mut self, place: u32) -> Result<u32, Failure>
        ensures { Taken place self.old result self.new }
    {
        self.change(place, None)
    }
}
