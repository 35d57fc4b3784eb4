// The calls: put, take out and read.
ghost use Rattle.std.specs.Prelude.{◌≡◌, ℕ, ◌^◌, ◌<◌, ◌≤◌, List, length, Some, None};
ghost use Rattle.change.specs.Nodes.{content_in};
ghost use Rattle.devices.specs.Events.{changes};
ghost use Rattle.storage.specs.Changes.{Changes, Allows};
ghost use Rattle.storage.specs.States.{state_of};
ghost use Rattle.storage.specs.Seats.{chip_in};
ghost use Rattle.storage.specs.Standing.{OfStanding};
ghost use Rattle.storage.specs.Reads.{Fills, Answers, Finds};
ghost use Rattle.storage.specs.Answers.{stopped, reading_of, read_answer};
ghost use Rattle.index.specs.Noted.{rows_of};
ghost use Rattle.index.specs.Rows.{content_row};

use crate::state::Store;
use change::check::can_hold;
use change::keys::Drawn;
use cipher::sealing_trait::Sealing;
use descent::failure::Failure;
use devices::chip::Chip;
use devices::medium::Medium;
use index::Index;
use sealing::key::Key;
use tree::answer::Refusal;
use tree::leaf::Leaf;

// The place that is changed; refused where there is no such place, or no content that a place can hold.
fn find(levels: u32, place: u32, content: Option<&[u8]>) -> Result<Leaf, Refusal>
    requires { levels ≤ 20 }
    ensures { Allows levels place (content_in content.entry) result }
{
    let leaf = Leaf::new(levels, place).ok_or(Refusal::NoSuchPlace)?;
    if !can_hold(content) {
        return Err(Refusal::NoSuchPlace);
    }
    Ok(leaf)
}

// The place that is read into a buffer of so many bytes; refused by the place and its row in the index.
fn find_content(index: &Index, levels: u32, place: u32, room: usize) -> Result<Leaf, Refusal>
    requires { levels ≤ 20 }
    ensures { Finds levels place room (content_row (rows_of index.now).contents place) result }
{
    let leaf = Leaf::new(levels, place).ok_or(Refusal::NoSuchPlace)?;
    let row = index.content(place).ok_or(Refusal::Nothing)?;
    if row.length as usize > room {
        return Err(Refusal::NoSuchPlace);
    }
    Ok(leaf)
}

impl<S: Sealing, M: Medium, C: Chip> Store<S, M, C> {
    // Reads a place into a buffer, from the chip's key down.
    pub fn read(&mut self, place: u32, buffer: &mut [u8]) -> Result<usize, Failure>
        ensures same { changes (M.log self.new.source.medium) ≡ changes (M.log self.old.source.medium) }
        ensures kept { (self.new.index ≡ self.old.index) × (self.new.seat ≡ self.old.seat) × (self.new.end ≡ self.old.end) × (self.new.levels ≡ self.old.levels) }
        ensures buffer { Fills buffer.old result buffer.new }
        ensures halted { chip_in C.holds self.old.seat ≡ None → reading_of result buffer.new ≡ stopped }
        ensures answer { OfStanding S.sealed self.old.levels (rows_of self.old.index) self.old.end (chip_in C.holds self.old.seat) (M.log self.old.source.medium) (M.log self.new.source.medium) (λ t. Answers (reading_of result buffer.new) (read_answer self.old.levels place (length buffer.old) t)) }
    {
        self.seat.ready()?;
        let leaf = find_content(&self.index, self.levels, place, buffer.len())?;
        self.work.read(
            &mut self.source,
            &self.index,
            leaf,
            self.seat.chip.key(),
            buffer,
        )
    }

    // A put or a taking out.
    fn change(
        &mut self,
        place: u32,
        content: Option<&[u8]>,
        keys: &mut [Key],
    ) -> Result<(), Failure>
        ensures levels { self.new.levels ≡ self.old.levels }
        ensures changes { Changes S.sealed self.old.levels place (content_in content.entry) (state_of M.log C.holds C.given self.old keys.old) result (state_of M.log C.holds C.given self.new keys.new) }
    {
        self.seat.ready()?;
        let leaf = find(self.levels, place, content)?;
        let last = self.seat.chip.number();
        self.records.clear();
        let number = self.work.prepare(
            &mut self.source,
            &self.index,
            leaf,
            content,
            Drawn { keys, last },
            self.seat.chip.key(),
            &mut self.records,
        )?;
        self.finish(keys, (number - last - 1) as usize, number)
    }

    // Puts a content in a place, whatever it held, with new keys.
    pub fn put(&mut self, place: u32, content: &[u8], keys: &mut [Key]) -> Result<(), Failure>
        ensures levels { self.new.levels ≡ self.old.levels }
        ensures changes { Changes S.sealed self.old.levels place (Some content.now) (state_of M.log C.holds C.given self.old keys.old) result (state_of M.log C.holds C.given self.new keys.new) }
    {
        self.change(place, Some(content), keys)
    }

    // Takes out what a place holds, or nothing, with new keys.
    pub fn take_out(&mut self, place: u32, keys: &mut [Key]) -> Result<(), Failure>
        ensures levels { self.new.levels ≡ self.old.levels }
        ensures changes { Changes S.sealed self.old.levels place None (state_of M.log C.holds C.given self.old keys.old) result (state_of M.log C.holds C.given self.new keys.new) }
    {
        self.change(place, None, keys)
    }
}
