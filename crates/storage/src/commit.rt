// Making a change last.
ghost use Rattle.std.specs.Prelude.{◌≡◌, ℕ, ◌<◌, ◌≤◌, List, ◌∷◌, length, Some, None, Ok, Err};
ghost use Rattle.change.specs.Nodes.{bytes_in};
ghost use Rattle.devices.specs.Events.{appended, synced};
ghost use Rattle.devices.specs.Given.{given_now};
ghost use Rattle.storage.specs.Seats.{chip_in, given_in, Writes, Turns, Commits, Finishes};
ghost use Rattle.storage.specs.States.{state_of};

use crate::seat::{Condition, Seat};
use crate::state::Store;
use change::keys::wipe_keys;
use descent::failure::Failure;
use devices::chip::Chip;
use devices::medium::Medium;
use sealing::key::Key;

// Records at the end of the medium, and synced.
fn write_records<M: Medium>(medium: &mut M, records: &[u8]) -> Result<(), Failure>
    ensures { Writes records.now (M.log medium.old) result (M.log medium.new) }
{
    medium.append(records).map_err(|_| Failure::Stopped)?;
    medium.sync().map_err(|_| Failure::Stopped)
}

// The chip gets a key in place of the one that it holds.
fn turn_chip<M: Medium, C: Chip>(
    medium: &M,
    seat: &mut Seat<C>,
    key: &Key,
    number: u32,
) -> Result<(), Failure>
    ensures { Turns C.holds C.given (given_now number key.now.bytes (M.log medium.now)) seat.old result seat.new }
{
    seat.ready()?;
    // The seat is told, too, so `?` alone would not do.
    if seat.chip.replace(key, number, medium).is_err() {
        seat.condition = Condition::Halted;
        return Err(Failure::Stopped);
    }
    Ok(())
}

// The records of a change, then a sync, and only then the chip. Where a device fails, the store stops.
pub(crate) fn commit<M: Medium, C: Chip>(
    medium: &mut M,
    seat: &mut Seat<C>,
    records: &[u8],
    key: &Key,
    number: u32,
) -> Result<(), Failure>
    ensures { Commits C.holds C.given records.now (record { number = number; bytes = key.now.bytes }) (M.log medium.old) (M.log medium.new) seat.old result seat.new }
{
    if let Err(why) = write_records(medium, records) {
        seat.condition = Condition::Halted;
        return Err(why);
    }
    turn_chip(medium, seat, key, number)
}

// The most bytes that a medium can have.
const MOST: u64 = 1 << 62;

impl<S, M: Medium, C: Chip> Store<S, M, C> {
    // Makes a change last whose records are written, with key `i` for the chip, wipes all keys, and notes what was written. With `number` alone, the chip would have to be asked for its last number once more.
    pub(crate) fn finish(&mut self, keys: &mut [Key], i: usize, number: u32) -> Result<(), Failure>
        requires { i < length keys.old }
        ensures levels { self.new.levels ≡ self.old.levels }
        ensures finishes { Finishes self.old.levels self.old.records.items (record { number = number; bytes = bytes_in keys.old i }) (state_of M.log C.holds C.given self.old keys.old) result (state_of M.log C.holds C.given self.new keys.new) }
    {
        let count = self.records.len() as u64;
        if count >= MOST || self.end >= MOST {
            return Err(Failure::Device);
        }
        let done = commit(
            &mut self.source.medium,
            &mut self.seat,
            &self.records,
            &keys[i],
            number,
        );
        wipe_keys(keys);
        done?;
        self.index.note_all(self.levels, self.end, &self.records);
        self.end += count;
        Ok(())
    }
}
