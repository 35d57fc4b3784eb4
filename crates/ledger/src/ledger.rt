// The calls. Their contracts speak of the levels and the moves: those say all that is kept.
ghost use Rattle.std.specs.Prelude.{◌≡◌, ℕ, ◌<◌, ◌≤◌, true, [], ◌∷◌, ◌++◌, length, is_ok, IfOk, if◌then◌else◌, Some, None, Ok, Err, ◌^◌, slice_index_or};
ghost use Rattle.ledger.specs.Answers.{Noted, Standing};
ghost use Rattle.ledger.specs.Book.{looked, puts_in, there};
ghost use Rattle.ledger.specs.Play.{FreshAllowed, Right, SomeFresh};
ghost use Rattle.ledger.specs.declared.answer.Failure.TheVariants.{NoSuchPlace};
ghost use Rattle.ledger.specs.declared.moves.Move.TheVariants as plays;

use crate::answer::{Failure, Verdict};
use crate::book::Ledger;
use crate::moves::Move;
use std::alloc::{AllocError, Global};
use tree::numbers::places;

impl Ledger {
    // Of an empty store of so many levels.
    pub fn new(heap: Global, levels: u32) -> Result<Ledger, AllocError>
        requires { levels ≤ 20 }
        ensures { IfOk result (λ l. (l.levels ≡ levels) × (l.moves.items ≡ [])) }
    {
        let standing = vec![in heap; None; places(levels) as usize]?;
        Ok(Ledger {
            levels,
            standing,
            seen: Vec::new(heap),
            moves: Vec::new(heap),
        })
    }

    // How many puts there were.
    pub fn puts(&self) -> usize
        ensures { result ≡ puts_in self.now.moves.items }
    {
        self.seen.len()
    }

    // Whether there is such a place.
    fn check(&self, place: u32) -> Result<(), Failure>
        ensures { elim result [ Ok _ ↦ place < 2 ^ self.now.levels | Err why ↦ (why ≡ NoSuchPlace) × (2 ^ self.now.levels ≤ place) ] }
    {
        if place >= places(self.levels) {
            return Err(Failure::NoSuchPlace);
        }
        Ok(())
    }

    // One move more, or none where there is no memory.
    fn note(&mut self, play: Move) -> Result<(), AllocError>
        requires { there self.old.levels play ≡ true }
        ensures levels { self.new.levels ≡ self.old.levels }
        ensures noted { self.new.moves.items ≡ (if is_ok result then self.old.moves.items ++ play ∷ [] else self.old.moves.items) }
    {
        self.moves.reserve(1)?;
        match play {
            Move::Put { place } => {
                let number = self.seen.len();
                self.seen.push(false)?;
                self.standing[place as usize] = Some(number);
            }
            Move::PutCut { .. } => self.seen.push(false)?,
            Move::Out { place } => self.standing[place as usize] = None,
            Move::OutCut { .. } => {}
            Move::Look => see(&self.standing, &mut self.seen),
        }
        self.moves.push_reserved(play);
        Ok(())
    }

    // A put made to its end: its number.
    pub fn put(&mut self, place: u32) -> Result<usize, Failure>
        ensures levels { self.new.levels ≡ self.old.levels }
        ensures noted { Noted self.old.levels place (plays.Put place) self.old.moves.items self.new.moves.items (λ number. number ≡ puts_in self.old.moves.items) result }
    {
        self.check(place)?;
        let number = self.puts();
        self.note(Move::Put { place })?;
        Ok(number)
    }

    // A put during which the power was cut, after so many of its records: its number. The places hold what they held.
    pub fn put_cut(&mut self, place: u32, records: u32) -> Result<usize, Failure>
        ensures levels { self.new.levels ≡ self.old.levels }
        ensures noted { Noted self.old.levels place (plays.PutCut place records) self.old.moves.items self.new.moves.items (λ number. number ≡ puts_in self.old.moves.items) result }
    {
        self.check(place)?;
        let number = self.puts();
        self.note(Move::PutCut { place, records })?;
        Ok(number)
    }

    // A taking out made to its end.
    pub fn out(&mut self, place: u32) -> Result<(), Failure>
        ensures levels { self.new.levels ≡ self.old.levels }
        ensures noted { Noted self.old.levels place (plays.Out place) self.old.moves.items self.new.moves.items (λ _. Unit {0}) result }
    {
        self.check(place)?;
        self.note(Move::Out { place })?;
        Ok(())
    }

    // A taking out during which the power was cut.
    pub fn out_cut(&mut self, place: u32, records: u32) -> Result<(), Failure>
        ensures levels { self.new.levels ≡ self.old.levels }
        ensures noted { Noted self.old.levels place (plays.OutCut place records) self.old.moves.items self.new.moves.items (λ _. Unit {0}) result }
    {
        self.check(place)?;
        self.note(Move::OutCut { place, records })?;
        Ok(())
    }

    // Somebody reads the chip.
    pub fn look(&mut self) -> Result<(), AllocError>
        ensures levels { self.new.levels ≡ self.old.levels }
        ensures noted { self.new.moves.items ≡ (if is_ok result then self.old.moves.items ++ plays.Look ∷ [] else self.old.moves.items) }
    {
        self.note(Move::Look)
    }

    // The put that stands in a place, if any: what the place holds by then, whatever the keys.
    pub fn standing(&self, place: u32) -> Result<Option<usize>, Failure>
        ensures { Standing self.now.levels self.now.moves.items place result }
    {
        self.check(place)?;
        Ok(self.standing[place as usize])
    }

    // Whether what a put put in can be opened with the chip's keys at all looks, and all that was ever written.
    pub fn verdict(&self, put: usize) -> Verdict
        ensures { Right self.now.levels self.now.moves.items put result }
    {
        if self.seen.get(put).copied().unwrap_or(false) {
            Verdict::Open
        } else {
            Verdict::Shut
        }
    }
}

// With keys that are all new the run of every play is one that may be, and there are such keys: a verdict says something of every play. This function does nothing: its contract is the theorem.
pub fn fresh_keys() -> u8
    ensures allowed { FreshAllowed }
    ensures some { SomeFresh }
{
    0
}

// A look sees the puts that stand in places.
fn see(standing: &[Option<usize>], seen: &mut [bool])
    requires { (p c : ℕ) → p < length standing.now → slice_index_or standing.now p None ≡ Some c → c < length seen.old }
    ensures { seen.new ≡ looked standing.now seen.old }
{
    for stands in standing {
        if let Some(put) = *stands {
            seen[put] = true;
        }
    }
}
