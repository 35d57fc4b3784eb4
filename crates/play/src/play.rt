// A play: its changes so far, and who saw what.
ghost use Rattle.ledger.specs.Play.{Right};

use crate::apart::taken_apart;
use crate::deed::Deed;
use crate::replay::{Small, change, replay};
use crate::verdicts::Verdicts;
use descent::failure::Failure;
use ledger::answer::Verdict;
use ledger::book::Ledger;
use memory::medium::MemoryMedium;
use records::decode::decode;
use rehearsal::keys::draws;
use rehearsal::levels::Levels;
use rehearsal::readable::Written;
use std::alloc::{AllocError, Global};
use tree::answer::Refusal;

// The most bytes of a content.
const ROOM: usize = 4096;

// When the power is cut during a change.
#[derive(Clone, Copy)]
pub enum Stop {
    // After so many of its records, or all where it has fewer; before the chip gets its new key.
    Records(u32),
    // Right after the chip got its new key.
    Chip,
}

// What became of a change that was not refused; the number of the chip's key then. No Result: a stop was asked for, and is no error.
#[derive(Clone, Copy)]
pub enum Outcome {
    Made(u32),
    Stopped(u32),
}

#[derive(Drop)]
pub struct Play {
    heap: Global,
    levels: Levels,
    // The changes that lasted.
    deeds: Vec<Deed>,
    // How many keys were ever drawn.
    drawn: u32,
    // How many bytes the changes wrote, and those of the last.
    end: usize,
    last: Vec<u8>,
    // What is to come of the next change.
    stop: Option<Stop>,
    ledger: Ledger,
}

// How many bytes the first so many records have.
fn length_of(levels: u32, bytes: &[u8], count: u32) -> usize {
    let mut rest = bytes;
    // A cursor over records: an iterator over them would be a type of its own, and longer.
    for _ in 0..count {
        let Ok((_, after)) = decode(levels, rest) else {
            break;
        };
        rest = after;
    }
    bytes.len().saturating_sub(rest.len())
}

// What follows the first so many bytes of a medium.
fn bytes_after(heap: Global, medium: &MemoryMedium, end: usize) -> Result<Vec<u8>, Failure> {
    let rest = medium.bytes().get(end..).ok_or(Failure::Device)?;
    Ok(rest.to_vec(heap)?)
}

// Why the ledger notes nothing. No From: it would have to stand in the ledger or in descent, and neither knows of the other.
fn unnoted(why: ledger::answer::Failure) -> Failure {
    match why {
        ledger::answer::Failure::NoSuchPlace => Failure::Refused(Refusal::NoSuchPlace),
        ledger::answer::Failure::Memory => Failure::Memory,
    }
}

impl Play {
    // On an empty store.
    pub fn new(heap: Global, levels: Levels) -> Result<Play, AllocError> {
        let ledger = Ledger::new(heap, levels.count())?;
        Ok(Play {
            heap,
            levels,
            deeds: Vec::new(heap),
            drawn: 0,
            end: 0,
            last: Vec::new(heap),
            stop: None,
            ledger,
        })
    }

    // The power will be cut during the next change that is not refused.
    pub fn stop_next(&mut self, stop: Stop) {
        self.stop = Some(stop);
    }

    // The bytes that the last change wrote.
    pub fn bytes(&self) -> &[u8] {
        &self.last
    }

    // The records of the last change, in readable form, with the number of the root's key.
    pub fn written(&self, root: u32) -> Written<'_> {
        Written {
            levels: self.levels.count(),
            bytes: &self.last,
            root,
        }
    }

    // The store as it is now.
    fn store(&self) -> Result<Small, Failure> {
        let medium = MemoryMedium::new(Vec::new(self.heap));
        replay(self.heap, self.levels, medium, &self.deeds)
    }

    // Puts a content in a place.
    pub fn put(&mut self, place: u32, content: Vec<u8>) -> Result<Outcome, Failure> {
        self.change(Deed {
            place,
            content: Some(content),
            drawn: self.drawn,
        })
    }

    // Takes out what a place holds, or nothing.
    pub fn take_out(&mut self, place: u32) -> Result<Outcome, Failure> {
        self.change(Deed {
            place,
            content: None,
            drawn: self.drawn,
        })
    }

    // What a change writes, and the number of the chip's key then. Nothing changes.
    fn try_change(&self, deed: &Deed) -> Result<(Vec<u8>, u32), Failure> {
        let mut store = self.store()?;
        let answer = change(self.heap, self.levels, &mut store, deed);
        let (medium, root) = taken_apart(store);
        answer?;
        let bytes = bytes_after(self.heap, &medium, self.end)?;
        Ok((bytes, root))
    }

    // The number of the chip's key after a change during which the medium fails, with so many bytes of it left. A change is an append and a sync, and all those before are done.
    fn cut_off(&self, deed: &Deed, kept: usize) -> Result<u32, Failure> {
        let mut medium = MemoryMedium::new(Vec::new(self.heap));
        medium.fail_after((self.deeds.len() as u64).saturating_mul(2), kept);
        let mut store = replay(self.heap, self.levels, medium, &self.deeds)?;
        let answer = change(self.heap, self.levels, &mut store, deed);
        let (_, root) = taken_apart(store);
        match answer {
            Err(Failure::Stopped) => Ok(root),
            Err(why) => Err(why),
            Ok(()) => Err(Failure::Device),
        }
    }

    // A put or a taking out, with the power cut if that was said.
    fn change(&mut self, deed: Deed) -> Result<Outcome, Failure> {
        let drawn = self
            .drawn
            .checked_add(draws(self.levels.count(), &deed.content))
            .ok_or(Failure::Refused(Refusal::NumbersSpent))?;
        let (bytes, root) = self.try_change(&deed)?;
        let stop = self.stop.take();
        self.drawn = drawn;
        if let Some(Stop::Records(count)) = stop {
            let kept = length_of(self.levels.count(), &bytes, count);
            let root = self.cut_off(&deed, kept)?;
            self.note_cut(&deed, count)?;
            return Ok(Outcome::Stopped(root));
        }
        self.note(deed)?;
        self.end = self.end.saturating_add(bytes.len());
        self.last = bytes;
        match stop {
            Some(_) => Ok(Outcome::Stopped(root)),
            None => Ok(Outcome::Made(root)),
        }
    }

    // A change that was made is one of the play's.
    fn note(&mut self, deed: Deed) -> Result<(), Failure> {
        if deed.content.is_some() {
            self.ledger.put(deed.place).map_err(unnoted)?;
        } else {
            self.ledger.out(deed.place).map_err(unnoted)?;
        }
        self.deeds.push(deed)?;
        Ok(())
    }

    // A change that was cut off leaves the store as it was.
    fn note_cut(&mut self, deed: &Deed, records: u32) -> Result<(), Failure> {
        if deed.content.is_some() {
            self.ledger.put_cut(deed.place, records).map_err(unnoted)?;
        } else {
            self.ledger.out_cut(deed.place, records).map_err(unnoted)?;
        }
        Ok(())
    }

    // What a place holds.
    pub fn read(&self, place: u32) -> Result<Vec<u8>, Failure> {
        let mut store = self.store()?;
        let mut buffer = [0; ROOM];
        let reading = store.read(place, &mut buffer);
        let _ = store.into_devices();
        let content = &buffer[0..reading?];
        Ok(content.to_vec(self.heap)?)
    }

    // Somebody reads the chip: the number of its key.
    pub fn look(&mut self) -> Result<u32, Failure> {
        let (_, root) = taken_apart(self.store()?);
        self.ledger.look()?;
        Ok(root)
    }

    // Whether what a put put in can be opened with the chip's keys at all looks, and all that was ever written.
    pub fn verdict(&self, put: usize) -> Verdict
        ensures { Right self.now.ledger.levels self.now.ledger.moves.items put result }
    {
        self.ledger.verdict(put)
    }

    // The verdicts on all puts.
    pub fn verdicts(&self) -> Verdicts<'_> {
        Verdicts(&self.ledger)
    }
}
