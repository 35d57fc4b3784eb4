// A store made of empty devices, and taken apart again.
ghost use Rattle.std.specs.Prelude.{◌≡◌, ℕ, ◌≤◌, List, [], replicate, IfOk, Some, Ok, Err, vec_len};
ghost use Rattle.forgetting.specs.Tree.{bare};
ghost use Rattle.index.specs.Rows.{Empty};
ghost use Rattle.devices.specs.Events.{held};
ghost use Rattle.index.specs.Noted.{rows_of};
ghost use Rattle.storage.specs.Seats.{chip_in};
ghost use Rattle.storage.specs.Standing.{Standing, NotBegun};

use crate::seat::{Condition, Seat};
use crate::state::Store;
use crate::work::Work;
use cipher::sealing_trait::Sealing;
use descent::failure::Failure;
use descent::source::Source;
use devices::chip::Chip;
use devices::medium::Medium;
use index::Index;
use std::alloc::{AllocError, Global};
use tree::answer::Refusal;

// The most levels that a store can have.
pub const MOST_LEVELS: u32 = 19;

// The index and the working memory of a store of so many levels.
fn make_parts(heap: Global, levels: u32) -> Result<(Index, Work), AllocError>
    requires { levels ≤ 19 }
    ensures { IfOk result (λ parts. Empty levels (rows_of parts.0).keys (rows_of parts.0).contents × (vec_len parts.1.siblings ≡ levels)) }
{
    let index = Index::new(heap, levels)?;
    let work = Work::new(heap, levels)?;
    Ok((index, work))
}

impl<S: Sealing + Drop, M: Medium + Drop, C: Chip + Drop> Store<S, M, C> {
    // An empty store over an empty medium and a chip that has not been given a key yet. One that has is newer than the medium: the medium is old. There is no store of no levels, or of more than 19.
    pub fn new(heap: Global, cipher: S, medium: M, chip: C, levels: u32) -> Result<Self, Failure>
        ensures { elim result [ Ok s ↦ (s.levels ≡ levels) × (chip_in C.holds s.seat ≡ Some (C.holds chip)) × ((first : List ℕ) → held first (M.log medium) ≡ [] → C.holds chip ≡ record { number = 0; bytes = replicate 32 0 } → Standing S.sealed levels first (M.log s.source.medium) (rows_of s.index) s.end (C.holds chip) bare) | Err why ↦ NotBegun levels (C.holds chip).number why ] }
    {
        if levels < 1 || levels > MOST_LEVELS {
            return Err(Failure::Refused(Refusal::NoSuchPlace));
        }
        if chip.number() != 0 {
            return Err(Failure::Refused(Refusal::Old));
        }
        let (index, work) = make_parts(heap, levels)?;
        Ok(Store {
            source: Source { cipher, medium },
            seat: Seat {
                chip,
                condition: Condition::Ready,
            },
            index,
            levels,
            end: 0,
            work,
            records: Vec::new(heap),
        })
    }
}

impl<S: Sealing + Drop, M: Medium, C: Chip> Store<S, M, C> {
    // The devices again; nothing is left of the store.
    pub fn into_devices(self) -> (M, Seat<C>)
        ensures { (result.0 ≡ self.source.medium) × (result.1 ≡ self.seat) }
    {
        let Store {
            source,
            seat,
            index: _,
            levels: _,
            end: _,
            work,
            records: _,
        } = self;
        let Source { cipher: _, medium } = source;
        work.let_go();
        (medium, seat)
    }
}
