// Why a call of the store has no answer.
ghost use Rattle.std.specs.Prelude.{◌≡◌};
ghost use Rattle.tree.specs.declared.answer.Refusal.TheVariants as refusals;
ghost use Rattle.descent.specs.Failures.{unwritten};
ghost use Rattle.descent.specs.declared.failure.Failure.TheVariants as fails;

use change::failure::Failure as Unwritten;
use devices::fault::Fault;
use sealing::opening::DoesNotOpen;
use std::alloc::{AllocError, AllocFailed};
use tree::answer::Refusal;

#[derive(Clone, Copy, PartialEq, Eq, Debug)]
pub enum Failure {
    // Refused by its number.
    Refused(Refusal),
    // There was no memory.
    Memory,
    // A device failed.
    Device,
    // A device failed in the middle of a change, and the store has not come up since.
    Stopped,
}

impl From<Refusal> for Failure {
    ghost from_gives = { λ why r. r ≡ fails.Refused why };

    fn from(why: Refusal) -> Failure {
        Failure::Refused(why)
    }
}

impl From<DoesNotOpen> for Failure {
    ghost from_gives = { λ _ r. r ≡ fails.Refused refusals.DoesNotOpen };

    fn from(_error: DoesNotOpen) -> Failure {
        Failure::Refused(Refusal::DoesNotOpen)
    }
}

impl From<AllocError> for Failure {
    ghost from_gives = { λ _ r. r ≡ fails.Memory };

    fn from(_error: AllocError) -> Failure {
        Failure::Memory
    }
}

// What was not stored is let go.
impl<T: Drop> From<AllocFailed<T>> for Failure {
    ghost from_gives = { λ _ r. r ≡ fails.Memory };

    fn from(_error: AllocFailed<T>) -> Failure {
        Failure::Memory
    }
}

impl From<Unwritten> for Failure {
    ghost from_gives = { λ why r. r ≡ unwritten why };

    fn from(why: Unwritten) -> Failure {
        match why {
            Unwritten::Refused(why) => Failure::Refused(why),
            Unwritten::Memory => Failure::Memory,
        }
    }
}

impl From<Fault> for Failure {
    ghost from_gives = { λ _ r. r ≡ fails.Device };

    fn from(_fault: Fault) -> Failure {
        Failure::Device
    }
}
