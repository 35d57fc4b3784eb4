// Why a change is not written.
ghost use Rattle.std.specs.Prelude.{◌≡◌};
ghost use Rattle.change.specs.declared.failure.Failure.TheVariants as fails;

use std::alloc::AllocError;
use tree::answer::Refusal;

#[derive(Clone, Copy, PartialEq, Eq, Debug)]
pub enum Failure {
    Refused(Refusal),
    // There was no memory for the records.
    Memory,
}

impl From<Refusal> for Failure {
    ghost from_gives = { λ why r. r ≡ fails.Refused why };

    fn from(why: Refusal) -> Failure {
        Failure::Refused(why)
    }
}

impl From<AllocError> for Failure {
    ghost from_gives = { λ _ r. r ≡ fails.Memory };

    fn from(_error: AllocError) -> Failure {
        Failure::Memory
    }
}
