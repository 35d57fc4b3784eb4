// Why a line has no bytes for an answer.
ghost use Rattle.std.specs.Prelude.{◌≡◌};
ghost use Rattle.fields.specs.Faults.{unmade, unstored};
ghost use Rattle.fields.specs.declared.faults.Failure.TheVariants as fails;
ghost use Rattle.fields.specs.declared.faults.Malformed.TheVariants.{FieldCount};
ghost use Rattle.fields.specs.declared.faults.Refusal.TheVariants as refusals;

use crate::field::Field;
use chacha20::stream::TooLong;
use change::failure::Failure as Unmade;
use descent::failure::Failure as Unstored;
use sealing::opening::DoesNotOpen;
use std::alloc::AllocError;
use std::fmt;
use tree::answer::Refusal as Unchanged;

// Why a line is no command.
#[derive(Clone, Copy, PartialEq, Eq, Debug)]
pub enum Malformed {
    UnknownCommand,
    FieldCount { expected: usize },
    NotHex { field: Field },
    Length { field: Field, expected: usize },
    NotACounter { field: Field },
    NotPlaces { field: Field },
}

impl fmt::Display for Malformed {
    fn fmt<W: fmt::Write>(&self, f: &mut fmt::Formatter<W>) -> fmt::Result {
        match self {
            Malformed::UnknownCommand => f.write_str("malformed: unknown command"),
            Malformed::FieldCount { expected } => write!(
                f,
                "malformed: expected {expected} fields"
            ),
            Malformed::NotHex { field } => write!(f, "malformed: {field} is not hex"),
            Malformed::Length { field, expected } => {
                write!(f, "malformed: {field} must be {expected} bytes")
            }
            Malformed::NotACounter { field } => {
                let most = u32::MAX;
                write!(f, "malformed: {field} must be a number up to {most}")
            }
            Malformed::NotPlaces { field } => write!(f, "malformed: {field} must be 2, 4 or 8"),
        }
    }
}

// Why a command is not carried out.
#[derive(Clone, Copy, PartialEq, Eq, Debug)]
pub enum Refusal {
    DoesNotOpen,
    TooLong,
    NoTree,
    Change(Unchanged),
}

// Why a change is refused. The texts of session say it in other words; both are printed, so both stay.
fn reason(why: Unchanged) -> &'static str {
    match why {
        Unchanged::NoSuchPlace => "no such place, or a content of 0 or more than 4096 bytes",
        Unchanged::Nothing => "nothing is there",
        Unchanged::DoesNotOpen => "does not open",
        Unchanged::Old => "old",
        Unchanged::Damaged => "damaged",
        Unchanged::FewKeys => "too few keys",
        Unchanged::NumbersSpent => "numbers are spent",
    }
}

impl fmt::Display for Refusal {
    fn fmt<W: fmt::Write>(&self, f: &mut fmt::Formatter<W>) -> fmt::Result {
        match self {
            Refusal::DoesNotOpen => f.write_str("refused 3: does not open"),
            Refusal::TooLong => f.write_str("refused: too long"),
            Refusal::NoTree => f.write_str("refused: no tree"),
            Refusal::Change(why) => {
                let number = why.number();
                let reason = reason(*why);
                write!(f, "refused {number}: {reason}")
            }
        }
    }
}

// Why a line has no bytes for an answer.
#[derive(Clone, Copy, PartialEq, Eq, Debug)]
pub enum Failure {
    Malformed(Malformed),
    Refused(Refusal),
    Memory,
}

// A command has so many fields, and the line another number.
pub fn miscounted(expected: usize) -> Failure
    ensures { result ≡ fails.Malformed (FieldCount expected) }
{
    Malformed::FieldCount { expected }.into()
}

impl From<Malformed> for Failure {
    ghost from_gives = { λ m r. r ≡ fails.Malformed m };

    fn from(malformed: Malformed) -> Failure {
        Failure::Malformed(malformed)
    }
}

impl From<Refusal> for Failure {
    ghost from_gives = { λ why r. r ≡ fails.Refused why };

    fn from(refusal: Refusal) -> Failure {
        Failure::Refused(refusal)
    }
}

impl From<Unchanged> for Failure {
    ghost from_gives = { λ why r. r ≡ fails.Refused (refusals.Change why) };

    fn from(why: Unchanged) -> Failure {
        Failure::Refused(Refusal::Change(why))
    }
}

impl From<TooLong> for Failure {
    ghost from_gives = { λ _ r. r ≡ fails.Refused refusals.TooLong };

    fn from(_too_long: TooLong) -> Failure {
        Failure::Refused(Refusal::TooLong)
    }
}

impl From<DoesNotOpen> for Failure {
    ghost from_gives = { λ _ r. r ≡ fails.Refused refusals.DoesNotOpen };

    fn from(_does_not_open: DoesNotOpen) -> Failure {
        Failure::Refused(Refusal::DoesNotOpen)
    }
}

impl From<Unmade> for Failure {
    ghost from_gives = { λ why r. r ≡ unmade why };

    fn from(why: Unmade) -> Failure {
        match why {
            Unmade::Refused(why) => why.into(),
            Unmade::Memory => Failure::Memory,
        }
    }
}

// Devices in memory fail only where there is no memory.
impl From<Unstored> for Failure {
    ghost from_gives = { λ why r. r ≡ unstored why };

    fn from(why: Unstored) -> Failure {
        match why {
            Unstored::Refused(why) => why.into(),
            Unstored::Memory | Unstored::Device | Unstored::Stopped => Failure::Memory,
        }
    }
}

impl From<AllocError> for Failure {
    ghost from_gives = { λ _ r. r ≡ fails.Memory };

    fn from(_error: AllocError) -> Failure {
        Failure::Memory
    }
}
