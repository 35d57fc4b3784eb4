// What the ledger answers.
ghost use Rattle.std.specs.Prelude.{◌≡◌};
ghost use Rattle.ledger.specs.declared.answer.Failure.TheVariants.{Memory};

use std::alloc::AllocError;
use std::fmt;

// Why a move is not made.
#[derive(Clone, Copy, PartialEq, Eq, Debug)]
pub enum Failure {
    NoSuchPlace,
    Memory,
}

impl From<AllocError> for Failure {
    ghost from_gives = { λ _ why. why ≡ Memory };

    fn from(_error: AllocError) -> Failure {
        Failure::Memory
    }
}

// Whether what a put put in can be opened.
#[derive(Clone, Copy, PartialEq, Eq, Debug)]
pub enum Verdict {
    Open,
    Shut,
}

impl fmt::Display for Verdict {
    fn fmt<W: fmt::Write>(&self, f: &mut fmt::Formatter<W>) -> fmt::Result {
        f.write_str(match self {
            Verdict::Open => "open",
            Verdict::Shut => "shut",
        })
    }
}
