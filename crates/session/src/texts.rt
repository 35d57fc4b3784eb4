// What is answered, in words.
use descent::failure::Failure;
use std::alloc::AllocError;
use std::fmt;
use tree::answer::Refusal;

// Why a command is not done.
#[derive(Clone, Copy)]
pub(crate) enum Undone {
    // It has another form than this.
    Malformed(&'static str),
    // The store does not do it.
    Failed(Failure),
    // There is no memory for the answer.
    Memory,
}

impl From<Failure> for Undone {
    fn from(failure: Failure) -> Undone {
        Undone::Failed(failure)
    }
}

impl From<AllocError> for Undone {
    fn from(_error: AllocError) -> Undone {
        Undone::Memory
    }
}

// A refusal in words. The faults of fields say it in other words; both are printed, so both stay.
fn why(refusal: Refusal) -> &'static str {
    match refusal {
        Refusal::NoSuchPlace => "no such place, or no content that a place can hold",
        Refusal::Nothing => "nothing is there",
        Refusal::DoesNotOpen => "a sealed thing doesn't open",
        Refusal::Old => "the medium is older than the chip",
        Refusal::Damaged => "the medium is damaged",
        Refusal::FewKeys => "too few keys were handed in",
        Refusal::NumbersSpent => "no numbers are left for keys",
    }
}

impl fmt::Display for Undone {
    fn fmt<W: fmt::Write>(&self, f: &mut fmt::Formatter<W>) -> fmt::Result {
        match *self {
            Undone::Malformed(form) => write!(f, "malformed: {form}"),
            Undone::Failed(Failure::Refused(refusal)) => {
                write!(f, "refused {}: {}", refusal.number(), why(refusal))
            }
            Undone::Failed(Failure::Device) => f.write_str("failed: the medium can't be read"),
            Undone::Failed(Failure::Stopped) => {
                f.write_str("stopped: a device failed in the middle of a change")
            }
            Undone::Failed(Failure::Memory) | Undone::Memory => {
                f.write_str("failed: there is no memory")
            }
        }
    }
}
