// A device did not do what it was asked.
use std::io;

#[derive(Clone, Copy, PartialEq, Eq, Debug)]
pub struct Fault;

impl From<io::Error> for Fault {
    fn from(_error: io::Error) -> Fault {
        Fault
    }
}
