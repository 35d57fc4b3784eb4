// Why a chip's file can't be used.
ghost use Rattle.std.specs.Prelude.{◌≡◌};
ghost use Rattle.files.specs.declared.unopened.Unopened.TheVariants.{Unreadable, Memory};

use std::alloc::AllocError;
use std::error::Error;
use std::{fmt, io};

#[derive(Clone, Copy, PartialEq, Eq, Debug)]
pub enum Unopened {
    Unreadable,
    Length,
    KeyWithoutNumber,
    Memory,
}

impl From<AllocError> for Unopened {
    ghost from_gives = { λ _ why. why ≡ Memory };

    fn from(_error: AllocError) -> Unopened {
        Self::Memory
    }
}

impl From<io::Error> for Unopened {
    ghost from_gives = { λ _ why. why ≡ Unreadable };

    fn from(_error: io::Error) -> Unopened {
        Self::Unreadable
    }
}

impl fmt::Display for Unopened {
    fn fmt<W: fmt::Write>(&self, f: &mut fmt::Formatter<W>) -> fmt::Result {
        f.write_str(match self {
            Unopened::Unreadable => "the chip's file can't be read",
            Unopened::Length => "the chip's file isn't 36 bytes long",
            Unopened::KeyWithoutNumber => "the chip's file has a key with the number 0",
            Unopened::Memory => "there is no memory for the chip",
        })
    }
}

impl Error for Unopened {}
