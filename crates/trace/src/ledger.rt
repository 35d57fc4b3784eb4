// What a chip was given, as no code holds it.
ghost use Rattle.std.specs.Prelude.{◌≡◌, List, [], ◌∷◌};
ghost use Rattle.std.specs.Borrow.{ftrue};
ghost use Rattle.devices.specs.Given.{Given, given_now};

use devices::medium::Medium;
use sealing::key::Key;
use std::marker::Model;

// The newest key first. It stands beside `Trace`, since what a generic struct holds has a type of code, and no code has these.
pub struct Ledger {
    ghost keys: { List Given },
}

impl Model for Ledger {
    ghost also_owns = { λ _. ftrue };
}

impl Drop for Ledger {
    fn drop(self) {
        let Ledger {} = self;
    }
}

// The ledger after a key more, given beside a medium.
fn longer<M: Medium>(old: &Ledger, number: u32, key: &Key, medium: &M) -> Ledger
    ensures { result.keys ≡ given_now number key.now.bytes (M.log medium.now) ∷ old.now.keys }
{
    Ledger {}
}

// A ledger of no key.
fn none() -> Ledger
    ensures { result.keys ≡ [] }
{
    Ledger {}
}

impl Ledger {
    pub fn new() -> Ledger
        ensures { result.keys ≡ [] }
    {
        none()
    }

    pub fn given<M: Medium>(&self, number: u32, key: &Key, medium: &M) -> Ledger
        ensures { result.keys ≡ given_now number key.now.bytes (M.log medium.now) ∷ self.now.keys }
    {
        longer(self, number, key, medium)
    }
}
