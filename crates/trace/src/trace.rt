// What was asked of a medium and what it answered, as no code holds it.
ghost use Rattle.std.specs.Prelude.{◌≡◌, List, [], ◌∷◌};
ghost use Rattle.std.specs.Borrow.{ftrue};
ghost use Rattle.devices.specs.Events.{Event, appended, synced, cut, got};
ghost use Rattle.trace.specs.Asked.{event};

use crate::asked::Asked;
use std::marker::Model;

// The newest event first.
pub struct Trace {
    ghost asked: { List Event },
}

impl Model for Trace {
    ghost also_owns = { λ _. ftrue };
}

impl Drop for Trace {
    fn drop(self) {
        let Trace {} = self;
    }
}

// The trace after one event more.
fn longer(old: &Trace, asked: &Asked<'_>) -> Trace
    ensures { result.asked ≡ event asked.now ∷ old.now.asked }
{
    Trace {}
}

// A trace of no event.
fn none() -> Trace
    ensures { result.asked ≡ [] }
{
    Trace {}
}

impl Trace {
    pub fn new() -> Trace
        ensures { result.asked ≡ [] }
    {
        none()
    }

    pub fn appended(&self, bytes: &[u8]) -> Trace
        ensures { result.asked ≡ appended bytes.now ∷ self.now.asked }
    {
        longer(self, &Asked::Appended(bytes))
    }

    pub fn synced(&self) -> Trace
        ensures { result.asked ≡ synced ∷ self.now.asked }
    {
        longer(self, &Asked::Synced)
    }

    pub fn cut(&self, length: u64) -> Trace
        ensures { result.asked ≡ cut «length» ∷ self.now.asked }
    {
        longer(self, &Asked::Cut(length))
    }

    pub fn got(&self, offset: u64, bytes: &[u8]) -> Trace
        ensures { result.asked ≡ got offset bytes.now ∷ self.now.asked }
    {
        longer(self, &Asked::Got(offset, bytes))
    }
}
