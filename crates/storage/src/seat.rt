// The chip's seat in the store.
ghost use Rattle.std.specs.Prelude.{◌≡◌, Ok, Err};

use descent::failure::Failure;

#[derive(Clone, Copy, PartialEq, Eq, Debug)]
pub enum Condition {
    // The chip can be used.
    Ready,
    // A device failed in the middle of a change: nothing says which key the chip has, and no call is answered before the store comes up again.
    Halted,
}

#[derive(Drop)]
pub struct Seat<C> {
    pub chip: C,
    pub condition: Condition,
}

impl<C> Seat<C> {
    // Stopped, unless the chip can be used.
    pub(crate) fn ready(&self) -> Result<(), Failure>
        ensures { elim result [ Ok _ ↦ self.now.condition ≡ Condition.Ready | Err why ↦ (self.now.condition ≡ Condition.Halted) × (why ≡ Failure.Stopped) ] }
    {
        match self.condition {
            Condition::Ready => Ok(()),
            Condition::Halted => Err(Failure::Stopped),
        }
    }
}
