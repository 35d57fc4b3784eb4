// A medium: a string of bytes that grows at its end.
ghost use Rattle.std.specs.Prelude.{◌≡◌, ℕ, List, ◌∷◌, length, Ok, Err};
ghost use Rattle.devices.specs.Events.{Event, appended, synced, cut, got};

use crate::fault::Fault;

pub trait Medium {
    // What was asked of it and what it answered, the newest first.
    ghost log: { Self → List Event };

    // Reads the bytes from an offset on into a buffer, as many as that has; where it fails, nothing says what the buffer holds.
    fn read_at(&mut self, offset: u64, buffer: &mut [u8]) -> Result<(), Fault>
        ensures { elim result [ Ok _ ↦ log self.new ≡ got offset buffer.new ∷ log self.old | Err _ ↦ log self.new ≡ log self.old ] };

    // Adds bytes at the end; where it fails, some first part of them may be there.
    fn append(&mut self, bytes: &[u8]) -> Result<(), Fault>
        ensures { log self.new ≡ appended bytes.now ∷ log self.old };

    // Makes all that was asked so far last; where it fails, nothing says that it does.
    fn sync(&mut self) -> Result<(), Fault>
        ensures { elim result [ Ok _ ↦ log self.new ≡ synced ∷ log self.old | Err _ ↦ log self.new ≡ log self.old ] };

    // Cuts off all bytes from a length on; where it fails, they may be there or not.
    fn cut(&mut self, length: u64) -> Result<(), Fault>
        ensures { log self.new ≡ cut «length» ∷ log self.old };
}
