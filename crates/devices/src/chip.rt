// A chip: it holds one key with its number, and can be given another in place of it.
ghost use Rattle.std.specs.Prelude.{◌≡◌, ℕ, List};
ghost use Rattle.forgetting.specs.Change.{Numbered};
ghost use Rattle.devices.specs.Given.{Given, Gives, given_now};

use crate::fault::Fault;
use crate::medium::Medium;
use sealing::key::Key;

pub trait Chip: Sized {
    // The key that it holds, with its number.
    ghost holds: { Self → Numbered };

    // What it was given, the newest first.
    ghost given: { Self → List Given };

    fn number(&self) -> u32
        ensures { result ≡ (holds self.now).number };

    fn key(&self) -> &Key
        ensures { result.now.bytes ≡ (holds self.now).bytes };

    // Gives it a key with its number in place of the one that it holds, beside a medium; where it fails, it holds one of the two.
    fn replace<M: Medium>(&mut self, key: &Key, number: u32, medium: &M) -> Result<(), Fault>
        ensures { Gives holds given self.old (given_now number key.now.bytes (M.log medium.now)) result self.new };
}
