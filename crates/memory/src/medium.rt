// A medium in memory.
ghost use Rattle.std.specs.Prelude.{◌≡◌, ℕ, ◌+◌, ◌≤◌, true, false, List, [], ◌∷◌, ◌++◌, length, take, Some, None};
ghost use Rattle.devices.specs.Events.{appended, synced, held, Faithful, Left};
ghost use Rattle.memory.specs.Stops.{is_faithful, Whole, Lasting};
ghost use Rattle.memory.specs.Supplies.{is_on, stopping};

use crate::power::{Power, Stop};
use devices::fault::Fault;
use devices::medium::Medium;
use trace::trace::Trace;

// `lasting`: how many of its bytes a stop can't take away.
#[derive(Drop)]
pub struct MemoryMedium {
    bytes: Vec<u8>,
    lasting: usize,
    power: Power,
    trace: Trace,
    ghost faithful: { is_faithful trace.asked ≡ true },
    ghost whole: { Whole (is_on power) bytes.items trace.asked },
    ghost left: { Lasting lasting bytes.items trace.asked },
}

impl MemoryMedium {
    // A medium to which these bytes were added, and then made to last.
    pub fn new(bytes: Vec<u8>) -> MemoryMedium
        ensures log { result.trace.asked ≡ synced ∷ (appended bytes.items ∷ []) }
        ensures value { result.bytes.items ≡ bytes.items }
        ensures power { result.power ≡ Power.On None }
    {
        let lasting = bytes.len();
        let trace = Trace::new().appended(&bytes).synced();
        MemoryMedium {
            bytes,
            lasting,
            power: Power::On(None),
            trace,
        }
    }

    // The power goes off at an operation that changes the medium: the next one after so many that are still done. An append then leaves so many of its first bytes; a sync and a cut are not done. All that is asked later fails.
    pub fn fail_after(&mut self, done: u64, kept: usize)
        ensures stop { self.new.power ≡ stopping (record { after = done; kept = kept }) self.old.power }
        ensures bytes { self.new.bytes ≡ self.old.bytes }
        ensures trace { self.new.trace ≡ self.old.trace }
    {
        self.power.stop(Stop { after: done, kept });
    }

    // Whether nothing failed yet.
    pub fn is_on(&self) -> bool
        ensures { result ≡ is_on self.now.power }
    {
        self.power.is_on()
    }

    // What is there now: all that was asked, while the power is on. Whatever was read is what was there.
    pub fn bytes(&self) -> &[u8]
        ensures value { result.now ≡ self.now.bytes.items }
        ensures whole { is_on self.now.power ≡ true → held [] self.now.trace.asked ≡ result.now }
        ensures faithful { Faithful [] self.now.trace.asked }
    {
        self.bytes.as_slice()
    }

    // What a stop leaves: all that lasts, and so many bytes of what followed.
    pub fn left(self, more: usize) -> Vec<u8>
        ensures { Left [] self.trace.asked result.items }
    {
        let MemoryMedium {
            mut bytes,
            lasting,
            power: _,
            trace: _,
        } = self;
        bytes.truncate(lasting.saturating_add(more));
        bytes
    }
}

impl Medium for MemoryMedium {
    ghost log = { λ m. m.trace.asked };

    fn read_at(&mut self, offset: u64, buffer: &mut [u8]) -> Result<(), Fault> {
        self.power.check()?;
        let rest = self.bytes.get(offset as usize..).ok_or(Fault)?;
        let bytes = rest.get(..buffer.len()).ok_or(Fault)?;
        buffer.copy_from_slice(bytes);
        self.trace = self.trace.got(offset, buffer);
        Ok(())
    }

    fn append(&mut self, bytes: &[u8]) -> Result<(), Fault> {
        self.trace = self.trace.appended(bytes);
        let count = self.power.spend().bytes(bytes.len());
        if self.bytes.extend_from_slice(&bytes[0..count]).is_err() {
            self.power.fail();
        }
        self.power.check()
    }

    fn sync(&mut self) -> Result<(), Fault> {
        self.power.spend().full()?;
        self.lasting = self.bytes.len();
        self.trace = self.trace.synced();
        Ok(())
    }

    fn cut(&mut self, length: u64) -> Result<(), Fault> {
        self.trace = self.trace.cut(length);
        self.power.spend().full()?;
        let length = length as usize;
        self.bytes.truncate(length);
        self.lasting = self.lasting.min(length);
        Ok(())
    }
}
