// The power of a medium in memory, which goes off at a stop.
ghost use Rattle.std.specs.Prelude.{◌≡◌, ◌≢◌, Ok, Err, is_ok};
ghost use Rattle.memory.specs.Supplies.{Supplies, is_on, stopping, written};

use devices::fault::Fault;

// The operation after so many more fails; an append then leaves so many of its first bytes.
#[derive(Clone, Copy)]
pub(crate) struct Stop {
    pub(crate) after: u64,
    pub(crate) kept: usize,
}

#[derive(Clone, Copy)]
pub(crate) enum Power {
    // Until the stop that is to come, if there is one.
    On(Option<Stop>),
    Off,
}

// What there is for one operation: it is done, in part, or not at all.
#[derive(Clone, Copy)]
pub(crate) enum Supply {
    Full,
    Part(usize),
    Gone,
}

impl Supply {
    // How many of so many bytes are written.
    pub(crate) fn bytes(self, count: usize) -> usize
        ensures { result ≡ written self count }
    {
        match self {
            Supply::Full => count,
            Supply::Part(kept) => kept.min(count),
            Supply::Gone => 0,
        }
    }

    // A fault, unless the operation is done.
    pub(crate) fn full(self) -> Result<(), Fault>
        ensures { elim result [ Ok _ ↦ self ≡ Supply.Full | Err _ ↦ self ≢ Supply.Full ] }
    {
        match self {
            Supply::Full => Ok(()),
            Supply::Part(_) | Supply::Gone => Err(Fault),
        }
    }
}

impl Power {
    pub(crate) fn is_on(self) -> bool
        ensures { result ≡ is_on self }
    {
        match self {
            Power::On(_) => true,
            Power::Off => false,
        }
    }

    // Another stop is to come, where it is on.
    pub(crate) fn stop(&mut self, stop: Stop)
        ensures { self.new ≡ stopping stop self.old }
    {
        if self.is_on() {
            *self = Power::On(Some(stop));
        }
    }

    // One operation more.
    pub(crate) fn spend(&mut self) -> Supply
        ensures { Supplies result self.old self.new }
    {
        match *self {
            Power::On(None) => Supply::Full,
            Power::On(Some(Stop { after: 0, kept })) => {
                *self = Power::Off;
                Supply::Part(kept)
            }
            Power::On(Some(Stop { after, kept })) => {
                let after = after - 1;
                *self = Power::On(Some(Stop { after, kept }));
                Supply::Full
            }
            Power::Off => Supply::Gone,
        }
    }

    pub(crate) fn fail(&mut self)
        ensures { self.new ≡ Power.Off }
    {
        *self = Power::Off;
    }

    pub(crate) fn check(self) -> Result<(), Fault>
        ensures { is_ok result ≡ is_on self }
    {
        if self.is_on() { Ok(()) } else { Err(Fault) }
    }
}
