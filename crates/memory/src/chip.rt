// A chip in memory.
ghost use Rattle.std.specs.Prelude.{◌≡◌, [], replicate, IfOk, Some, None};
ghost use Rattle.slot.specs.Held.{held};
ghost use Rattle.devices.specs.Given.{Gives, given_now};
ghost use Rattle.memory.specs.Told.{Told};

use devices::chip::Chip;
use devices::fault::Fault;
use devices::medium::Medium;
use sealing::key::Key;
use slot::Slot;
use std::alloc::{AllocError, Global};
use trace::ledger::Ledger;

// Which key a replacing that fails leaves.
#[derive(Clone, Copy)]
pub enum Leaves {
    Old,
    New,
}

#[derive(Drop)]
pub struct MemoryChip {
    slot: Slot,
    failing: Option<Leaves>,
    ledger: Ledger,
}

impl MemoryChip {
    // A chip that was never given a key: zeros, with the number 0.
    pub fn new(heap: Global) -> Result<MemoryChip, AllocError>
        ensures { IfOk result (λ c. (held c.slot ≡ record { number = 0; bytes = replicate 32 0 }) × (c.ledger.keys ≡ []) × (c.failing ≡ None)) }
    {
        Ok(MemoryChip {
            slot: Slot::new(heap)?,
            failing: None,
            ledger: Ledger::new(),
        })
    }

    // Its next replacing fails, and leaves the old key or the new one.
    pub fn fail_next(&mut self, leaves: Leaves)
        ensures failing { self.new.failing ≡ Some leaves }
        ensures slot { self.new.slot ≡ self.old.slot }
        ensures ledger { self.new.ledger ≡ self.old.ledger }
    {
        self.failing = Some(leaves);
    }
}

impl Chip for MemoryChip {
    ghost holds = { λ c. held c.slot };

    ghost given = { λ c. c.ledger.keys };

    fn number(&self) -> u32 {
        self.slot.number()
    }

    fn key(&self) -> &Key {
        self.slot.key()
    }

    // It fails where it was told to.
    fn replace<M: Medium>(&mut self, key: &Key, number: u32, medium: &M) -> Result<(), Fault>
        ensures gives { Gives (λ c. held c.slot) (λ c. c.ledger.keys) self.old (given_now number key.now.bytes (M.log medium.now)) result self.new }
        ensures told { Told self.old.failing (held self.old.slot) (record { number = number; bytes = key.now.bytes }) result (held self.new.slot) }
    {
        self.ledger = self.ledger.given(number, key, medium);
        match self.failing.take() {
            None => {
                self.slot.set(key, number);
                Ok(())
            }
            Some(Leaves::Old) => Err(Fault),
            Some(Leaves::New) => {
                self.slot.set(key, number);
                Err(Fault)
            }
        }
    }
}
