// A chip on a file.
ghost use Rattle.std.specs.Prelude.{◌≡◌, [], replicate, IfOk};
ghost use Rattle.slot.specs.Held.{held};

use crate::directory::if_found;
use crate::image::Image;
use crate::unopened::Unopened;
use devices::chip::Chip;
use devices::fault::Fault;
use devices::medium::Medium;
use sealing::key::Key;
use slot::Slot;
use std::alloc::AllocError;
use std::fs;
use trace::ledger::Ledger;

#[derive(Drop)]
pub struct FileChip {
    rt: HostRuntime,
    path: String,
    beside: String,
    image: Image,
    slot: Slot,
    ledger: Ledger,
}

impl FileChip {
    // A chip of no file yet.
    fn fresh(rt: &HostRuntime, path: &str) -> Result<FileChip, AllocError>
        ensures { IfOk result (λ c. (held c.slot ≡ record { number = 0; bytes = replicate 32 0 }) × (c.ledger.keys ≡ [])) }
    {
        let heap = rt.alloc();
        let mut beside = String::from_str(heap, path)?;
        beside.push_str(".new")?;
        Ok(FileChip {
            rt: rt.clone()?,
            path: String::from_str(heap, path)?,
            beside,
            image: Image::new(heap)?,
            slot: Slot::new(heap)?,
            ledger: Ledger::new(),
        })
    }

    // The chip of the file at a path; where there is none, a chip that was never given a key. What a replacing left beside it is removed.
    pub fn open(rt: &HostRuntime, path: &str) -> Result<FileChip, Unopened>
        ensures { IfOk result (λ c. c.ledger.keys ≡ []) }
    {
        let mut chip = FileChip::fresh(rt, path)?;
        if_found(fs::remove_file(rt, chip.beside.as_str()))?;
        chip.image.load(rt, path, &mut chip.slot)?;
        Ok(chip)
    }
}

impl Chip for FileChip {
    ghost holds = { λ c. held c.slot };

    ghost given = { λ c. c.ledger.keys };

    fn number(&self) -> u32 {
        self.slot.number()
    }

    fn key(&self) -> &Key {
        self.slot.key()
    }

    fn replace<M: Medium>(&mut self, key: &Key, number: u32, medium: &M) -> Result<(), Fault> {
        self.ledger = self.ledger.given(number, key, medium);
        let path = self.path.as_str();
        let beside = self.beside.as_str();
        self.image.save(&self.rt, path, beside, number, key)?;
        self.slot.set(key, number);
        Ok(())
    }
}
