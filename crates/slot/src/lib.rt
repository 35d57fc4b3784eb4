// One key with its number, on the heap: replaced in place, and wiped before its memory is given back.
#![tactic(auto)]

ghost use Rattle.std.specs.Prelude.{◌≡◌, length, replicate, IfOk, box_value};

use sealing::key::Key;
use std::alloc::{AllocError, Global};

// `room` is what a key passes through on its way in; it is zeros otherwise.
pub struct Slot {
    key: Box<Key>,
    number: u32,
    room: Box<[u8; 32]>,
    ghost clear: { room.value ≡ replicate 32 0 },
}

impl Drop for Slot {
    fn drop(self) {
        let Slot {
            mut key,
            number: _,
            room: _,
        } = self;
        key.wipe();
        let _wiped = Box::into_inner(key);
    }
}

fn zeros(heap: Global) -> Result<Box<Key>, AllocError>
    ensures { IfOk result (λ b. (box_value b).bytes ≡ replicate 32 0) }
{
    // The key comes back where there is no memory, and `?` can't let it go: its drop asks that it is wiped.
    Box::new(heap, Key::blank()).map_err(|back| {
        let _unplaced = back.value;
        AllocError
    })
}

impl Slot {
    // Zeros, with the number 0.
    pub fn new(heap: Global) -> Result<Slot, AllocError>
        ensures { IfOk result (λ s. ((box_value s.key).bytes ≡ replicate 32 0) × (s.number ≡ 0)) }
    {
        let room = Box::new(heap, [0; 32])?;
        let key = zeros(heap)?;
        Ok(Slot {
            key,
            number: 0,
            room,
        })
    }

    pub fn number(&self) -> u32
        ensures { result ≡ self.now.number }
    {
        self.number
    }

    pub fn key(&self) -> &Key
        ensures { result.now ≡ self.now.key.value }
    {
        &self.key
    }

    // 32 bytes and a number in place of those here.
    pub fn load(&mut self, bytes: &[u8], number: u32)
        requires { length bytes.now ≡ 32 }
        ensures key { (box_value self.new.key).bytes ≡ bytes.now }
        ensures number { self.new.number ≡ number }
    {
        self.room.copy_from_slice(bytes);
        self.key.fill(&mut self.room);
        self.number = number;
    }

    // A key's bytes and a number in place of those here.
    pub fn set(&mut self, key: &Key, number: u32)
        ensures key { (box_value self.new.key).bytes ≡ key.now.bytes }
        ensures number { self.new.number ≡ number }
    {
        self.load(key.as_bytes(), number);
    }
}
