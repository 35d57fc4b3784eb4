// The 36 bytes of a chip's file: the number of its key, the high byte first, and the key.
ghost use Rattle.std.specs.Prelude.{◌≡◌, ◌++◌, replicate};
ghost use Rattle.files.specs.Image.{number_bytes, number_in};

use crate::directory::{if_found, sync_above};
use crate::unopened::Unopened;
use sealing::key::Key;
use slot::Slot;
use std::alloc::{AllocError, Global};
use std::fs::File;
use std::io::{Read, Write};
use std::{fs, io};

// What goes to the file and comes from it; zeros otherwise.
#[derive(Drop)]
pub(crate) struct Image {
    bytes: Box<[u8; 36]>,
    ghost clear: { bytes.value ≡ replicate 36 0 },
}

fn encode(bytes: &mut [u8; 36], number: u32, key: &Key)
    ensures { bytes.new ≡ number_bytes number ++ key.now.bytes }
{
    let (number_part, key_part) = bytes.split_at_mut(4);
    number_part.copy_from_slice(&number.to_be_bytes());
    key_part.copy_from_slice(key.as_bytes());
}

fn number_in(bytes: &[u8; 36]) -> u32
    ensures { result ≡ number_in bytes.now }
{
    let [a, b, c, d, ..] = *bytes;
    u32::from_be_bytes([a, b, c, d])
}

// A key with the number 0 is refused, but for zeros.
fn decode(bytes: &[u8; 36], slot: &mut Slot) -> Result<(), Unopened> {
    let number = number_in(bytes);
    let (_, key) = bytes.split_at(4);
    if number == 0 && key.iter().any(|byte| *byte != 0) {
        return Err(Unopened::KeyWithoutNumber);
    }
    slot.load(key, number);
    Ok(())
}

// The file at a path, if there is one; it has the length of an image.
fn open(rt: &HostRuntime, path: &str) -> Result<Option<File>, Unopened> {
    let Some(file) = if_found(File::open(rt, path))? else {
        return Ok(None);
    };
    if file.metadata()?.len() != 36 {
        return Err(Unopened::Length);
    }
    Ok(Some(file))
}

// The key of the file at a path, with its number, into a slot, which stays as it is where there is no file.
fn fetch(
    rt: &HostRuntime,
    path: &str,
    bytes: &mut [u8; 36],
    slot: &mut Slot,
) -> Result<(), Unopened> {
    if let Some(mut file) = open(rt, path)? {
        file.read_exact(bytes)?;
        decode(bytes, slot)?;
    }
    Ok(())
}

// Puts bytes in place of the file at a path: whole beside it first, then renamed over it, and all of it made to last.
fn write(rt: &HostRuntime, path: &str, beside: &str, bytes: &[u8; 36]) -> io::Result<()> {
    let mut file = fs::create(rt, beside)?;
    file.write_all(bytes)?;
    file.sync_all()?;
    fs::rename(rt, beside, path)?;
    sync_above(rt, path)
}

impl Image {
    pub(crate) fn new(heap: Global) -> Result<Image, AllocError> {
        Ok(Image {
            bytes: Box::new(heap, [0; 36])?,
        })
    }

    pub(crate) fn load(
        &mut self,
        rt: &HostRuntime,
        path: &str,
        slot: &mut Slot,
    ) -> Result<(), Unopened> {
        let fetched = fetch(rt, path, &mut self.bytes, slot);
        *self.bytes = [0; 36];
        fetched
    }

    pub(crate) fn save(
        &mut self,
        rt: &HostRuntime,
        path: &str,
        beside: &str,
        number: u32,
        key: &Key,
    ) -> io::Result<()> {
        encode(&mut self.bytes, number, key);
        let written = write(rt, path, beside, &self.bytes);
        *self.bytes = [0; 36];
        written
    }
}
