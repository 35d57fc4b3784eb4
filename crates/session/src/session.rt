// A store on two files, and the keys for its next change.
ghost use Rattle.std.specs.Prelude.{◌≡◌, IfOk, IfSome, vec_len};

use crate::chance::{Chance, MOST_KEYS};
use crate::texts::Undone;
use cipher::standard::Standard;
use descent::failure::Failure;
use files::chip::FileChip;
use files::medium::FileMedium;
use std::alloc::{AllocError, Global};
use storage::state::Store;
use words::numbers::counter;
use words::split;

// The levels of the product: 1,024 places.
pub const LEVELS: u32 = 10;

// The longest content.
const BUFFER: usize = 4096;

pub struct Session {
    heap: Global,
    store: Store<Standard, FileMedium, FileChip>,
    chance: Chance,
    buffer: Vec<u8>,
}

// The 32 bytes of a key that a word has in hex.
fn key_bytes(heap: Global, word: &[u8]) -> Result<Option<Vec<u8>>, AllocError>
    ensures { IfOk result (λ key. IfSome key (λ bytes. vec_len bytes ≡ 32)) }
{
    // `?` hands on an error and not a None, where the result is a Result of an Option.
    let Some(mut bytes) = hex_text::decode(heap, word)? else {
        return Ok(None);
    };
    if bytes.len() != 32 {
        octets::wipe(&mut bytes);
        return Ok(None);
    }
    Ok(Some(bytes))
}

// The keys that words have; none where one has no key.
fn keys_of(heap: Global, words: &[&[u8]]) -> Result<Option<Chance>, AllocError> {
    let mut chance = Chance::new(heap)?;
    for word in words {
        let Some(mut bytes) = key_bytes(heap, word)? else {
            return Ok(None);
        };
        chance.add(&mut bytes);
    }
    Ok(Some(chance))
}

fn place_of(word: &[u8]) -> Result<u32, Undone> {
    counter(word).ok_or(Undone::Malformed("a place is a number"))
}

impl Session {
    // Over an empty medium and a chip that was never given a key.
    pub fn new(heap: Global, medium: FileMedium, chip: FileChip) -> Result<Session, Failure> {
        let cipher = Standard::new(heap)?;
        let buffer = vec![in heap; 0; BUFFER]?;
        let chance = Chance::new(heap)?;
        let store = Store::new(heap, cipher, medium, chip, LEVELS)?;
        Ok(Session {
            heap,
            store,
            chance,
            buffer,
        })
    }

    fn done(&self) -> Result<String, Undone> {
        Ok(String::from_str(self.heap, "ok")?)
    }

    // Keys for the next change, in place of those that were there.
    fn take_chance(&mut self, words: &[&[u8]]) -> Result<String, Undone> {
        let malformed = Undone::Malformed("up to 64 keys, each 64 digits of hex");
        if words.len() > MOST_KEYS {
            return Err(malformed);
        }
        self.chance = keys_of(self.heap, words)?.ok_or(malformed)?;
        self.done()
    }

    // The keys are gone once a change is answered, and still there where it was refused.
    fn change_answered(&mut self, answer: Result<(), Failure>) -> Result<String, Undone> {
        if let Ok(()) | Err(Failure::Stopped) = answer {
            self.chance.clear();
        }
        answer?;
        self.done()
    }

    fn put(&mut self, place: &[u8], content: &[u8]) -> Result<String, Undone> {
        let place = place_of(place)?;
        let content = hex_text::decode(self.heap, content)?;
        let content = content.ok_or(Undone::Malformed("a content is hex"))?;
        let answer = self.store.put(place, &content, &mut self.chance.keys);
        self.change_answered(answer)
    }

    fn take_out(&mut self, place: &[u8]) -> Result<String, Undone> {
        let place = place_of(place)?;
        let answer = self.store.take_out(place, &mut self.chance.keys);
        self.change_answered(answer)
    }

    fn read(&mut self, place: &[u8]) -> Result<String, Undone> {
        let place = place_of(place)?;
        let n = self.store.read(place, &mut self.buffer)?;
        let text = hex_text::encode(self.heap, &self.buffer[0..n]);
        octets::wipe(&mut self.buffer);
        Ok(text?)
    }

    // The answer to a line without its line feed; none to a blank one or a comment.
    pub fn answer(&mut self, line: &[u8]) -> Result<Option<String>, AllocError> {
        let words = split(self.heap, line)?;
        let answer = match words.as_slice() {
            [] | [[b'#', ..], ..] => return Ok(None),
            [b"chance", keys @ ..] => self.take_chance(keys),
            [b"put", place, content] => self.put(place, content),
            [b"out", place] => self.take_out(place),
            [b"read", place] => self.read(place),
            _ => Err(Undone::Malformed("chance KEY.., put PLACE HEX, out PLACE or read PLACE")),
        };
        // Ends as the answer of the line language does, with an error of another type.
        let text = match answer {
            Ok(text) => text,
            Err(Undone::Memory) => return Err(AllocError),
            Err(why) => format!(in self.heap; "{why}")?,
        };
        Ok(Some(text))
    }

    // The end of it: every key that is left is wiped.
    pub fn end(self) {
        let Session {
            heap: _,
            store,
            chance: _,
            buffer: _,
        } = self;
        let (_medium, _seat) = store.into_devices();
    }
}
