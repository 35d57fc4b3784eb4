// Commands that seal and open, and those on the parts of the standard, and the words that they are read from.
#![tactic(auto)]

ghost use Rattle.std.specs.Prelude.{ℕ, List, map};
ghost use Rattle.fields.specs.Fields.{fixed_of, Reads};
ghost use Rattle.fields.specs.declared.field.Field.TheVariants as named;
ghost use Rattle.seal_commands.specs.Parsed.{Task, task_of, made, parts_from, block_from, stream_from, once_from, mark_from, parsed};

use fields::faults::{Failure, Malformed, miscounted};
use fields::field::Field;
use fields::reading::{byte_string, fixed, number};
use sealing::key::Key;
use sealing::opening::Nonce;
use std::alloc::Global;

// A text to be sealed or opened, what it is under, and what is marked with it.
pub struct Text {
    pub key: Key,
    pub nonce: Nonce,
    pub marked: Vec<u8>,
    pub text: Vec<u8>,
}

// A line that is well formed.
pub enum Command {
    Seal(Text),
    Open(Text),
    Block {
        key: Key,
        counter: u32,
        nonce: Nonce,
    },
    Stream {
        key: Key,
        counter: u32,
        nonce: Nonce,
        content: Vec<u8>,
    },
    Once {
        key: Key,
        nonce: Nonce,
    },
    Mark {
        once: Key,
        message: Vec<u8>,
    },
}

// A nonce.
fn nonce_of(heap: Global, word: &[u8]) -> Result<Nonce, Failure>
    ensures { Reads (λ nonce. nonce.0) result (fixed_of 12 named.Nonce word.now) }
{
    Ok(Nonce(fixed(heap, Field::Nonce, word)?))
}

impl Text {
    // Each field from the left; the first that is not well formed is named, the last of them as it is called.
    fn parse(heap: Global, called: Field, fields: &[&[u8]]) -> Result<Text, Failure>
        ensures { (make : List ℕ → List ℕ → List ℕ → List ℕ → Task) → Reads (made make) result (parts_from make called (map (λ w. w.now) fields.now)) }
    {
        // As one function for every count of fields, the pattern is not covered by the borrow checker.
        let [key, nonce, marked, text] = fields else {
            return Err(miscounted(4));
        };
        let mut key = fixed(heap, Field::Key, key)?;
        let nonce = nonce_of(heap, nonce)?;
        let marked = byte_string(heap, Field::Marked, marked)?;
        let text = byte_string(heap, called, text)?;
        Ok(Text {
            key: Key::take(&mut key),
            nonce,
            marked,
            text,
        })
    }
}

impl Command {
    // Checks the command's word, then the number of fields, then each field from the left.
    pub fn parse(heap: Global, word: &[u8], fields: &[&[u8]]) -> Result<Command, Failure>
        ensures { Reads task_of result (parsed word.now (map (λ w. w.now) fields.now)) }
    {
        match word {
            b"seal" => Ok(Command::Seal(Text::parse(heap, Field::Content, fields)?)),
            b"open" => Ok(Command::Open(Text::parse(heap, Field::Sealed, fields)?)),
            b"block" => Command::parse_block(heap, fields),
            b"stream" => Command::parse_stream(heap, fields),
            b"once" => Command::parse_once(heap, fields),
            b"mark" => Command::parse_mark(heap, fields),
            _ => Err(Malformed::UnknownCommand.into()),
        }
    }

    fn parse_block(heap: Global, fields: &[&[u8]]) -> Result<Command, Failure>
        ensures { Reads task_of result (block_from (map (λ w. w.now) fields.now)) }
    {
        let [key, counter, nonce] = fields else {
            return Err(miscounted(3));
        };
        let mut key = fixed(heap, Field::Key, key)?;
        let counter = number(Field::Counter, counter)?;
        let nonce = nonce_of(heap, nonce)?;
        Ok(Command::Block {
            key: Key::take(&mut key),
            counter,
            nonce,
        })
    }

    fn parse_stream(heap: Global, fields: &[&[u8]]) -> Result<Command, Failure>
        ensures { Reads task_of result (stream_from (map (λ w. w.now) fields.now)) }
    {
        let [key, counter, nonce, content] = fields else {
            return Err(miscounted(4));
        };
        let mut key = fixed(heap, Field::Key, key)?;
        let counter = number(Field::Counter, counter)?;
        let nonce = nonce_of(heap, nonce)?;
        let content = byte_string(heap, Field::Content, content)?;
        Ok(Command::Stream {
            key: Key::take(&mut key),
            counter,
            nonce,
            content,
        })
    }

    fn parse_once(heap: Global, fields: &[&[u8]]) -> Result<Command, Failure>
        ensures { Reads task_of result (once_from (map (λ w. w.now) fields.now)) }
    {
        let [key, nonce] = fields else {
            return Err(miscounted(2));
        };
        let mut key = fixed(heap, Field::Key, key)?;
        let nonce = nonce_of(heap, nonce)?;
        Ok(Command::Once {
            key: Key::take(&mut key),
            nonce,
        })
    }

    fn parse_mark(heap: Global, fields: &[&[u8]]) -> Result<Command, Failure>
        ensures { Reads task_of result (mark_from (map (λ w. w.now) fields.now)) }
    {
        let [once, message] = fields else {
            return Err(miscounted(2));
        };
        let mut once = fixed(heap, Field::Once, once)?;
        let message = byte_string(heap, Field::Message, message)?;
        Ok(Command::Mark {
            once: Key::take(&mut once),
            message,
        })
    }
}
