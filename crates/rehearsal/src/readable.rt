// Records in readable form.
use crate::levels::Levels;
use records::decode::decode;
use records::record::{Decoded, Record, Undecoded};
use std::fmt;

// Bytes as hex.
#[derive(Clone, Copy)]
struct Hex<'a>(&'a [u8]);

impl fmt::Display for Hex<'_> {
    fn fmt<W: fmt::Write>(&self, f: &mut fmt::Formatter<W>) -> fmt::Result {
        for byte in self.0 {
            write!(f, "{byte:02x}")?;
        }
        Ok(())
    }
}

// What was sealed, without its mark.
fn text_of(sealed: &[u8]) -> &[u8] {
    match sealed.split_last_chunk::<16>() {
        Some((text, _)) => text,
        None => sealed,
    }
}

// A record. Records are of another crate, so what prints them is a type of this one.
#[derive(Clone, Copy)]
struct Told<'a>(Record<'a>);

impl fmt::Display for Told<'_> {
    fn fmt<W: fmt::Write>(&self, f: &mut fmt::Formatter<W>) -> fmt::Result {
        match self.0 {
            Record::Key {
                node,
                number,
                under,
                sealed: _,
            } => write!(f, "key {number} of node {node} under key {under}"),
            Record::Content {
                node,
                number,
                sealed,
            } => {
                let text = Hex(text_of(sealed));
                write!(f, "content of node {node} under key {number}: {text}")
            }
            Record::Out { node, next } => write!(f, "node {node} taken out, next key {next}"),
        }
    }
}

// What stands at the front of a string of bytes.
#[derive(Clone, Copy)]
pub struct Front<'a>(Decoded<'a>);

impl<'a> Front<'a> {
    pub fn new(levels: Levels, bytes: &'a [u8]) -> Front<'a> {
        Front(decode(levels.count(), bytes))
    }
}

impl fmt::Display for Front<'_> {
    fn fmt<W: fmt::Write>(&self, f: &mut fmt::Formatter<W>) -> fmt::Result {
        match self.0 {
            Ok((record, rest)) => {
                let told = Told(record);
                let left = rest.len();
                write!(f, "{told}; rest {left}")
            }
            Err(Undecoded::Ends) => f.write_str("ends too early"),
            Err(Undecoded::Other) => f.write_str("another form"),
        }
    }
}

// The records of a change, as they are decoded again from what was written, and the number of the root's key.
#[derive(Clone, Copy)]
pub struct Written<'a> {
    pub levels: u32,
    pub bytes: &'a [u8],
    pub root: u32,
}

impl fmt::Display for Written<'_> {
    fn fmt<W: fmt::Write>(&self, f: &mut fmt::Formatter<W>) -> fmt::Result {
        let mut rest = self.bytes;
        // A cursor over records: an iterator over them would be a type of its own, and longer.
        while let Ok((record, after)) = decode(self.levels, rest) {
            let told = Told(record);
            write!(f, "{told}; ")?;
            rest = after;
        }
        let root = self.root;
        write!(f, "root {root}")
    }
}
