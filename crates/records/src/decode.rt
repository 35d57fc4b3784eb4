// Decoding: what stands at the front of a string of bytes.
ghost use Rattle.std.specs.Prelude.{◌≡◌, ◌+◌, ◌^◌, ◌<◌, ◌≤◌, length, MatchOption};
ghost use Rattle.records.specs.Decode.{number4, is_place, is_number, key_at, content_at, out_at};
ghost use Rattle.records.specs.Values.{Shortens, decoded_of, decoded_up_to20, is_key, is_out, is_content};

use crate::record::{
    CONTENT, CONTENT_FRONT, Decoded, HEADER_BYTES, HIGHEST, KEY, KEY_BYTES, KEY_FRONT,
    LONGEST_CONTENT, MARK, OUT, Record, Undecoded,
};
use tree::numbers::{MOST_LEVELS, places};

// The number of four bytes from `at` on.
#[tactic(auto, unfolding(crate::specs::Decode::number4))]
fn four(bytes: &[u8], at: usize) -> u32
    requires { at + 4 ≤ length bytes.now }
    ensures { result ≡ number4 bytes.now at }
{
    u32::from_be_bytes([bytes[at], bytes[at + 1], bytes[at + 2], bytes[at + 3]])
}

// Whether a number can be a key's.
fn is_number(n: u32) -> bool
    ensures { result ≡ is_number n }
{
    (1..=HIGHEST).contains(&n)
}

// How many levels a tree has.
#[derive(Clone, Copy)]
struct Levels {
    count: u32,
    ghost few: { count ≤ 20 },
}

impl Levels {
    // None where a tree can't have so many.
    fn new(count: u32) -> Option<Levels>
        ensures { MatchOption result (20 < count) (λ levels. levels.count ≡ count) }
    {
        if count > MOST_LEVELS {
            return None;
        }
        Some(Levels { count })
    }

    // Whether a node is a place, and whether the numbers of a record are proper.
    fn is_place(self, node: u32) -> bool
        ensures { result ≡ is_place self.count node }
    {
        (places(self.count)..places(self.count + 1)).contains(&node)
    }

    fn is_key(self, node: u32, number: u32, under: u32) -> bool
        ensures { result ≡ is_key self.count node number under }
    {
        (2..places(self.count + 1)).contains(&node)
            && (1..under).contains(&number)
            && under <= HIGHEST
    }

    fn is_out(self, node: u32, next: u32) -> bool
        ensures { result ≡ is_out self.count node next }
    {
        self.is_place(node) && is_number(next)
    }

    fn is_content(self, node: u32, number: u32, count: u16) -> bool
        ensures { result ≡ is_content self.count node number count }
    {
        self.is_place(node) && is_number(number) && (1..=LONGEST_CONTENT).contains(&count)
    }

    // A place that was taken out.
    fn out(self, bytes: &[u8]) -> Decoded<'_>
        ensures value { decoded_of result ≡ out_at self.count bytes.now }
        ensures shorter { Shortens bytes.now result }
    {
        let (_, rest) = bytes.split_at_checked(HEADER_BYTES).ok_or(Undecoded::Ends)?;
        let node = four(bytes, 1);
        let next = four(bytes, 5);
        if !self.is_out(node, next) {
            return Err(Undecoded::Other);
        }
        Ok((Record::Out { node, next }, rest))
    }

    // The key of a node.
    fn key(self, bytes: &[u8]) -> Decoded<'_>
        ensures value { decoded_of result ≡ key_at self.count bytes.now }
        ensures shorter { Shortens bytes.now result }
    {
        let (whole, rest) = bytes.split_at_checked(KEY_BYTES).ok_or(Undecoded::Ends)?;
        let (_, sealed) = whole.split_at(KEY_FRONT);
        let node = four(bytes, 1);
        let number = four(bytes, 5);
        let under = four(bytes, 9);
        if !self.is_key(node, number, under) {
            return Err(Undecoded::Other);
        }
        let record = Record::Key {
            node,
            number,
            under,
            sealed,
        };
        Ok((record, rest))
    }

    // The content of a place.
    #[tactic(auto, unfolding(crate::specs::Decode::number2))]
    fn content(self, bytes: &[u8]) -> Decoded<'_>
        ensures value { decoded_of result ≡ content_at self.count bytes.now }
        ensures shorter { Shortens bytes.now result }
    {
        let (_, after) = bytes
            .split_at_checked(CONTENT_FRONT)
            .ok_or(Undecoded::Ends)?;
        let node = four(bytes, 1);
        let number = four(bytes, 5);
        let count = u16::from_be_bytes([bytes[9], bytes[10]]);
        if !self.is_content(node, number, count) {
            return Err(Undecoded::Other);
        }
        let (sealed, rest) = after
            .split_at_checked(count as usize + MARK)
            .ok_or(Undecoded::Ends)?;
        let record = Record::Content {
            node,
            number,
            sealed,
        };
        Ok((record, rest))
    }
}

// The record at the front of `bytes`, and the rest. Of a tree of more than 20 levels there are no records.
#[tactic(auto, unfolding(crate::specs::Decode::decoded))]
pub fn decode(levels: u32, bytes: &[u8]) -> Decoded<'_>
    ensures value { decoded_of result ≡ decoded_up_to20 levels bytes.now }
    ensures shorter { Shortens bytes.now result }
{
    let levels = Levels::new(levels).ok_or(Undecoded::Other)?;
    match bytes {
        [] => Err(Undecoded::Ends),
        [KEY, ..] => levels.key(bytes),
        [CONTENT, ..] => levels.content(bytes),
        [OUT, ..] => levels.out(bytes),
        _ => Err(Undecoded::Other),
    }
}
