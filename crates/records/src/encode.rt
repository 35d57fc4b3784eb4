// Encoding: the bytes of records, in part and whole.
ghost use Rattle.std.specs.Prelude.{◌≡◌, ◌+◌, ◌-◌, ◌≤◌, ◌++◌, length, drop};
ghost use Rattle.records.specs.Format.{head, be2, be4, encode as encoded};
ghost use Rattle.records.specs.Values.{Appends, record_of};

use crate::record::{CONTENT, CONTENT_FRONT, HEADER_BYTES, KEY, KEY_FRONT, MARK, OUT, Record};
use std::alloc::AllocError;

// The nine bytes that are marked besides. Any byte may be the tag: a narrower type would turn callers away.
#[tactic(auto, unfolding(crate::specs::Format::head, crate::specs::Format::be4))]
pub fn header(tag: u8, node: u32, number: u32) -> [u8; HEADER_BYTES]
    ensures { result ≡ head tag node number }
{
    let n = node.to_be_bytes();
    let m = number.to_be_bytes();
    [tag, n[0], n[1], n[2], n[3], m[0], m[1], m[2], m[3]]
}

// A header and a number's bytes, in place of the first bytes of `out`.
fn write_front(start: &[u8; HEADER_BYTES], number: &[u8], out: &mut [u8])
    requires { 9 + length number.now ≤ length out.old }
    ensures { out.new ≡ start.now ++ (number.now ++ drop (9 + length number.now) out.old) }
{
    out[..HEADER_BYTES].copy_from_slice(start);
    out[HEADER_BYTES..HEADER_BYTES + number.len()].copy_from_slice(number);
}

// The bytes of a key record that come before the sealed key, written over the first 13 of `out`.
#[tactic(auto, unfolding(crate::specs::Format::be4))]
pub fn key_front(node: u32, number: u32, under: u32, out: &mut [u8])
    requires { 13 ≤ length out.old }
    ensures { out.new ≡ head 75 node number ++ (be4 under ++ drop 13 out.old) }
{
    write_front(&header(KEY, node, number), &under.to_be_bytes(), out);
}

// The bytes of a content record that come before the sealed content, written over the first 11 of `out`.
#[tactic(auto, unfolding(crate::specs::Format::be2))]
pub fn content_front(node: u32, number: u32, count: u16, out: &mut [u8])
    requires { 11 ≤ length out.old }
    ensures { out.new ≡ head 67 node number ++ (be2 count ++ drop 11 out.old) }
{
    write_front(&header(CONTENT, node, number), &count.to_be_bytes(), out);
}

// Two strings at the end of `out`; or `out` as it was.
fn append(first: &[u8], second: &[u8], out: &mut Vec<u8>) -> Result<(), AllocError>
    ensures { Appends result (first.now ++ second.now) out.old.items out.new.items }
{
    let before = out.len();
    out.extend_from_slice(first)?;
    let done = out.extend_from_slice(second);
    if done.is_err() {
        out.truncate(before);
    }
    done
}

// The length of what is sealed, as two bytes hold it.
#[tactic(auto, unfolding(crate::specs::Format::be2))]
fn count_of(sealed: &[u8]) -> u16
    ensures { be2 result ≡ be2 (length sealed.now - 16) }
{
    (sealed.len().saturating_sub(MARK) % 65536) as u16
}

// The bytes of a record at the end of `out`; or `out` as it was.
pub fn encode(record: &Record<'_>, out: &mut Vec<u8>) -> Result<(), AllocError>
    ensures { Appends result (encoded (record_of «record».now)) out.old.items out.new.items }
{
    match *record {
        Record::Key {
            node,
            number,
            under,
            sealed,
        } => {
            let mut front = [0; KEY_FRONT];
            key_front(node, number, under, &mut front);
            append(&front, sealed, out)
        }
        Record::Content {
            node,
            number,
            sealed,
        } => {
            let mut front = [0; CONTENT_FRONT];
            content_front(node, number, count_of(sealed), &mut front);
            append(&front, sealed, out)
        }
        Record::Out { node, next } => out.extend_from_slice(&header(OUT, node, next)),
    }
}
