// The index of a medium: where it has what each node and each place has now. Numbers and offsets, and no key.
#![tactic(auto)]

ghost use Rattle.std.specs.Prelude.{◌≡◌, ℕ, ◌+◌, ◌-◌, ◌^◌, ◌<◌, ◌≤◌, cond, List, length, replicate, IfOk, vec_len, slice_set};
ghost use Rattle.records.specs.Values.{record_of};
ghost use Rattle.index.specs.Rows.{row_of, key_row, content_row, Empty};
ghost use Rattle.index.specs.Noted.{rows_of, noted, scanned, Short};

use records::decode::decode;
use records::record::{CONTENT_FRONT, KEY_FRONT, MARK, Record};
use row::{ContentRow, KeyRow};
use std::alloc::{AllocError, Global};
use tree::numbers::places;

pub mod row;

// A row for each node, by its number, and one for each place. The levels of the tree stay with who has the index: as a field they would be a second copy, to be kept the same.
#[derive(Drop)]
pub struct Index {
    keys: Vec<Option<KeyRow>>,
    contents: Vec<Option<ContentRow>>,
}

impl Index {
    // Of an empty medium, for a tree of so many levels, which are at most 19.
    pub fn new(heap: Global, levels: u32) -> Result<Index, AllocError>
        requires { levels ≤ 19 }
        ensures { IfOk result (λ index. Empty levels index.keys.items index.contents.items) }
    {
        let keys = Vec::from_elem(heap, None, places(levels + 1) as usize)?;
        let contents = Vec::from_elem(heap, None, places(levels) as usize)?;
        Ok(Index { keys, contents })
    }

    // The row of a node's key; none where there is no such node.
    pub fn key(&self, node: u32) -> Option<KeyRow>
        ensures { result ≡ key_row self.now.keys.items node }
    {
        row_at(&self.keys, node)
    }

    // The row of a place's content; none where there is no such place.
    pub fn content(&self, place: u32) -> Option<ContentRow>
        ensures { result ≡ content_row self.now.contents.items place }
    {
        row_at(&self.contents, place)
    }

    // Another row for a node's key; nothing changes where there is no such node.
    pub fn set_key(&mut self, node: u32, row: Option<KeyRow>)
        ensures keys { self.new.keys.items ≡ slice_set self.old.keys.items node row }
        ensures contents { self.new.contents ≡ self.old.contents }
    {
        set_row(&mut self.keys, node, row);
    }

    // Another row for a place's content; nothing changes where there is no such place.
    pub fn set_content(&mut self, place: u32, row: Option<ContentRow>)
        ensures contents { self.new.contents.items ≡ slice_set self.old.contents.items place row }
        ensures keys { self.new.keys ≡ self.old.keys }
    {
        set_row(&mut self.contents, place, row);
    }

    // Notes a record that begins at the byte `at` of the medium.
    pub fn note(&mut self, levels: u32, at: u64, item: &Record)
        requires { (levels ≤ 19) × ((at < 2 ^ 63) × (Short (record_of item.now))) }
        ensures { rows_of self.new ≡ noted levels at (record_of item.now) (rows_of self.old) }
    {
        match *item {
            Record::Key {
                node,
                number,
                under,
                sealed: _,
            } => self.set_key(
                node,
                Some(KeyRow {
                    number,
                    under,
                    offset: at + KEY_FRONT as u64,
                }),
            ),
            Record::Content {
                node,
                number,
                sealed,
            } => self.set_content(
                place_of(levels, node),
                Some(ContentRow {
                    number,
                    length: sealed.len().saturating_sub(MARK) as u16,
                    offset: at + CONTENT_FRONT as u64,
                }),
            ),
            Record::Out { node, next: _ } => {
                self.set_key(node, None);
                self.set_content(place_of(levels, node), None);
            }
        }
    }

    // Notes the records that stand in `bytes`, which begin at the byte `at` of the medium, as far as they decode.
    pub fn note_all(&mut self, levels: u32, at: u64, bytes: &[u8])
        requires { (levels ≤ 19) × (at + length bytes.now < 2 ^ 63) }
        ensures { rows_of self.new ≡ scanned levels (length bytes.now) at bytes.now (rows_of self.old) }
    {
        let mut left = bytes;
        let mut from = at;
        // A cursor over records: an iterator over them would be a type of its own with its laws, and longer.
        while let Ok((record, rest)) = decode(levels, left) {
            self.note(levels, from, &record);
            from += (left.len() - rest.len()) as u64;
            left = rest;
        }
    }
}

// The row of a number; none past the last.
fn row_at<T: Copy>(rows: &[Option<T>], n: u32) -> Option<T>
    ensures { result ≡ row_of rows.now n }
{
    rows.get(n as usize).copied().flatten()
}

// Another row for a number; nothing changes past the last.
fn set_row<T: Copy>(rows: &mut Vec<Option<T>>, n: u32, row: Option<T>)
    ensures { rows.new.items ≡ slice_set rows.old.items n row }
{
    if let Some(place) = rows.get_mut(n as usize) {
        *place = row;
    }
}

// The place of a node; 0 for a node above the places.
fn place_of(levels: u32, node: u32) -> u32
    requires { levels ≤ 19 }
    ensures { result ≡ node - 2 ^ levels }
{
    node.saturating_sub(places(levels))
}
