// The sealed part of one record: read, and opened in place.
ghost use Rattle.std.specs.Prelude.{◌≡◌, ℕ, ◌+◌, ◌-◌, ◌%◌, ◌≤◌, List, length, take, replicate};
ghost use Rattle.cipher.specs.Sealed.{slot_nonce, text_of};
ghost use Rattle.records.specs.Format.{head};
ghost use Rattle.descent.specs.Opened.{Opens, key_seals};

use crate::failure::Failure;
use crate::source::Source;
use cipher::nonce::slot_nonce;
use cipher::sealing_trait::Sealing;
use devices::medium::Medium;
use index::row::{ContentRow, KeyRow};
use records::encode::header;
use records::record::{CONTENT, KEY};
use sealing::key::Key;
use tree::node::NodeId;

impl<S: Sealing, M: Medium> Source<S, M> {
    // Reads a part of the medium and opens it in place. The text stands in it, before the mark; where it doesn't open, the part is as it was read.
    pub fn open_at(
        &mut self,
        offset: u64,
        key: &Key,
        slot: u8,
        marked: &[u8; 9],
        part: &mut [u8],
    ) -> Result<(), Failure>
        requires { (16 ≤ length part.old) × (length part.old ≤ 65536) }
        ensures opened { Opens (S.sealed key.now.bytes (slot_nonce slot) marked.now) offset (length part.old) (M.log self.old.medium) (M.log self.new.medium) result (text_of part.new) }
    {
        self.medium.read_at(offset, part)?;
        self.cipher.open(key, &slot_nonce(slot), marked, part)?;
        Ok(())
    }

    // Opens the key that a node has by its row, sealed under the key of the node above: it stands in the first 32 bytes of the part.
    pub fn open_key(
        &mut self,
        node: NodeId,
        row: KeyRow,
        above: &Key,
        part: &mut [u8; 48],
    ) -> Result<(), Failure>
        ensures { Opens (key_seals S.sealed node.number row.number above.now.bytes) row.offset 48 (M.log self.old.medium) (M.log self.new.medium) result (take 32 part.new) }
    {
        let marked = header(KEY, node.number, row.number);
        self.open_at(row.offset, above, node.side().slot(), &marked, part)
    }

    // From the key of a node to the key of a node that hangs on it, which takes its place.
    pub fn step_down(
        &mut self,
        node: NodeId,
        row: KeyRow,
        key: &mut Key,
        part: &mut [u8; 48],
    ) -> Result<(), Failure>
        ensures { Opens (key_seals S.sealed node.number row.number key.old.bytes) row.offset 48 (M.log self.old.medium) (M.log self.new.medium) result key.new.bytes }
    {
        self.open_key(node, row, key, part)?;
        key.load(part);
        Ok(())
    }

    // Opens the content that a place has by its row, sealed under its node's key: it stands at the front of the part, which is as long as the content with its mark.
    pub fn open_content(
        &mut self,
        node: NodeId,
        row: ContentRow,
        key: &Key,
        part: &mut [u8],
    ) -> Result<(), Failure>
        requires { (16 ≤ length part.old) × (length part.old ≤ 65536) }
        ensures { Opens (S.sealed key.now.bytes (slot_nonce 0) (head 67 node.number row.number)) row.offset (length part.old) (M.log self.old.medium) (M.log self.new.medium) result (text_of part.new) }
    {
        let marked = header(CONTENT, node.number, row.number);
        self.open_at(row.offset, key, 0, &marked, part)
    }
}
