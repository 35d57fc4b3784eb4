// Reading a place.
ghost use Rattle.std.specs.Prelude.{◌≡◌, ℕ, ◌+◌, ◌≤◌, List, length, take, IfOk, vec_len};
ghost use Rattle.cipher.specs.Sealed.{slot_nonce};
ghost use Rattle.records.specs.Format.{head};
ghost use Rattle.descent.specs.Opened.{Opens};
ghost use Rattle.devices.specs.Events.{changes};
ghost use Rattle.index.specs.Noted.{rows_of};
ghost use Rattle.descent.specs.Path.{OfShown};
ghost use Rattle.storage.specs.Answers.{reading_of, read_answer};
ghost use Rattle.storage.specs.Reads.{Reads, CopiesOut, Fills, Answers};

use crate::wipe::clear_opened;
use crate::work::Work;
use cipher::sealing_trait::Sealing;
use descent::failure::Failure;
use descent::source::Source;
use devices::medium::Medium;
use index::Index;
use index::row::ContentRow;
use sealing::key::Key;
use tree::answer::Refusal;
use tree::leaf::Leaf;
use tree::node::NodeId;

// The content that a place has by its row, opened under the key of the place's node, at the front of the room.
fn open_room<S: Sealing, M: Medium>(
    source: &mut Source<S, M>,
    node: NodeId,
    row: ContentRow,
    key: &Key,
    room: &mut [u8],
) -> Result<(), Failure>
    requires { (row.length ≤ 4096) × (length room.old ≡ 4112) }
    ensures { Opens (S.sealed key.now.bytes (slot_nonce 0) (head 67 node.number row.number)) row.offset (row.length + 16) (M.log source.old.medium) (M.log source.new.medium) result (take row.length room.new) }
{
    let count = row.length as usize;
    source.open_content(node, row, key, &mut room[0..count + 16])
}

// The content of a place at the front of the room, from the root's key down.
fn read_place<S: Sealing, M: Medium>(
    source: &mut Source<S, M>,
    index: &Index,
    leaf: Leaf,
    key: &mut Key,
    part: &mut [u8; 48],
    room: &mut [u8],
) -> Result<usize, Failure>
    requires { length room.old ≡ 4112 }
    ensures same { changes (M.log source.new.medium) ≡ changes (M.log source.old.medium) }
    ensures fits { IfOk result (λ n. n ≤ 4096) }
    ensures reads { OfShown S.sealed leaf.levels (rows_of index.now) key.old.bytes (M.log source.old.medium) (M.log source.new.medium) (Reads leaf.levels leaf.place result room.new) }
{
    let row = index.content(leaf.place).ok_or(Refusal::Nothing)?;
    let count = row.length as usize;
    if count > 4096 {
        return Err(Failure::Refused(Refusal::DoesNotOpen));
    }
    source.descend(index, leaf, key, part)?;
    open_room(source, leaf.node(), row, key, room)?;
    Ok(count)
}

// The content at the front of the room, copied to a buffer; one that is too short is refused.
fn copy_out(read: Result<usize, Failure>, room: &[u8], buffer: &mut [u8]) -> Result<usize, Failure>
    requires { (length room.now ≡ 4112) × (IfOk read (λ n. n ≤ 4096)) }
    ensures { CopiesOut read room.now buffer.old result buffer.new }
{
    let n = read?;
    if n > buffer.len() {
        return Err(Failure::Refused(Refusal::NoSuchPlace));
    }
    buffer[0..n].copy_from_slice(&room[0..n]);
    Ok(n)
}

impl Work {
    // The content of a place in a buffer, from the chip's key down; the working memory is clean again, whatever came of it.
    pub(crate) fn read<S: Sealing, M: Medium>(
        &mut self,
        source: &mut Source<S, M>,
        index: &Index,
        leaf: Leaf,
        root: &Key,
        buffer: &mut [u8],
    ) -> Result<usize, Failure>
        ensures same { changes (M.log source.new.medium) ≡ changes (M.log source.old.medium) }
        ensures wide { vec_len self.new.siblings ≡ vec_len self.old.siblings }
        ensures buffer { Fills buffer.old result buffer.new }
        ensures answer { OfShown S.sealed leaf.levels (rows_of index.now) root.now.bytes (M.log source.old.medium) (M.log source.new.medium) (λ t. Answers (reading_of result buffer.new) (read_answer leaf.levels leaf.place (length buffer.old) t)) }
    {
        self.key.load(root.as_bytes());
        let read = read_place(
            source,
            index,
            leaf,
            &mut self.key,
            &mut self.part,
            &mut self.room,
        );
        let reading = copy_out(read, &self.room, buffer);
        clear_opened(&mut self.key, &mut self.part, &mut self.room);
        reading
    }
}
