// Preparing a change: its records, before anything is written.
ghost use Rattle.std.specs.Prelude.{◌≡◌, ℕ, ◌+◌, ◌≤◌, List, [], ◌++◌, length, vec_len};
ghost use Rattle.change.specs.Nodes.{content_in};
ghost use Rattle.devices.specs.Events.{changes};
ghost use Rattle.index.specs.Noted.{rows_of};
ghost use Rattle.descent.specs.Path.{OfShown};
ghost use Rattle.storage.specs.Prepares.{Decides, Prepares};

use crate::wipe::clear_opened;
use crate::work::Work;
use change::change::change;
use change::keys::Drawn;
use change::node::{NodeKey, clear_all};
use change::path::Path;
use cipher::sealing_trait::Sealing;
use descent::failure::Failure;
use descent::source::Source;
use devices::medium::Medium;
use index::Index;
use sealing::key::Key;
use tree::leaf::Leaf;

// The records of a change at the end of a buffer, with the siblings along the path opened first, from the root's key down. The working memory is lent field by field, since the key, the part and the room are borrowed at once beside the siblings.
fn collect_and_write<S: Sealing, M: Medium>(
    source: &mut Source<S, M>,
    index: &Index,
    leaf: Leaf,
    content: Option<&[u8]>,
    drawn: Drawn<'_>,
    key: &mut Key,
    part: &mut [u8; 48],
    room: &mut [u8],
    siblings: &mut [Option<NodeKey>],
    out: &mut Vec<u8>,
) -> Result<u32, Failure>
    requires some { 1 ≤ leaf.levels }
    requires room { length room.old ≡ 4112 }
    requires wide { length siblings.old ≡ leaf.levels }
    requires empty { out.old.items ≡ [] }
    ensures same { changes (M.log source.new.medium) ≡ changes (M.log source.old.medium) }
    ensures decides { Decides leaf.levels leaf.place drawn.entry.last (content_in content.entry) (length drawn.entry.keys.now) result }
    ensures prepares { OfShown S.sealed leaf.levels (rows_of index.now) key.old.bytes (M.log source.old.medium) (M.log source.new.medium) (Prepares S.sealed leaf.levels leaf.place drawn.entry.last (content_in content.entry) drawn.entry.keys.now result out.new.items) }
{
    source.collect(index, leaf, key, part, siblings)?;
    let path = Path {
        levels: leaf.levels,
        place: leaf.place,
        siblings,
    };
    let number = change(&mut source.cipher, path, content, drawn, part, room, out)?;
    Ok(number)
}

impl Work {
    // The records of a change in `out`, which is empty, and the number of the root's new key; nothing else is changed. The working memory is clean again, whatever came of it.
    pub(crate) fn prepare<S: Sealing, M: Medium>(
        &mut self,
        source: &mut Source<S, M>,
        index: &Index,
        leaf: Leaf,
        content: Option<&[u8]>,
        drawn: Drawn<'_>,
        root: &Key,
        out: &mut Vec<u8>,
    ) -> Result<u32, Failure>
        requires some { 1 ≤ leaf.levels }
        requires wide { vec_len self.old.siblings ≡ leaf.levels }
        requires empty { out.old.items ≡ [] }
        ensures wide { vec_len self.new.siblings ≡ vec_len self.old.siblings }
        ensures same { changes (M.log source.new.medium) ≡ changes (M.log source.old.medium) }
        ensures decides { Decides leaf.levels leaf.place drawn.entry.last (content_in content.entry) (length drawn.entry.keys.now) result }
        ensures prepares { OfShown S.sealed leaf.levels (rows_of index.now) root.now.bytes (M.log source.old.medium) (M.log source.new.medium) (Prepares S.sealed leaf.levels leaf.place drawn.entry.last (content_in content.entry) drawn.entry.keys.now result out.new.items) }
    {
        self.key.load(root.as_bytes());
        let written = collect_and_write(
            source,
            index,
            leaf,
            content,
            drawn,
            &mut self.key,
            &mut self.part,
            &mut self.room,
            &mut self.siblings,
            out,
        );
        clear_opened(&mut self.key, &mut self.part, &mut self.room);
        clear_all(&mut self.siblings);
        written
    }
}
