// Sealing keys and contents, and writing their records. The cipher, the part and the buffer are lent one by one: a struct of the three would hold them by `&mut`, and each function would have to ensure too that they stay the same references.
ghost use Rattle.std.specs.Prelude.{◌≡◌, ℕ, ◌+◌, ◌%◌, ◌<◌, ◌≤◌, List, [], ◌∷◌, ◌++◌, length, replicate, is_ok, if◌then◌else◌};
ghost use Rattle.cipher.specs.Sealed.{slot_nonce, text_of};
ghost use Rattle.records.specs.Format.{encode as encoded, out as out_record};
ghost use Rattle.change.specs.Coded.{coded_key, coded_content, key_bytes};
ghost use Rattle.change.specs.Nodes.{key_in, numbered};

use crate::keys::KeyRef;
use crate::node::NodeKey;
use cipher::nonce::slot_nonce;
use cipher::sealing_trait::Sealing;
use records::encode::{encode, header};
use records::record::{CONTENT, KEY, Record};
use sealing::key::Key;
use std::alloc::AllocError;
use tree::node::NodeId;

// A text before the room for its mark.
fn place_text(text: &[u8], part: &mut [u8])
    requires { length part.old ≡ length text.now + 16 }
    ensures { text_of part.new ≡ text.now }
{
    let len = text.len();
    part[0..len].copy_from_slice(text);
}

// A key sealed under another, in a part of 48 bytes.
fn seal_key<S: Sealing>(
    cipher: &mut S,
    above: &Key,
    slot: u8,
    marked: &[u8; 9],
    key: &Key,
    part: &mut [u8; 48],
)
    ensures value { part.new ≡ S.sealed above.now.bytes (slot_nonce slot) marked.now key.now.bytes }
    ensures clear { S.clear cipher.new }
{
    place_text(key.as_bytes(), part);
    cipher.seal(above, &slot_nonce(slot), marked, part);
}

// The record of a node's key; or `out` as it was.
pub(crate) fn push_key<S: Sealing>(
    cipher: &mut S,
    node: NodeId,
    key: KeyRef<'_>,
    above: KeyRef<'_>,
    part: &mut [u8; 48],
    out: &mut Vec<u8>,
) -> Result<(), AllocError>
    ensures out { out.new.items ≡ (if is_ok result then out.old.items ++ encoded (coded_key S.sealed node.number (node.number % 2) (numbered above.entry) (numbered key.entry)) else out.old.items) }
    ensures clear { S.clear cipher.new }
{
    let marked = header(KEY, node.number, key.number);
    seal_key(
        cipher,
        above.key,
        node.side().slot(),
        &marked,
        key.key,
        part,
    );
    encode(
        &Record::Key {
            node: node.number,
            number: key.number,
            under: above.number,
            sealed: part,
        },
        out,
    )
}

// The record of a node's key, as far as it has one.
pub(crate) fn push_node<S: Sealing>(
    cipher: &mut S,
    id: NodeId,
    node: &Option<NodeKey>,
    above: KeyRef<'_>,
    part: &mut [u8; 48],
    out: &mut Vec<u8>,
) -> Result<(), AllocError>
    ensures out { out.new.items ≡ (if is_ok result then out.old.items ++ key_bytes S.sealed id.number (id.number % 2) (numbered above.entry) (key_in node.now) else out.old.items) }
{
    match node {
        None => Ok(()),
        Some(held) => push_key(cipher, id, held.lent(), above, part, out),
    }
}

// The record of a place's content; or `out` as it was. The part has room for the content and its mark.
pub(crate) fn push_content<S: Sealing>(
    cipher: &mut S,
    node: NodeId,
    key: KeyRef<'_>,
    content: &[u8],
    part: &mut [u8],
    out: &mut Vec<u8>,
) -> Result<(), AllocError>
    requires { (length part.old ≡ length content.now + 16) × (length content.now ≤ 4096) }
    ensures out { out.new.items ≡ (if is_ok result then out.old.items ++ encoded (coded_content S.sealed node.number 0 (numbered key.entry) content.now) else out.old.items) }
    ensures clear { S.clear cipher.new }
{
    let marked = header(CONTENT, node.number, key.number);
    place_text(content, part);
    cipher.seal(key.key, &slot_nonce(0), &marked, part);
    encode(
        &Record::Content {
            node: node.number,
            number: key.number,
            sealed: part,
        },
        out,
    )
}

// The record that a place was taken out; or `out` as it was.
pub(crate) fn push_out(node: NodeId, next: u32, out: &mut Vec<u8>) -> Result<(), AllocError>
    ensures { out.new.items ≡ (if is_ok result then out.old.items ++ encoded (out_record node.number next) else out.old.items) }
{
    encode(
        &Record::Out {
            node: node.number,
            next,
        },
        out,
    )
}
