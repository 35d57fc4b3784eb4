// One change of one place: the refusals, and the records at the end of a buffer.
ghost use Rattle.std.specs.Prelude.{◌≡◌, ℕ, ◌+◌, ◌-◌, ◌^◌, ◌<◌, ◌≤◌, List, ◌++◌, length, replicate, Some, None, IsSome, IfSome, is_ok, if◌then◌else◌};
ghost use Rattle.forgetting.specs.Change.{draws};
ghost use Rattle.change.specs.Nodes.{content_in, first_of, Extends};
ghost use Rattle.change.specs.Turns.{place_bytes, turns_bytes};
ghost use Rattle.change.specs.Outcome.{Writes, Leaves};

use crate::check::{check, draws, first};
use crate::climb::climb;
use crate::failure::Failure;
use crate::keys::{Drawn, hand_over};
use crate::path::Path;
use crate::write::{push_content, push_out};
use cipher::sealing_trait::Sealing;
use sealing::key::Key;
use std::alloc::AllocError;
use tree::node::NodeId;

// The record of the place itself: its content under the first key; or that it was taken out, with the number of the next key.
fn push_place<S: Sealing>(
    cipher: &mut S,
    node: NodeId,
    content: Option<&[u8]>,
    drawn: Drawn<'_>,
    room: &mut [u8],
    out: &mut Vec<u8>,
) -> Result<(), AllocError>
    requires number { drawn.last + 1 < 2 ^ 32 }
    requires content { IfSome content (λ c. (0 < length drawn.keys.now) × ((length c.now ≤ 4096) × (4112 ≤ length room.old))) }
    ensures { out.new.items ≡ (if is_ok result then out.old.items ++ place_bytes S.sealed node.number drawn.entry.last drawn.entry.keys.now (content_in content.entry) else out.old.items) }
{
    match content {
        Some(content) => {
            let part = &mut room[0..content.len() + 16];
            push_content(cipher, node, drawn.key(0), content, part, out)
        }
        None => push_out(node, drawn.last + 1, out),
    }
}

// The records of a change: that of the place, and then from the place up.
fn write<S: Sealing>(
    cipher: &mut S,
    node: NodeId,
    path: Path<'_>,
    content: Option<&[u8]>,
    drawn: Drawn<'_>,
    part: &mut [u8; 48],
    room: &mut [u8],
    out: &mut Vec<u8>,
) -> Result<(), AllocError>
    requires keys { draws (content_in content) path.levels ≤ length drawn.keys.now }
    requires numbers { drawn.last + 1 + draws (content_in content) path.levels < 2 ^ 32 }
    requires content { IfSome (content_in content) (λ c. length c ≤ 4096) }
    requires room { IsSome content → 4112 ≤ length room.old }
    ensures { Extends result out.old.items (place_bytes S.sealed node.number drawn.entry.last drawn.entry.keys.now (content_in content.entry) ++ turns_bytes S.sealed node.number (first_of (content_in content.entry)) drawn.entry.last drawn.entry.keys.now path.entry.siblings.now path.entry.levels) out.new.items }
{
    push_place(cipher, node, content, drawn, room, out)?;
    climb(cipher, node, path, first(content), drawn, part, out)
}

// Changes a place: puts a content in, whatever it held; or takes out what it holds, or nothing. The records of the change at the end of `out`, and the number of the root's new key. `part` and `room` are working memory, which holds nothing that isn't sealed afterwards. A taking out needs no room, so the two are lent apart.
pub fn change<S: Sealing>(
    cipher: &mut S,
    path: Path<'_>,
    content: Option<&[u8]>,
    drawn: Drawn<'_>,
    part: &mut [u8; 48],
    room: &mut [u8],
    out: &mut Vec<u8>,
) -> Result<u32, Failure>
    requires room { IsSome content → 4112 ≤ length room.old }
    ensures { Writes S.sealed path.entry.levels path.entry.place (content_in content.entry) drawn.entry.keys.now drawn.entry.last path.entry.siblings.now out.old.items result out.new.items }
{
    let node = check(path, content, drawn)?;
    let before = out.len();
    let written = write(cipher, node, path, content, drawn, part, room, out);
    // What was begun is cut off again before the error is handed on.
    if written.is_err() {
        out.truncate(before);
        return Err(Failure::Memory);
    }
    Ok(drawn.last + draws(path.levels, content))
}

// Puts a content in a place.
pub fn put<S: Sealing>(
    cipher: &mut S,
    path: Path<'_>,
    content: &[u8],
    drawn: Drawn<'_>,
    part: &mut [u8; 48],
    room: &mut [u8],
    out: &mut Vec<u8>,
) -> Result<u32, Failure>
    requires { 4112 ≤ length room.old }
    ensures { Writes S.sealed path.entry.levels path.entry.place (Some content.now) drawn.entry.keys.now drawn.entry.last path.entry.siblings.now out.old.items result out.new.items }
{
    change(cipher, path, Some(content), drawn, part, room, out)
}

// Takes out what a place holds, or nothing.
pub fn take_out<S: Sealing>(
    cipher: &mut S,
    path: Path<'_>,
    drawn: Drawn<'_>,
    part: &mut [u8; 48],
    out: &mut Vec<u8>,
) -> Result<u32, Failure>
    ensures { Writes S.sealed path.entry.levels path.entry.place None drawn.entry.keys.now drawn.entry.last path.entry.siblings.now out.old.items result out.new.items }
{
    change(cipher, path, None, drawn, part, &mut [], out)
}

// A change to its end: the root's new key is in `root`, and every key that was handed in is zeros. Refused, or out of memory, the keys are as they were. The working memory is zeros on every way.
fn change_and_hand_over<S: Sealing>(
    cipher: &mut S,
    path: Path<'_>,
    content: Option<&[u8]>,
    keys: &mut [Key],
    last: u32,
    part: &mut [u8; 48],
    room: &mut [u8],
    out: &mut Vec<u8>,
    root: &mut Key,
) -> Result<u32, Failure>
    requires some { 1 ≤ draws (content_in content) path.levels }
    requires room { IsSome content → 4112 ≤ length room.old }
    ensures writes { Writes S.sealed path.entry.levels path.entry.place (content_in content.entry) keys.old last path.entry.siblings.now out.old.items result out.new.items }
    ensures leaves { Leaves (draws (content_in content.entry) path.entry.levels - 1) keys.old root.old result keys.new root.new }
    ensures part { part.new ≡ replicate 48 0 }
    ensures room { room.new ≡ replicate (length room.old) 0 }
{
    let answer = change(cipher, path, content, Drawn { keys, last }, part, room, out);
    *part = [0; 48];
    octets::wipe(room);
    let number = answer?;
    hand_over(keys, (number - last - 1) as usize, root);
    Ok(number)
}

// A put to its end.
pub fn put_and_hand_over<S: Sealing>(
    cipher: &mut S,
    path: Path<'_>,
    content: &[u8],
    keys: &mut [Key],
    last: u32,
    part: &mut [u8; 48],
    room: &mut [u8],
    out: &mut Vec<u8>,
    root: &mut Key,
) -> Result<u32, Failure>
    requires { 4112 ≤ length room.old }
    ensures writes { Writes S.sealed path.entry.levels path.entry.place (Some content.now) keys.old last path.entry.siblings.now out.old.items result out.new.items }
    ensures leaves { Leaves path.entry.levels keys.old root.old result keys.new root.new }
    ensures part { part.new ≡ replicate 48 0 }
    ensures room { room.new ≡ replicate (length room.old) 0 }
{
    change_and_hand_over(
        cipher,
        path,
        Some(content),
        keys,
        last,
        part,
        room,
        out,
        root,
    )
}

// A taking out to its end.
pub fn take_out_and_hand_over<S: Sealing>(
    cipher: &mut S,
    path: Path<'_>,
    keys: &mut [Key],
    last: u32,
    part: &mut [u8; 48],
    out: &mut Vec<u8>,
    root: &mut Key,
) -> Result<u32, Failure>
    requires { 1 ≤ path.levels }
    ensures writes { Writes S.sealed path.entry.levels path.entry.place None keys.old last path.entry.siblings.now out.old.items result out.new.items }
    ensures leaves { Leaves (path.entry.levels - 1) keys.old root.old result keys.new root.new }
    ensures part { part.new ≡ replicate 48 0 }
{
    change_and_hand_over(cipher, path, None, keys, last, part, &mut [], out, root)
}
