// A put and a taking out in a tree of two places, with keys of zeros.
ghost use Rattle.std.specs.Prelude.{◌≡◌, IfOk, vec_len};

use crate::change::change;
use crate::failure::Failure;
use crate::keys::Drawn;
use crate::node::{NodeKey, let_go};
use crate::path::Path;
use cipher::transparent::Transparent;
use sealing::key::Key;
use std::alloc::{AllocError, Global};
use std::test::Fail;

// One sibling, without a key.
fn no_siblings(heap: Global) -> Result<Vec<Option<NodeKey>>, AllocError>
    ensures { IfOk result (λ nodes. vec_len nodes ≡ 1) }
{
    let mut siblings = Vec::with_capacity(heap, 1)?;
    siblings.push_reserved(None);
    Ok(siblings)
}

// Changes place 0: the number of the root's key, and how many bytes the records have.
fn change_first(
    heap: Global,
    content: Option<&[u8]>,
) -> Result<(Result<u32, Failure>, usize), AllocError> {
    let mut out = Vec::new(heap);
    let mut room = vec![in heap; 0; 4112]?;
    let siblings = no_siblings(heap)?;
    let keys = [Key::blank(), Key::blank()];
    let drawn = Drawn {
        keys: &keys,
        last: 0,
    };
    let path = Path {
        levels: 1,
        place: 0,
        siblings: &siblings,
    };
    let answer = change(
        &mut Transparent,
        path,
        content,
        drawn,
        &mut [0; 48],
        &mut room,
        &mut out,
    );
    let [mut first, mut second] = keys;
    first.wipe();
    second.wipe();
    let_go(siblings);
    Ok((answer, out.len()))
}

#[test]
fn puts(rt: HostRuntime) -> Result<(), Fail> {
    let answer = change_first(rt.alloc(), Some(b"a".as_slice()))?;
    assert_eq!(rt; answer, (Ok(2), 28 + 61));
    Ok(())
}

#[test]
fn takes_out(rt: HostRuntime) -> Result<(), Fail> {
    let answer = change_first(rt.alloc(), None)?;
    assert_eq!(rt; answer, (Ok(1), 9));
    Ok(())
}
