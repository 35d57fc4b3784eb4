// The refusals of a change, the lowest number first.
ghost use Rattle.std.specs.Prelude.{◌≡◌, ℕ, ◌+◌, ◌^◌, ◌<◌, ◌≤◌, length, Some, None};
ghost use Rattle.forgetting.specs.Change.{draws};
ghost use Rattle.change.specs.Nodes.{content_in, first_of};
ghost use Rattle.change.specs.Outcome.{Checked, is_content};

use crate::keys::Drawn;
use crate::path::Path;
use records::record::{HIGHEST, LONGEST_CONTENT};
use tree::answer::Refusal;
use tree::node::NodeId;
use tree::numbers::place_node;

// How many keys a change of a place draws: one for each node above it, and one for its own node where a content is put in.
pub(crate) fn draws(levels: u32, content: Option<&[u8]>) -> u32
    requires { levels ≤ 20 }
    ensures { result ≡ draws (content_in content.entry) levels }
{
    match content {
        Some(_) => levels + 1,
        None => levels,
    }
}

// The index of the key that the node above the place gets: a put draws one for the place's node first.
pub(crate) fn first(content: Option<&[u8]>) -> usize
    ensures { result ≡ first_of (content_in content.entry) }
{
    match content {
        Some(_) => 1,
        None => 0,
    }
}

// Whether a place can hold that content; taking out asks for none.
pub fn can_hold(content: Option<&[u8]>) -> bool
    ensures { result ≡ is_content (content_in content.entry) }
{
    match content {
        Some(content) => !content.is_empty() && content.len() <= LONGEST_CONTENT as usize,
        None => true,
    }
}

// The node of the place that can be changed so.
pub(crate) fn check(
    path: Path<'_>,
    content: Option<&[u8]>,
    drawn: Drawn<'_>,
) -> Result<NodeId, Refusal>
    ensures { Checked path.entry.levels path.entry.place (content_in content.entry) (length drawn.entry.keys.now) drawn.entry.last result }
{
    let node = place_node(path.levels, path.place).ok_or(Refusal::NoSuchPlace)?;
    if !can_hold(content) {
        return Err(Refusal::NoSuchPlace);
    }
    let draws = draws(path.levels, content);
    if drawn.keys.len() < draws as usize {
        return Err(Refusal::FewKeys);
    }
    if drawn.last > HIGHEST - draws {
        return Err(Refusal::NumbersSpent);
    }
    Ok(node)
}
