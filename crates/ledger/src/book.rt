// What a ledger keeps.
ghost use Rattle.std.specs.Prelude.{◌≡◌, ◌≤◌, true};
ghost use Rattle.ledger.specs.Book.{after, all_there};

use crate::moves::Move;

// The puts by their numbers, from 0 on: which one stands in each place, and of each whether it stood in its place at some look.
#[derive(Drop)]
pub struct Ledger {
    pub(crate) levels: u32,
    // Numbers of puts, since these are what is printed.
    pub(crate) standing: Vec<Option<usize>>,
    pub(crate) seen: Vec<bool>,
    pub(crate) moves: Vec<Move>,
    ghost few: { levels ≤ 20 },
    ghost placed: { all_there levels moves.items ≡ true },
    ghost stands: { standing.items ≡ (after levels (moves.items)).standing },
    ghost saw: { seen.items ≡ (after levels (moves.items)).seen },
}
