// The store: contents in places, over a medium and a chip.
#![tactic(auto)]

pub mod calls;
mod commit;
pub mod life;
mod prepare;
mod read;
pub mod seat;
pub mod state;
pub mod wipe;
pub mod work;
