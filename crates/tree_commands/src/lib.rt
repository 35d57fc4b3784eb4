// Commands on a small tree of keys, which lasts from line to line.
#![tactic(auto)]

pub mod command;
pub mod key_tree;
mod play_command;
mod plays;
mod rehearsals;
