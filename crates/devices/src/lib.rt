// The devices below the store: a medium, to which bytes are added, and a chip, which holds one key. Each is known by what was asked of it and what it answered.
#![tactic(auto)]

pub mod chip;
pub mod fault;
pub mod medium;
