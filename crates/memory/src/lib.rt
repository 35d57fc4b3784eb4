// Ends in memory for the store, for rehearsals and tests: they can be told to stop at any point.
#![tactic(auto)]

pub mod chip;
pub mod medium;
mod power;
