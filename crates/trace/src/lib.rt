// Logs that no code holds and that take no memory: what was asked of a medium, and what a chip was given.
#![tactic(auto)]

mod asked;
pub mod ledger;
pub mod trace;
