// A rehearsal: the proved changes on a small tree, with numbers for keys and sealing that hides nothing.
#![tactic(auto)]

pub mod given;
pub mod keys;
pub mod levels;
pub mod numbers;
pub mod readable;
pub mod state;
