// One change of one place, as records: the keys that it draws, and what it writes.
#![tactic(auto)]

pub mod change;
pub mod check;
mod climb;
pub mod failure;
pub mod keys;
pub mod node;
pub mod path;
#[cfg(test)]
mod tests;
mod write;
