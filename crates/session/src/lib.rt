// One session with a store: a command a line, an answer a line.
#![tactic(auto)]

pub mod chance;
pub mod session;
mod texts;
