// Going down from the chip's key: reading what the medium has along a path, and opening it.
#![tactic(auto)]

pub mod failure;
pub mod part;
pub mod path;
pub mod sibling;
pub mod source;
