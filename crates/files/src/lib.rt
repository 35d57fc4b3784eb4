// Ends for the store on two files: a medium that grows at its end, and a chip.
#![tactic(auto)]

pub mod chip;
mod directory;
mod image;
pub mod medium;
pub mod unopened;
