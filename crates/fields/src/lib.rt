// The fields of commands: what words come to, and why a line has no answer but a complaint.
#![tactic(auto)]

pub mod faults;
pub mod field;
pub mod reading;
pub mod writing;
