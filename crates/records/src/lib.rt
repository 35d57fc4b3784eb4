// The records of the medium: decoding and encoding.
#![tactic(auto)]

pub mod decode;
pub mod encode;
pub mod record;
#[cfg(test)]
mod tests;
