// Sealing and opening by ChaCha20 and Poly1305: RFC 8439, section 2.8.
#![tactic(auto)]

pub mod aead;
pub mod key;
mod mark;
pub mod opening;
pub mod workspace;
