// The stream cipher ChaCha20 of RFC 8439, sections 2.1 to 2.4.
#![tactic(auto)]

mod rounds;
pub mod stream;
