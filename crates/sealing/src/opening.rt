// Nonces, marks, and the error of opening.

// What tells apart the texts that are sealed under one key.
#[derive(Clone, Copy, PartialEq, Eq, Debug)]
pub struct Nonce(pub [u8; 12]);

// The mark of a sealed text. It has no `==`: only `aead::open` compares marks, and it reads every byte.
#[derive(Clone, Copy)]
pub struct Mark(pub [u8; 16]);

// The mark doesn't agree, and nothing was written.
#[derive(Clone, Copy, PartialEq, Eq, Debug)]
pub struct DoesNotOpen;
