// The key stream, block by block, in working memory that the caller lends.
ghost use Rattle.std.specs.Prelude.{◌≡◌, ℕ, ◌+◌, ◌*◌, ◌^◌, ◌<◌, ◌≤◌, List, ◌++◌, length, take, bit_xor};
ghost use Rattle.std.specs.Simd.Lanes.{zip2};
ghost use Rattle.chacha20.specs.ChaCha20.{initial, serialize, mixed, output, blocks, block as block_of, encrypt as encrypted};
ghost use Rattle.chacha20.specs.Stream.{idle, advanced, Encrypts};

use crate::rounds::mix;
use octets::{put_word, word_at};

// "expand 32-byte k"
const CONSTANTS: [u32; 4] = [0x6170_7865, 0x3320_646e, 0x7962_2d32, 0x6b20_6574];

// The bytes of a block.
const BLOCK: usize = 64;

// How many blocks a counter of 32 bits tells apart.
const BLOCKS: u64 = 0x1_0000_0000;

// The place of the block counter in a state.
const COUNTER: usize = 12;

// The text takes more blocks than the counter can count.
#[derive(Clone, Copy, PartialEq, Eq, Debug)]
pub struct TooLong;

// A key stream under way: the state that the next block begins from, the state that is worked on, and the block. All of it is secret, so it is lent, heap-held by its owner, and zeros whenever no call is under way: its public calls say so, since of the type it would not hold in the middle of one.
#[derive(Drop)]
pub struct Stream {
    input: [u32; 16],
    state: [u32; 16],
    block: [u8; 64],
}

// The state that a block begins from, word by word as the standard draws it. Key, counter and nonce are its three arguments everywhere; callers have each from elsewhere.
#[tactic(auto, unfolding(crate::specs::ChaCha20::initial, crate::specs::ChaCha20::word))]
fn initial_state(key: &[u8; 32], counter: u32, nonce: &[u8; 12]) -> [u32; 16]
    ensures { result ≡ initial key.now counter nonce.now }
{
    [
        CONSTANTS[0],
        CONSTANTS[1],
        CONSTANTS[2],
        CONSTANTS[3],
        word_at(key, 0),
        word_at(key, 4),
        word_at(key, 8),
        word_at(key, 12),
        word_at(key, 16),
        word_at(key, 20),
        word_at(key, 24),
        word_at(key, 28),
        counter,
        word_at(nonce, 0),
        word_at(nonce, 4),
        word_at(nonce, 8),
    ]
}

// The words as bytes.
fn serialize_into(words: &[u32; 16], out: &mut [u8; 64])
    ensures { out.new ≡ serialize words.now }
{
    for (i, word) in words.iter().enumerate() {
        put_word(out, 4 * i, *word);
    }
}

// Each byte of a part with that of a block by exclusive or.
fn xor_block(part: &mut [u8], block: &[u8; 64])
    requires { length part.old ≤ 64 }
    ensures { part.new ≡ zip2 bit_xor part.old block.now }
{
    // By index: of a part that is written through a `zip` a proof knows the length alone.
    for (i, byte) in part.iter_mut().enumerate() {
        *byte ^= block[i];
    }
}

impl Stream {
    // Working memory, all zeros.
    pub fn new() -> Stream
        ensures { result ≡ idle }
    {
        Stream {
            input: [0; 16],
            state: [0; 16],
            block: [0; 64],
        }
    }

    // The block of the state that it begins from.
    #[tactic(auto, unfolding(crate::specs::ChaCha20::output))]
    fn make_block(&mut self)
        ensures block { self.new.block ≡ output self.old.input }
        ensures input { self.new.input ≡ self.old.input }
    {
        mix(&self.input, &mut self.state);
        serialize_into(&self.state, &mut self.block);
    }

    // The next block; the counter goes on.
    fn next_block(&mut self)
        ensures block { self.new.block ≡ output self.old.input }
        ensures input { self.new.input ≡ advanced self.old.input }
    {
        self.make_block();
        self.input[COUNTER] = self.input[COUNTER].wrapping_add(1);
    }

    // Everything cleared to zeros.
    pub fn wipe(&mut self)
        ensures { self.new ≡ idle }
    {
        self.input = [0; 16];
        self.state = [0; 16];
        self.block = [0; 64];
    }

    // The text under the key stream from the counter on.
    fn apply(&mut self, key: &[u8; 32], counter: u32, nonce: &[u8; 12], text: &mut [u8])
        requires { counter + blocks (length text.old) ≤ 2 ^ 32 }
        ensures { text.new ≡ encrypted key.now counter nonce.now text.old }
    {
        self.input = initial_state(key, counter, nonce);
        let len = text.len();
        // By index: of a text that is written through `chunks_mut` a proof knows the length alone.
        for i in 0..len.div_ceil(BLOCK) {
            self.next_block();
            let at = BLOCK * i;
            let end = (at + BLOCK).min(len);
            xor_block(&mut text[at..end], &self.block);
        }
    }

    // The block of a key, a counter and a nonce.
    pub fn block(&mut self, key: &[u8; 32], counter: u32, nonce: &[u8; 12], out: &mut [u8; 64])
        ensures value { out.new ≡ block_of key.now counter nonce.now }
        ensures wiped { self.new ≡ idle }
    {
        self.input = initial_state(key, counter, nonce);
        self.make_block();
        out.copy_from_slice(&self.block);
        self.wipe();
    }

    // Encrypts or decrypts a text in place. One that would take the counter past its 32 bits is refused, and stays as it was.
    pub fn encrypt(
        &mut self,
        key: &[u8; 32],
        counter: u32,
        nonce: &[u8; 12],
        text: &mut [u8],
    ) -> Result<(), TooLong>
        ensures value { Encrypts key.now counter nonce.now text.old result text.new }
        ensures wiped { self.new ≡ idle }
    {
        if u64::from(counter) + text.len().div_ceil(BLOCK) as u64 > BLOCKS {
            self.wipe();
            return Err(TooLong);
        }
        self.apply(key, counter, nonce, text);
        self.wipe();
        Ok(())
    }
}
