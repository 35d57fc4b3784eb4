// The one-time authenticator Poly1305 of RFC 8439, section 2.5.
#![tactic(auto)]

ghost use Rattle.std.specs.Prelude.{◌≡◌, ◌+◌, ◌-◌, ◌*◌, ◌/◌, ◌%◌, ◌^◌, ◌≤◌, ◌∷◌, ◌++◌, length, take, drop, replicate, bit_and};
ghost use Rattle.octets.specs.Endian.{le, le_bytes};
ghost use Rattle.poly1305.specs.Poly1305.{prime, clamp, absorb_all, blocks, padded, mac};
ghost use Rattle.poly1305.specs.Limbs.{value};
ghost use Rattle.poly1305.specs.State.{accumulator, multiplier, added, Idle, last_block, absorb_part};

mod limbs;
mod state;

use limbs::Limbs;
use octets::word_at;
pub use state::Poly1305;

const BLOCK: usize = 16;

// The clamp of the key's first half, on its two words.
const CLAMP_LOW: u64 = 0x0fff_fffc_0fff_ffff;

const CLAMP_HIGH: u64 = 0x0fff_fffc_0fff_fffc;

// The byte 1 after a whole block, in the highest limb.
const MARK: u64 = 0x100_0000;

impl Poly1305 {
    pub fn new() -> Self
        ensures { Idle result }
    {
        Poly1305 {
            acc: Limbs::ZERO,
            r: Limbs::ZERO,
            s0: 0,
            s1: 0,
        }
    }

    // Takes the key, which serves for one message.
    pub fn begin(&mut self, key: &[u8; 32])
        ensures accumulator { accumulator self.new ≡ 0 }
        ensures multiplier { multiplier self.new ≡ clamp (le (take 16 key.now)) }
        ensures added { added self.new ≡ le (take 16 (drop 16 key.now)) }
    {
        let (s0, s1) = second_half(key);
        self.acc = Limbs::zero();
        self.r = first_half(key);
        self.s0 = s0;
        self.s1 = s1;
    }

    // A part of any length, its last block filled up with zeros.
    pub fn absorb_padded(&mut self, part: &[u8])
        ensures accumulator { accumulator self.new ≡ absorb_all (multiplier self.old) (accumulator self.old) (blocks (length part.now)) (padded part.now) }
        ensures multiplier { multiplier self.new ≡ multiplier self.old }
        ensures added { added self.new ≡ added self.old }
    {
        self.absorb_part(part, 0, MARK);
    }

    // The last part, of any length: its last block may be shorter, and the byte 1 then stands right after it.
    pub fn absorb_last(&mut self, part: &[u8])
        ensures accumulator { accumulator self.new ≡ absorb_all (multiplier self.old) (accumulator self.old) (blocks (length part.now)) part.now }
        ensures multiplier { multiplier self.new ≡ multiplier self.old }
        ensures added { added self.new ≡ added self.old }
    {
        self.absorb_part(part, 1, 0);
    }

    // The whole blocks of a part, and what follows them, if anything: filled up with the byte `end` and zeros, with `top` in the highest limb.
    fn absorb_part(&mut self, part: &[u8], end: u8, top: u64)
        requires { top ≤ 2 ^ 24 }
        ensures accumulator { accumulator self.new ≡ absorb_part (multiplier self.old) (accumulator self.old) part.now end top }
        ensures multiplier { multiplier self.new ≡ multiplier self.old }
        ensures added { added self.new ≡ added self.old }
    {
        let mut acc = absorb_whole(self.acc, self.r, part);
        if part.len() % BLOCK != 0 {
            acc = acc.absorb(self.r, &last_block(part, end), top);
        }
        self.acc = acc;
    }

    // The tag. Nothing of the key or the message is left in the state.
    pub fn finish(&mut self) -> [u8; 16]
        ensures tag { result ≡ le_bytes 16 (accumulator self.old + added self.old) }
        ensures wiped { Idle self.new }
    {
        let tag = self.tag();
        *self = Poly1305::new();
        tag
    }

    // The accumulator with the second half of the key added.
    fn tag(&self) -> [u8; 16]
        ensures { result ≡ le_bytes 16 (accumulator self.now + added self.now) }
    {
        let added = self.s0 as u128 + ((self.s1 as u128) << 64);
        self.acc.reduced().wrapping_add(added).to_le_bytes()
    }
}

// The two words of the first half of the key, with the bits cleared that the clamp clears.
fn clamped(lo: u64, hi: u64) -> (u64, u64)
    ensures { (result.0 ≡ bit_and lo 0x0ffffffc0fffffff) × (result.1 ≡ bit_and hi 0x0ffffffc0ffffffc) }
{
    (lo & CLAMP_LOW, hi & CLAMP_HIGH)
}

// The first half of the key, by which the accumulator is multiplied.
fn first_half(key: &[u8; 32]) -> Limbs
    ensures { value result ≡ clamp (le (take 16 key.now)) }
{
    let (lo, hi) = clamped(word_at(key, 0), word_at(key, 8));
    Limbs::from_words(lo, hi, 0)
}

// The second half of the key, as two words.
fn second_half(key: &[u8; 32]) -> (u64, u64)
    ensures { result.0 + 2 ^ 64 * result.1 ≡ le (take 16 (drop 16 key.now)) }
{
    (word_at(key, 16), word_at(key, 24))
}

// The tag of a message. The state is working memory: whatever it held, it is zeros afterwards.
pub fn mac(key: &[u8; 32], message: &[u8], state: &mut Poly1305) -> [u8; 16]
    ensures tag { result ≡ mac key.now message.now }
    ensures wiped { Idle state.new }
{
    state.begin(key);
    state.absorb_last(message);
    state.finish()
}

// The whole blocks of a part.
fn absorb_whole(mut acc: Limbs, r: Limbs, part: &[u8]) -> Limbs
    ensures { value result % prime ≡ absorb_all (value r) (value acc % prime) (length part.now / 16) part.now }
{
    let (whole, _) = part.as_chunks::<BLOCK>();
    for block in whole {
        acc = acc.absorb(r, block, MARK);
    }
    acc
}

// What follows the whole blocks of a part, then the byte `end`, and zeros up to a block.
fn last_block(part: &[u8], end: u8) -> [u8; 16]
    ensures { result ≡ last_block part.now end }
{
    let (_, rest) = part.as_chunks::<BLOCK>();
    let mut block = [0; BLOCK];
    block[..rest.len()].copy_from_slice(rest);
    block[rest.len()] = end;
    block
}

#[cfg(test)]
mod tests {
    use super::*;

    // RFC 8439, section 2.5.2.
    const KEY: &[u8; 32] =
        b"\x85\xd6\xbe\x78\x57\x55\x6d\x33\x7f\x44\x52\xfe\x42\xd5\x06\xa8\x01\x03\x80\x8a\xfb\x0d\xb2\xfd\x4a\xbf\xf6\xaf\x41\x49\xf5\x1b";

    #[test]
    fn tags(rt: HostRuntime) {
        let cases: [(&[u8; 32], &[u8], &[u8; 16]); 3] = [
            (
                KEY,
                b"Cryptographic Forum Research Group",
                b"\xa8\x06\x1d\xc1\x30\x51\x36\xc6\xc2\x2b\x8b\xaf\x0c\x01\x27\xa9",
            ),
            // The sum reaches the prime, and is reduced once more.
            (
                b"\x02\0\0\0\0\0\0\0\0\0\0\0\0\0\0\0\0\0\0\0\0\0\0\0\0\0\0\0\0\0\0\0",
                &[0xff; 16],
                b"\x03\0\0\0\0\0\0\0\0\0\0\0\0\0\0\0",
            ),
            // The largest key and blocks: every limb carries, and the tag passes 128 bits.
            (
                &[0xff; 32],
                &[0xff; 33],
                b"\x86\xfa\x6a\x43\x7b\xf4\xec\x24\xa2\x74\x50\x4d\xc3\x74\x95\xbc",
            ),
        ];
        let mut state = Poly1305::new();
        for (key, message, tag) in cases {
            assert_eq!(rt; mac(key, message, &mut state), *tag);
        }
        state.begin(KEY);
        state.absorb_padded(b"Cryptographic Forum");
        state.absorb_last(b"Research Group");
        assert_eq!(rt;
            state.finish(),
            *b"\x0e\x0b\xad\x5e\x02\x6b\x34\x4a\x0e\x32\x1b\x0d\x3f\x99\xc3\xfd"
        );
    }
}
