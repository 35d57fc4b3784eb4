// Bytes and the numbers that they write; buffers cleared to zeros.
#![tactic(auto)]

ghost use Rattle.std.specs.Prelude.{◌≡◌, ℕ, ◌+◌, ◌<◌, ◌≤◌, List, ◌++◌, length, take, drop, replicate};
ghost use Rattle.octets.specs.Endian.{le, le_bytes};

// A number that a fixed count of bytes writes, the lowest byte first.
pub trait Word: Copy {
    const WIDTH: usize;

    ghost WIDTH: { ℕ };

    ghost number: { Self → ℕ };

    // The word that the bytes write.
    fn read(bytes: &[u8]) -> Self
        requires { length bytes.now ≡ WIDTH }
        ensures { number result ≡ le bytes.now };

    // The bytes that write the word.
    fn write(self, out: &mut [u8])
        requires { length out.old ≡ WIDTH }
        ensures { out.new ≡ le_bytes WIDTH (number self) };
}

impl Word for u32 {
    const WIDTH: usize = 4;

    ghost WIDTH = { 4 };

    ghost number = { λ word. word };

    fn read(bytes: &[u8]) -> u32 {
        u32::from_le_bytes([bytes[0], bytes[1], bytes[2], bytes[3]])
    }

    fn write(self, out: &mut [u8]) {
        out.copy_from_slice(&u32::to_le_bytes(self));
    }
}

impl Word for u64 {
    const WIDTH: usize = 8;

    ghost WIDTH = { 8 };

    ghost number = { λ word. word };

    fn read(bytes: &[u8]) -> u64 {
        u64::from_le_bytes([
            bytes[0], bytes[1], bytes[2], bytes[3], bytes[4], bytes[5], bytes[6], bytes[7],
        ])
    }

    fn write(self, out: &mut [u8]) {
        out.copy_from_slice(&u64::to_le_bytes(self));
    }
}

// The word that stands in the bytes from `at` on. Callers read several words of one buffer, and their contracts say by the offset which bytes those are.
pub fn word_at<W: Word>(bytes: &[u8], at: usize) -> W
    requires { at + W.WIDTH ≤ length bytes.now }
    ensures { W.number result ≡ le (take W.WIDTH (drop at bytes.now)) }
{
    W::read(&bytes[at..at + W::WIDTH])
}

// A word written into the bytes from `at` on.
pub fn put_word<W: Word>(out: &mut [u8], at: usize, word: W)
    requires { at + W.WIDTH ≤ length out.old }
    ensures { out.new ≡ take at out.old ++ (le_bytes W.WIDTH (W.number word) ++ drop (at + W.WIDTH) out.old) }
{
    word.write(&mut out[at..at + W::WIDTH]);
}

// A buffer cleared to zeros.
pub fn wipe(buffer: &mut [u8])
    ensures { buffer.new ≡ replicate (length buffer.old) 0 }
{
    buffer.fill(0);
}

#[cfg(test)]
mod tests {
    use super::*;

    // Words of RFC 8439, sections 2.3.2 and 2.8.2: of a key, and the length of a text.
    #[test]
    fn words(rt: HostRuntime) {
        let key = [0, 1, 2, 3, 4, 5, 6, 7];
        assert_eq!(rt; word_at::<u32>(&key, 4), 0x0706_0504);
        assert_eq!(rt; word_at::<u64>(&key, 0), 0x0706_0504_0302_0100);
        let mut out = [0; 12];
        put_word(&mut out, 0, 0x0706_0504u32);
        put_word(&mut out, 4, 114u64);
        assert_eq!(rt; out, [4, 5, 6, 7, 114, 0, 0, 0, 0, 0, 0, 0]);
    }
}
