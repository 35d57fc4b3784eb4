// Keys: 32 secret bytes, filled from buffers and wiped; no key is copied.
ghost use Rattle.std.specs.Prelude.{◌≡◌, ◌≤◌, length, take, replicate};

// A key can't be copied, and it can be let go only where it is proved to be wiped.
pub struct Key {
    bytes: [u8; 32],
    ghost long: { length bytes ≡ 32 },
}

impl Drop for Key {
    fn drop(self)
        requires { self.bytes ≡ replicate 32 0 }
    {
        let Key { bytes: _ } = self;
    }
}

impl Key {
    pub const LEN: usize = 32;

    // Zeros: no key yet.
    pub fn blank() -> Key
        ensures { result.bytes ≡ replicate 32 0 }
    {
        Key { bytes: [0; 32] }
    }

    // A key moved out of a buffer, which is zeros afterwards.
    pub fn take(buffer: &mut [u8; 32]) -> Key
        ensures value { result.bytes ≡ buffer.old }
        ensures wiped { buffer.new ≡ replicate 32 0 }
    {
        let mut key = Key::blank();
        key.fill(buffer);
        key
    }

    pub fn as_bytes(&self) -> &[u8; 32]
        ensures { result.now ≡ self.now.bytes }
    {
        &self.bytes
    }

    // Another key in place of this one, read out of the first 32 bytes of a buffer, which stays as it is.
    pub fn load(&mut self, buffer: &[u8])
        requires { 32 ≤ length buffer.now }
        ensures { self.new.bytes ≡ take 32 buffer.now }
    {
        self.bytes.copy_from_slice(&buffer[0..32]);
    }

    // Clears the key to zeros.
    pub fn wipe(&mut self)
        ensures { self.new.bytes ≡ replicate 32 0 }
    {
        self.bytes = [0; 32];
    }

    // Moves the bytes of a buffer in, in place of the key's; the buffer is zeros afterwards.
    pub fn fill(&mut self, buffer: &mut [u8; 32])
        ensures value { self.new.bytes ≡ buffer.old }
        ensures wiped { buffer.new ≡ replicate 32 0 }
    {
        self.bytes = *buffer;
        *buffer = [0; 32];
    }
}
