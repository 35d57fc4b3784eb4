// The mark of a sealed text, made in the working memory.
ghost use Rattle.std.specs.Prelude.{◌≡◌, ℕ, ◌^◌, ◌<◌, ◌++◌, length, take, drop, replicate};
ghost use Rattle.octets.specs.Endian.{le, le_bytes};
ghost use Rattle.chacha20.specs.Stream.{idle};
ghost use Rattle.poly1305.specs.Poly1305.{clamp};
ghost use Rattle.poly1305.specs.State.{accumulator, multiplier, added};
ghost use Rattle.sealing.specs.Aead.{one_time_key, tag as tag_of};
ghost use Rattle.sealing.specs.Work.{Idle, absorbed_text};

use crate::workspace::Workspace;
use chacha20::stream::Stream;
use poly1305::Poly1305;

// The two lengths, of eight bytes each.
fn lengths(marked: usize, sealed: usize) -> [u8; 16]
    ensures { result ≡ le_bytes 8 marked ++ le_bytes 8 sealed }
{
    let mut out = [0; 16];
    octets::put_word(&mut out, 0, marked as u64);
    octets::put_word(&mut out, 8, sealed as u64);
    out
}

// The first half of a block.
fn first_half(block: &[u8; 64], out: &mut [u8; 32])
    ensures { out.new ≡ take 32 block.now }
{
    out.copy_from_slice(&block[0..32]);
}

impl Workspace {
    // All zeros.
    pub fn new() -> Workspace
        ensures { Idle result }
    {
        Workspace {
            stream: Stream::new(),
            mark: Poly1305::new(),
            block: [0; 64],
            once: [0; 32],
        }
    }

    // Everything cleared to zeros.
    pub fn wipe(&mut self)
        ensures { Idle self.new }
    {
        self.stream.wipe();
        self.mark = Poly1305::new();
        self.wipe_once();
    }

    // The one-time key and the block that it came from, cleared to zeros.
    fn wipe_once(&mut self)
        ensures block { self.new.block ≡ replicate 64 0 }
        ensures once { self.new.once ≡ replicate 32 0 }
        ensures stream { self.new.stream ≡ self.old.stream }
        ensures mark { self.new.mark ≡ self.old.mark }
    {
        self.block = [0; 64];
        self.once = [0; 32];
    }

    // The one-time key of a key and a nonce.
    fn make_once(&mut self, key: &[u8; 32], nonce: &[u8; 12])
        ensures once { self.new.once ≡ one_time_key key.now nonce.now }
        ensures stream { self.new.stream ≡ idle }
    {
        self.stream.block(key, 0, nonce, &mut self.block);
        first_half(&self.block, &mut self.once);
    }

    // A mark begun under the one-time key of a key and a nonce.
    fn begin_mark(&mut self, key: &[u8; 32], nonce: &[u8; 12])
        ensures accumulator { accumulator self.new.mark ≡ 0 }
        ensures multiplier { multiplier self.new.mark ≡ clamp (le (take 16 (one_time_key key.now nonce.now))) }
        ensures added { added self.new.mark ≡ le (take 16 (drop 16 (one_time_key key.now nonce.now))) }
        ensures stream { self.new.stream ≡ idle }
        ensures block { self.new.block ≡ replicate 64 0 }
        ensures once { self.new.once ≡ replicate 32 0 }
    {
        self.make_once(key, nonce);
        self.mark.begin(&self.once);
        self.wipe_once();
    }

    // What the mark is made of.
    fn absorb_text(&mut self, marked: &[u8], sealed: &[u8])
        ensures accumulator { accumulator self.new.mark ≡ absorbed_text (multiplier self.old.mark) (accumulator self.old.mark) marked.now sealed.now }
        ensures added { added self.new.mark ≡ added self.old.mark }
        ensures stream { self.new.stream ≡ self.old.stream }
        ensures block { self.new.block ≡ self.old.block }
        ensures once { self.new.once ≡ self.old.once }
    {
        self.mark.absorb_padded(marked);
        self.mark.absorb_padded(sealed);
        let both = lengths(marked.len(), sealed.len());
        self.mark.absorb_padded(&both);
    }

    // The mark of a sealed text.
    pub(crate) fn tag(
        &mut self,
        key: &[u8; 32],
        nonce: &[u8; 12],
        marked: &[u8],
        sealed: &[u8],
    ) -> [u8; 16]
        ensures tag { result ≡ tag_of key.now nonce.now marked.now sealed.now }
        ensures wiped { Idle self.new }
    {
        self.begin_mark(key, nonce);
        self.absorb_text(marked, sealed);
        self.mark.finish()
    }
}
