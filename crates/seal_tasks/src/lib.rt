// Carrying the commands out.
#![tactic(auto)]

ghost use Rattle.std.specs.Prelude.{◌≡◌, vec_items};
ghost use Rattle.seal_tasks.specs.Runs.{Answered};
ghost use Rattle.seal_tasks.specs.Tasks.{Sealed, Opened, Blocked, Streamed, Given, Marked};
ghost use Rattle.seal_tasks.specs.Clear.{Clear};

use chacha20::stream::Stream;
use fields::faults::Failure;
use poly1305::{Poly1305, mac};
use seal_commands::{Command, Text};
use sealing::aead;
use sealing::key::Key;
use sealing::opening::{DoesNotOpen, Mark, Nonce};
use sealing::workspace::Workspace;
use std::alloc::Global;

// The bytes of a block, and of a one-time key.
const BLOCK: usize = 64;

const ONCE: usize = 32;

// The working memory of the commands. All of it is secret, so its owner holds it on the heap and lends it. Between the commands nothing is left in it.
#[derive(Drop)]
pub struct Work {
    sealing: Workspace,
    stream: Stream,
    mark: Poly1305,
    ghost clear: { Clear sealing stream mark },
}

impl Work {
    pub fn new() -> Work {
        Work {
            sealing: Workspace::new(),
            stream: Stream::new(),
            mark: Poly1305::new(),
        }
    }

    // The sealed content followed by its mark.
    fn seal(
        &mut self,
        key: &Key,
        nonce: &Nonce,
        marked: &[u8],
        mut content: Vec<u8>,
    ) -> Result<Vec<u8>, Failure>
        ensures { Sealed vec_items key.now.bytes nonce.now.0 marked.now content.items result }
    {
        let mark = aead::seal(key, nonce, marked, &mut content, &mut self.sealing)?;
        content.extend_from_slice(&mark.0)?;
        Ok(content)
    }

    // The content of what was sealed with its mark behind it.
    fn open(
        &mut self,
        key: &Key,
        nonce: &Nonce,
        marked: &[u8],
        mut sealed: Vec<u8>,
    ) -> Result<Vec<u8>, Failure>
        ensures { Opened vec_items key.now.bytes nonce.now.0 marked.now sealed.items result }
    {
        let (content, mark) = sealed.split_last_chunk::<16>().ok_or(DoesNotOpen)?;
        let length = content.len();
        let mark = Mark(*mark);
        sealed.truncate(length);
        aead::open(key, nonce, marked, &mut sealed, &mark, &mut self.sealing)?;
        Ok(sealed)
    }

    // A block of the key stream.
    fn block(
        &mut self,
        heap: Global,
        key: &Key,
        counter: u32,
        nonce: &Nonce,
    ) -> Result<Vec<u8>, Failure>
        ensures { Blocked vec_items key.now.bytes counter nonce.now.0 result }
    {
        let mut block = [0; BLOCK];
        self.stream
            .block(key.as_bytes(), counter, &nonce.0, &mut block);
        Ok(Vec::from_slice(heap, &block)?)
    }

    // The content under the key stream.
    fn stream(
        &mut self,
        key: &Key,
        counter: u32,
        nonce: &Nonce,
        mut content: Vec<u8>,
    ) -> Result<Vec<u8>, Failure>
        ensures { Streamed vec_items key.now.bytes counter nonce.now.0 content.items result }
    {
        self.stream
            .encrypt(key.as_bytes(), counter, &nonce.0, &mut content)?;
        Ok(content)
    }

    // The one-time key of a key and a nonce: the first half of block 0.
    fn once(&mut self, heap: Global, key: &Key, nonce: &Nonce) -> Result<Vec<u8>, Failure>
        ensures { Given vec_items key.now.bytes nonce.now.0 result }
    {
        let mut once = self.block(heap, key, 0, nonce)?;
        once.truncate(ONCE);
        Ok(once)
    }

    // The mark of a message.
    fn mark(&mut self, heap: Global, once: &Key, message: &[u8]) -> Result<Vec<u8>, Failure>
        ensures { Marked vec_items once.now.bytes message.now result }
    {
        let tag = mac(once.as_bytes(), message, &mut self.mark);
        Ok(Vec::from_slice(heap, &tag)?)
    }
}

// An answer, once the key that it was made with is wiped.
fn after_wiping(answer: Result<Vec<u8>, Failure>, mut key: Key) -> Result<Vec<u8>, Failure>
    ensures { result ≡ answer }
{
    key.wipe();
    answer
}

impl Work {
    // Carries the command out. The key is wiped, however it goes.
    pub fn run(&mut self, heap: Global, command: Command) -> Result<Vec<u8>, Failure>
        ensures { Answered vec_items command result }
    {
        match command {
            Command::Seal(
                Text {
                    key,
                    nonce,
                    marked,
                    text,
                },
            ) => after_wiping(self.seal(&key, &nonce, &marked, text), key),
            Command::Open(
                Text {
                    key,
                    nonce,
                    marked,
                    text,
                },
            ) => after_wiping(self.open(&key, &nonce, &marked, text), key),
            Command::Block {
                key,
                counter,
                nonce,
            } => after_wiping(self.block(heap, &key, counter, &nonce), key),
            Command::Stream {
                key,
                counter,
                nonce,
                content,
            } => after_wiping(self.stream(&key, counter, &nonce, content), key),
            Command::Once { key, nonce } => after_wiping(self.once(heap, &key, &nonce), key),
            Command::Mark { once, message } => after_wiping(self.mark(heap, &once, &message), once),
        }
    }
}
