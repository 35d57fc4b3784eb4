// Sealing by the standard, RFC 8439 section 2.8.
ghost use Rattle.std.specs.Prelude.{◌≡◌, ℕ, ◌+◌, ◌-◌, ◌≤◌, List, ◌++◌, length, drop, IfOk};
ghost use Rattle.sealing.specs.Work.{Idle};
ghost use Rattle.cipher.specs.Sealed.{standard, text_of, Comes};
ghost use Rattle.cipher.specs.Parts.{length-standard, standard-apart};

use crate::sealing_trait::Sealing;
use sealing::aead;
use sealing::key::Key;
use sealing::opening::{DoesNotOpen, Mark, Nonce};
use sealing::workspace::Workspace;
use std::alloc::{AllocError, Global};

// The standard's sealing, with its working memory on the heap.
#[derive(Drop)]
pub struct Standard {
    work: Box<Workspace>,
}

impl Standard {
    pub fn new(heap: Global) -> Result<Standard, AllocError>
        ensures { IfOk result (λ s. Idle s.work.value) }
    {
        Ok(Standard {
            work: Box::new(heap, Workspace::new())?,
        })
    }
}

impl Sealing for Standard {
    ghost sealed = { standard };

    ghost clear = { λ s. Idle s.work.value };

    ghost long = { λ key nonce marked text h. length-standard key nonce marked text };

    ghost apart = { λ key nonce marked one other h e. standard-apart key nonce marked one other e };

    fn seal(&mut self, key: &Key, nonce: &Nonce, marked: &[u8], part: &mut [u8]) {
        let (text, end) = part.split_last_chunk_mut::<16>().unwrap();
        let mark = aead::seal(key, nonce, marked, text, &mut self.work).unwrap();
        end.copy_from_slice(&mark.0);
    }

    fn open(
        &mut self,
        key: &Key,
        nonce: &Nonce,
        marked: &[u8],
        part: &mut [u8],
    ) -> Result<(), DoesNotOpen> {
        let (text, end) = part.split_last_chunk_mut::<16>().unwrap();
        let mark = Mark(*end);
        aead::open(key, nonce, marked, text, &mark, &mut self.work)
    }
}
