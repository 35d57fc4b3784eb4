// Sealing and opening for programs in C and Rust. Each call takes its working memory from the heap; false also where there is none. The answers are C's, a bool, and each call is written out whole, as C declares it.
#![tactic(auto)]

ghost use Rattle.capi.specs.Calls.{Sealed, Opened};

use sealing::aead::{open, seal};
use sealing::key::Key;
use sealing::opening::{Mark, Nonce};
use sealing::workspace::Workspace;
use std::alloc::Global;

// Seals a text in place, and writes its mark.
#[unsafe(no_mangle)]
pub extern "C" fn basilwrench_seal(
    heap: Global,
    key: &[u8; 32],
    nonce: &[u8; 12],
    marked: &[u8],
    text: &mut [u8],
    mark: &mut [u8; 16],
) -> bool
    ensures { Sealed key.now nonce.now marked.now text.old mark.old result text.new mark.new }
{
    let Ok(mut work) = Box::new(heap, Workspace::new()) else {
        return false;
    };
    let mut bytes = *key;
    let mut secret = Key::take(&mut bytes);
    let sealed = seal(&secret, &Nonce(*nonce), marked, text, &mut work);
    secret.wipe();
    let Ok(made) = sealed else {
        return false;
    };
    mark.copy_from_slice(&made.0);
    true
}

// Opens a sealed text in place where the mark agrees.
#[unsafe(no_mangle)]
pub extern "C" fn basilwrench_open(
    heap: Global,
    key: &[u8; 32],
    nonce: &[u8; 12],
    marked: &[u8],
    sealed: &mut [u8],
    mark: &[u8; 16],
) -> bool
    ensures { Opened key.now nonce.now marked.now sealed.old mark.now result sealed.new }
{
    let Ok(mut work) = Box::new(heap, Workspace::new()) else {
        return false;
    };
    let mut bytes = *key;
    let mut secret = Key::take(&mut bytes);
    let opened = open(
        &secret,
        &Nonce(*nonce),
        marked,
        sealed,
        &Mark(*mark),
        &mut work,
    );
    secret.wipe();
    opened.is_ok()
}
