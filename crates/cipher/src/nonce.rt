// The nonces of what is sealed under one key.
ghost use Rattle.std.specs.Prelude.{◌≡◌};
ghost use Rattle.cipher.specs.Sealed.{slot_nonce};

use sealing::opening::Nonce;

// Eleven zeros and the slot. Any byte may be one: a narrower type would turn callers away.
pub fn slot_nonce(slot: u8) -> Nonce
    ensures { result.0 ≡ slot_nonce slot }
{
    Nonce([0, 0, 0, 0, 0, 0, 0, 0, 0, 0, 0, slot])
}
