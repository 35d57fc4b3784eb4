// The definitions of sealing held against the standard's own worked values, and the round trip. These functions do nothing: their contracts are the theorems.
#![tactic(auto)]

ghost use Rattle.rfc8439.specs.Values.{Values};
ghost use Rattle.sealing.specs.Aead.{RoundTrip};

pub fn worked_values() -> u8
    ensures { Values }
{
    0
}

// What was sealed opens, to what it was.
pub fn round_trip() -> u8
    ensures { RoundTrip }
{
    0
}
