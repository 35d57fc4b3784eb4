// What holds of decoding and encoding. The functions compute nothing: their contracts are the theorems.
#![tactic(auto)]

ghost use Rattle.record_laws.specs.Laws.{DecodesEncoded, EncodesDecoded, TornEnds};

// What was encoded decodes to itself and the rest.
pub fn decodes_encoded() -> u8
    ensures { DecodesEncoded }
{
    0
}

// Whatever decodes is the encoding of what came out, and is proper.
pub fn encodes_decoded() -> u8
    ensures { EncodesDecoded }
{
    0
}

// A record that is cut off ends too early, wherever it is cut.
pub fn torn_ends() -> u8
    ensures { TornEnds }
{
    0
}
