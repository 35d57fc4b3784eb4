// What can be opened from the records of a run as they stand on the medium. These functions do nothing: their contracts are the theorems.
#![tactic(auto)]

ghost use Rattle.openable.specs.OnBytes.{RecordsOpen, RecordsOpenNoMore, StoodOpens, NothingElse, TransparentFaithful, RuleOnBytes};

// What opens of all that was written opens from its records, for every way of sealing; and nothing else does, for those in which a sealed text tells its key and its text.
pub fn records_open() -> u8
    ensures all { RecordsOpen }
    ensures only { RecordsOpenNoMore }
{
    0
}

// So, of any run, just what stood at one of the looks.
pub fn runs_on_bytes() -> u8
    ensures stood { StoodOpens }
    ensures nothing { NothingElse }
{
    0
}

// Transparent sealing is such a way, with keys that are numbers.
pub fn transparently() -> u8
    ensures faithful { TransparentFaithful }
    ensures rule { RuleOnBytes }
{
    0
}
