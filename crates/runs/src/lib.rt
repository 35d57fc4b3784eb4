// What can be opened of any run of changes, power cuts and looks into the chip. These functions do nothing: their contracts are the theorems.
#![tactic(auto)]

ghost use Rattle.runs.specs.Rule.{Rule, HeldAtPlaces, LooksFrom};
ghost use Rattle.runs.specs.Consequences.{Forgotten, Replaced, PutAfterLastLook, Once, KeysDrawn, Emptied, ReadsAll, BeforeOrAfter, AnsweredStays, OfHistory, Finishes, OnePlace};
ghost use Rattle.runs.specs.Cases.{Cases, Reused};

// For keys and contents of any types: just what stood in some place at one of the looks can be opened.
pub fn rule<K, C>() -> u8
    ensures { Rule K C }
{
    0
}

// What was taken out, or replaced, before the first look, and what was put in after the last one, cannot.
pub fn forgotten<K, C>() -> u8
    ensures out { Forgotten K C }
    ensures replaced { Replaced K C }
    ensures later { PutAfterLastLook K C }
{
    0
}

// At every moment.
pub fn always<K, C>() -> u8
    ensures once { Once K C }
    ensures drawn { KeysDrawn K C }
    ensures emptied { Emptied K C }
    ensures reads { ReadsAll K C }
{
    0
}

// A power cut leaves the tree before a change or the one after it, and after its answer the latter: that of a history of whole changes.
pub fn cuts<K, C>() -> u8
    ensures either { BeforeOrAfter K C }
    ensures stays { AnsweredStays K C }
    ensures history { OfHistory K C }
    ensures finishes { Finishes K C }
{
    0
}

// What the words above mean of a tree, of looks from a moment on, and of the change of one place.
pub fn places<K, C>() -> u8
    ensures held { HeldAtPlaces K C }
    ensures from { LooksFrom K C }
    ensures one { OnePlace K C }
{
    0
}

// Cases on four places.
pub fn cases() -> u8
    ensures { Cases }
{
    0
}

// Why keys must be new.
pub fn reused() -> u8
    ensures { Reused }
{
    0
}
