// A medium and the tree that it shows. These functions do nothing: their contracts are the theorems.
#![tactic(auto)]

ghost use Rattle.shown.specs.Theorems.{StepsDown, GoesThrough, SiblingAt, ReadsShown, PathShown, EmptyShows, ChangeKeeps, Scans, ScannedShows};

// What hangs where, by the numbers of nodes.
pub fn nodes<K, C>() -> u8
    ensures down { StepsDown K C }
    ensures through { GoesThrough K C }
    ensures sibling { SiblingAt K C }
{
    0
}

// What the rows say of a place, and of the nodes on the path to it and beside it.
pub fn reads() -> u8
    ensures place { ReadsShown }
    ensures path { PathShown }
    ensures empty { EmptyShows }
{
    0
}

// A medium that shows a tree shows the changed tree once the records of the change of a place are added and noted.
pub fn changes_keep() -> u8
    ensures { ChangeKeeps }
{
    0
}

// Scanning the bytes of records notes those records.
pub fn scans() -> u8
    ensures notes { Scans }
    ensures shows { ScannedShows }
{
    0
}
