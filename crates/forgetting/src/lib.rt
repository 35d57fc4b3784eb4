// The law between one change and any run of changes, and what follows for histories of changes. These functions do nothing: their contracts are the theorems.
#![tactic(auto)]

ghost use Rattle.forgetting.specs.Lawful.{ChangeLawful};
ghost use Rattle.forgetting.specs.History.{KeyWhileHeld, KeysApart, UnderLater, ReadsAll, SingleDraws, SingleSets};
ghost use Rattle.forgetting.specs.Cases.{Cases};
ghost use Rattle.forgetting.specs.Climb.{Climbs};

// For keys and contents of any types.
pub fn lawful<K, C>() -> u8
    ensures { ChangeLawful K C }
{
    0
}

pub fn histories<K, C>() -> u8
    ensures held { KeyWhileHeld K C }
    ensures apart { KeysApart K C }
    ensures later { UnderLater K C }
    ensures reads { ReadsAll K C }
    ensures draws { SingleDraws K C }
    ensures sets { SingleSets K C }
{
    0
}

// A loop from the place up writes the records of the change.
pub fn loops<K, C>() -> u8
    ensures { Climbs K C }
{
    0
}

// The records of three changes on four places.
pub fn cases() -> u8
    ensures { Cases }
{
    0
}
