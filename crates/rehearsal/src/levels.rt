// How many levels a small tree has.
ghost use Rattle.std.specs.Prelude.{◌≡◌, ◌^◌, ◌≤◌, IfSome};
ghost use Rattle.rehearsal.specs.Levels.{levels_of};

#[derive(Clone, Copy)]
pub enum Levels {
    One,
    Two,
    Three,
}

impl Levels {
    // The levels of a tree with so many places. Not TryFrom: it is called as `.and_then(Levels::of_places)`, which would be `.and_then(|places| Levels::try_from(places).ok())`.
    pub fn of_places(places: u32) -> Option<Levels>
        ensures { IfSome result (λ levels. places ≡ 2 ^ levels_of levels) }
    {
        match places {
            2 => Some(Levels::One),
            4 => Some(Levels::Two),
            8 => Some(Levels::Three),
            _ => None,
        }
    }

    // Not From: `u32::from(levels)` would not say that they are counted.
    pub fn count(self) -> u32
        ensures value { result ≡ levels_of self }
        ensures bound { result ≤ 3 }
    {
        match self {
            Levels::One => 1,
            Levels::Two => 2,
            Levels::Three => 3,
        }
    }
}
