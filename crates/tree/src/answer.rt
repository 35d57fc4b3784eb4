// What calls answer.
ghost use Rattle.std.specs.Prelude.{◌≡◌};
ghost use Rattle.tree.specs.Answers.{number_of};

// Why a call is refused; the lowest number wins.
#[derive(Clone, Copy, PartialEq, Eq, Debug)]
pub enum Refusal {
    // No such place, or a content of 0 or more than 4,096 bytes.
    NoSuchPlace = 1,
    // Nothing is there.
    Nothing = 2,
    // A sealed thing doesn't open.
    DoesNotOpen = 3,
    // The medium doesn't reach as far as the chip's number.
    Old = 4,
    // A record has another form before that.
    Damaged = 5,
    // Fewer keys were handed in than are drawn.
    FewKeys = 6,
    // A key would be drawn with a number past the highest.
    NumbersSpent = 7,
}

impl Refusal {
    pub fn number(self) -> u8
        ensures { result ≡ number_of self }
    {
        self as u8
    }
}
