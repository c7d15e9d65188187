// What a call is refused with, by 01's names and numbers.
ghost use Rattle.std.specs.Prelude.{◌≡◌};
ghost use Rattle.words.specs.Refusals.{spec_number};

#[derive(Clone, Copy, Debug, PartialEq, Eq)]
pub enum Refusal {
    Uneven = 1,
    BadTerm = 2,
    BadNode = 3,
    BadField = 4,
    PastEnd = 5,
    TooLong = 6,
    BadPattern = 7,
    BadBinding = 8,
    TooManyNames = 9,
    NoMatch = 10,
    CallsAreNotPatterns = 11,
    NodesFull = 12,
    TermsFull = 13,
    WorkShort = 14,
    MoreThanFit = 15,
    BadSheet = 16,
}

impl Refusal {
    // Its number.
    pub fn number(self) -> usize
        ensures { result ≡ spec_number self }
    {
        self as usize
    }
}
