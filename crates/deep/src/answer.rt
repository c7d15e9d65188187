// Answers, as a line gives them and as the calls do.
use std::fmt;

#[derive(Clone, Copy)]
pub enum Kind {
    Field = 1,
    Refused,
    Yes,
    No,
    Work,
    Listed,
}

impl Kind {
    // The kind that a word names.
    pub fn of(word: &[u8]) -> Option<Kind> {
        match word {
            b"field" => Some(Kind::Field),
            b"refused" => Some(Kind::Refused),
            b"yes" => Some(Kind::Yes),
            b"no" => Some(Kind::No),
            b"work" => Some(Kind::Work),
            b"listed" => Some(Kind::Listed),
            _ => None,
        }
    }
}

// An answer: its kind's number and four numbers. A field has the used nodes after the call and the sum of the words of the nodes that were made;
// terms shown have the sum of their words; other numbers are 0.
#[derive(Clone, Copy, Default, PartialEq, Eq)]
pub struct Answer {
    pub kind: usize,
    pub numbers: [usize; 4],
}

impl Answer {
    pub fn new(kind: Kind, numbers: [usize; 4]) -> Answer {
        Answer {
            kind: kind as usize,
            numbers,
        }
    }
}

impl fmt::Display for Answer {
    fn fmt<W: fmt::Write>(&self, f: &mut fmt::Formatter<W>) -> fmt::Result {
        let kind = self.kind;
        let [a, b, c, sum] = self.numbers;
        write!(f, "{kind} {a} {b} {c} {sum}")
    }
}
