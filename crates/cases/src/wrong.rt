// What is wrong with a case.
use crate::answer::Given;
use crate::vocabulary::Region;
use std::fmt;

#[derive(Clone, Copy)]
pub enum Wrong {
    Unnamed,
    Answer {
        came: Given,
        expected: Given,
    },
    Word {
        region: Region,
        place: usize,
        came: u32,
        expected: u32,
    },
    Used {
        region: Region,
        came: usize,
        expected: usize,
    },
}

impl fmt::Display for Wrong {
    fn fmt<W: fmt::Write>(&self, f: &mut fmt::Formatter<W>) -> fmt::Result {
        match self {
            Wrong::Unnamed => write!(f, "nothing says what the call gives"),
            Wrong::Answer { came, expected } => write!(f, "gives {came}, must give {expected}"),
            Wrong::Word {
                region,
                place,
                came,
                expected,
            } => write!(f, "{region} word {place} is {came}, must be {expected}"),
            Wrong::Used {
                region,
                came,
                expected,
            } => write!(f, "used {region} {came}, must be {expected}"),
        }
    }
}
