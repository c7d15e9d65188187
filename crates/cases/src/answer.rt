// What a call answers.
use listing::Matched;
use std::fmt;
use view::Field;
use view_read::Flat;
use words::refusal::Refusal;

// The kind of an answer, by its number in a line. That of what stands in the work buffer is the region's.
#[derive(Clone, Copy, PartialEq, Eq)]
pub enum Answer {
    Work = 5,
    Field = 20,
    Refused = 21,
    Yes = 22,
    No = 23,
    Store = 24,
    Listed = 25,
    More = 26,
    Count = 27,
    Ok = 28,
}

impl Answer {
    // `work` is read as the region's word.
    pub fn from_word(word: &[u8]) -> Option<Answer> {
        match word {
            b"field" => Some(Answer::Field),
            b"refused" => Some(Answer::Refused),
            b"yes" => Some(Answer::Yes),
            b"no" => Some(Answer::No),
            b"store" => Some(Answer::Store),
            b"listed" => Some(Answer::Listed),
            b"more" => Some(Answer::More),
            b"count" => Some(Answer::Count),
            b"ok" => Some(Answer::Ok),
            _ => None,
        }
    }

    pub fn from_number(number: usize) -> Option<Answer> {
        match number {
            5 => Some(Answer::Work),
            20 => Some(Answer::Field),
            21 => Some(Answer::Refused),
            22 => Some(Answer::Yes),
            23 => Some(Answer::No),
            24 => Some(Answer::Store),
            25 => Some(Answer::Listed),
            26 => Some(Answer::More),
            27 => Some(Answer::Count),
            28 => Some(Answer::Ok),
            _ => None,
        }
    }
}

impl fmt::Display for Answer {
    fn fmt<W: fmt::Write>(&self, f: &mut fmt::Formatter<W>) -> fmt::Result {
        f.write_str(match self {
            Answer::Work => "work",
            Answer::Field => "field",
            Answer::Refused => "refused",
            Answer::Yes => "yes",
            Answer::No => "no",
            Answer::Store => "store",
            Answer::Listed => "listed",
            Answer::More => "more",
            Answer::Count => "count",
            Answer::Ok => "ok",
        })
    }
}

// An answer with its two numbers, 0 where it has fewer; None where a line names no kind of answer.
#[derive(Clone, Copy, PartialEq, Eq)]
pub struct Given {
    answer: Option<Answer>,
    first: usize,
    second: usize,
}

impl Given {
    pub fn new(answer: Answer, first: usize, second: usize) -> Given {
        Given {
            answer: Some(answer),
            first,
            second,
        }
    }

    // What a clause says that the call gives.
    pub fn from_values(values: &[usize]) -> Option<Given> {
        let (number, first, second) = match values {
            [number] => (*number, 0, 0),
            [number, first] => (*number, *first, 0),
            [number, first, second] => (*number, *first, *second),
            _ => return None,
        };
        Some(Given {
            answer: Answer::from_number(number),
            first,
            second,
        })
    }
}

impl From<()> for Given {
    fn from(_ok: ()) -> Given {
        Given::new(Answer::Ok, 0, 0)
    }
}

impl From<Field> for Given {
    fn from(field: Field) -> Given {
        Given::new(Answer::Field, field.node, field.len)
    }
}

impl From<bool> for Given {
    fn from(yes: bool) -> Given {
        Given::new(if yes { Answer::Yes } else { Answer::No }, 0, 0)
    }
}

impl From<Flat> for Given {
    fn from(flat: Flat) -> Given {
        match flat {
            Flat::InStore(run) => Given::new(Answer::Store, run.start, run.len),
            Flat::InWork(n) => Given::new(Answer::Work, n, 0),
        }
    }
}

impl From<Matched> for Given {
    fn from(matched: Matched) -> Given {
        match matched {
            Matched::Listed { count, entries } => Given::new(Answer::Listed, count, entries),
            Matched::More { count, entries } => Given::new(Answer::More, count, entries),
        }
    }
}

impl<T: Into<Given>> From<Result<T, Refusal>> for Given {
    fn from(answer: Result<T, Refusal>) -> Given {
        match answer {
            Ok(value) => value.into(),
            Err(refusal) => Given::new(Answer::Refused, refusal.number(), 0),
        }
    }
}

impl fmt::Display for Given {
    fn fmt<W: fmt::Write>(&self, f: &mut fmt::Formatter<W>) -> fmt::Result {
        let Given {
            answer,
            first,
            second,
        } = self;
        match answer {
            Some(answer) => write!(f, "{answer} {first} {second}"),
            None => write!(f, "another word {first} {second}"),
        }
    }
}
