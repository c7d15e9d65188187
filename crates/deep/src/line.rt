// A line: a verb and its numbers, and after `gives` what they must give. Verbs and kinds of answers are words, or numbers from 1 on.
use crate::answer::{Answer, Kind};
use crate::stores::{Brackets, Spine};
use lines::Tokens;

#[derive(Clone, Copy)]
pub enum Verb {
    Build(Spine),
    Share(Brackets),
    Terms,
    FromRuns,
    Rest,
    Range,
    Join,
    Equal,
    StartsWith,
    Flatten,
    First,
    Compare,
}

// The verbs' words, in the order of their numbers.
static VERBS: [(&str, Verb); 15] = [
    ("right", Verb::Build(Spine::Right)),
    ("left", Verb::Build(Spine::Left)),
    ("chain", Verb::Build(Spine::Chain)),
    ("pairs", Verb::Share(Brackets::Pairs)),
    ("crossed", Verb::Share(Brackets::Crossed)),
    ("terms", Verb::Terms),
    ("from_runs", Verb::FromRuns),
    ("rest", Verb::Rest),
    ("range", Verb::Range),
    ("join", Verb::Join),
    ("equal", Verb::Equal),
    ("starts_with", Verb::StartsWith),
    ("flatten", Verb::Flatten),
    ("first", Verb::First),
    ("compare", Verb::Compare),
];

impl Verb {
    // The verb of a word.
    fn of(word: &[u8]) -> Option<Verb> {
        VERBS
            .iter()
            .find(|(name, _)| name.as_bytes() == word)
            .map(|(_, verb)| *verb)
    }

    // The verb of a number. 0 joins, and what is past the list compares.
    fn numbered(n: usize) -> Verb {
        match n.checked_sub(1) {
            None => Verb::Join,
            Some(i) => VERBS.get(i).map_or(Verb::Compare, |(_, verb)| *verb),
        }
    }
}

// The places of a line: the verb's, its numbers', and from here on those of what must be given.
const GIVEN: usize = 8;

#[derive(Drop)]
pub struct Line {
    pub verb: Verb,
    pub numbers: [usize; 5],
    pub given: Answer,
    pub readable: bool,
    filled: usize,
}

impl Line {
    pub fn read(text: &[u8]) -> Line {
        let mut line = Line {
            verb: Verb::Join,
            numbers: [0; 5],
            given: Answer::default(),
            readable: true,
            filled: 0,
        };
        for token in Tokens::new(text) {
            line.token(token);
        }
        line
    }

    // Whether it has neither a verb nor anything else.
    pub fn is_empty(&self) -> bool {
        self.filled == 0 && self.readable
    }

    // The number of a line that has a verb, this number and nothing else.
    pub fn one_number(&self) -> Option<usize> {
        (self.filled == 2).then_some(self.numbers[0])
    }

    fn token(&mut self, token: &[u8]) {
        match lines::decimal(token) {
            Some(n) => self.number(n),
            None => self.word(token),
        }
    }

    fn word(&mut self, word: &[u8]) {
        if word == b"gives".as_slice() && self.filled < GIVEN {
            self.filled = GIVEN;
        } else if let Some(verb) = Verb::of(word)
            && self.filled == 0
        {
            self.verb = verb;
            self.filled = 1;
        } else if let Some(kind) = Kind::of(word)
            && self.filled == GIVEN
        {
            self.number(kind as usize);
        } else {
            self.readable = false;
        }
    }

    // A number goes to the next place. No verb has more than five, and a line that has too many for its places cannot be read.
    fn number(&mut self, n: usize) {
        match self.filled {
            0 => self.verb = Verb::numbered(n),
            i @ 1..=5 => self.numbers[i - 1] = n,
            6 | 7 => {}
            8 => self.given.kind = n,
            i @ 9..=12 => self.given.numbers[i - 9] = n,
            _ => {
                self.readable = false;
                return;
            }
        }
        self.filled += 1;
    }
}
