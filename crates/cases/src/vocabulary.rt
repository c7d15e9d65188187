// The words of the lines.
ghost use Rattle.std.specs.Prelude.{◌<◌};

use std::fmt;

// What a clause does: it sets the stores, says what a call must answer or leave, or calls.
#[derive(Clone, Copy)]
pub enum Verb {
    Set,
    Add,
    Lend,
    Use,
    Word,
    Gives,
    Writes,
    Call(Call),
}

impl Verb {
    pub fn from_word(word: &[u8]) -> Option<Verb> {
        match word {
            b"set" => Some(Verb::Set),
            b"add" => Some(Verb::Add),
            b"lend" => Some(Verb::Lend),
            b"use" => Some(Verb::Use),
            b"word" => Some(Verb::Word),
            b"gives" => Some(Verb::Gives),
            b"writes" => Some(Verb::Writes),
            _ => Some(Verb::Call(Call::from_word(word)?)),
        }
    }
}

// The calls of the library.
#[derive(Clone, Copy)]
pub enum Call {
    FromRuns,
    Take,
    Rest,
    Range,
    Join,
    StartsWith,
    Equal,
    Flatten,
    FlatPart,
    Listing,
    First,
    CompareRuns,
    NameCount,
    CheckTerms,
}

impl Call {
    fn from_word(word: &[u8]) -> Option<Call> {
        match word {
            b"from_runs" => Some(Call::FromRuns),
            b"take" => Some(Call::Take),
            b"rest" => Some(Call::Rest),
            b"range" => Some(Call::Range),
            b"join" => Some(Call::Join),
            b"starts_with" => Some(Call::StartsWith),
            b"equal" => Some(Call::Equal),
            b"flatten" => Some(Call::Flatten),
            b"flat_part" => Some(Call::FlatPart),
            b"listing" => Some(Call::Listing),
            b"first" => Some(Call::First),
            b"compare_runs" => Some(Call::CompareRuns),
            b"name_count" => Some(Call::NameCount),
            b"check_terms" => Some(Call::CheckTerms),
            _ => None,
        }
    }
}

// What is lent: regions of words, and the names, which are bytes. A line may name a region by its number.
#[derive(Clone, Copy, PartialEq, Eq)]
pub enum Region {
    Terms = 0,
    Nodes = 1,
    Pattern = 2,
    Start = 3,
    Slots = 4,
    Work = 5,
    Shown = 6,
    Names = 7,
}

impl Region {
    pub fn from_word(word: &[u8]) -> Option<Region> {
        match word {
            b"terms" => Some(Region::Terms),
            b"nodes" => Some(Region::Nodes),
            b"pattern" => Some(Region::Pattern),
            b"start" => Some(Region::Start),
            b"slots" => Some(Region::Slots),
            b"work" => Some(Region::Work),
            b"shown" => Some(Region::Shown),
            b"names" => Some(Region::Names),
            _ => None,
        }
    }

    pub fn from_number(number: usize) -> Option<Region> {
        match number {
            0 => Some(Region::Terms),
            1 => Some(Region::Nodes),
            2 => Some(Region::Pattern),
            3 => Some(Region::Start),
            4 => Some(Region::Slots),
            5 => Some(Region::Work),
            6 => Some(Region::Shown),
            7 => Some(Region::Names),
            _ => None,
        }
    }

    // The words of a record.
    pub fn width(self) -> usize
        ensures { 0 < result }
    {
        match self {
            Region::Terms | Region::Work | Region::Shown => words::TERM_WIDTH,
            Region::Nodes => words::NODE_WIDTH,
            Region::Pattern => items::ITEM_WIDTH,
            Region::Start => items::BINDING_WIDTH,
            Region::Slots | Region::Names => 1,
        }
    }
}

impl fmt::Display for Region {
    fn fmt<W: fmt::Write>(&self, f: &mut fmt::Formatter<W>) -> fmt::Result {
        f.write_str(match self {
            Region::Terms => "terms",
            Region::Nodes => "nodes",
            Region::Pattern => "pattern",
            Region::Start => "start",
            Region::Slots => "slots",
            Region::Work => "work",
            Region::Shown => "shown",
            Region::Names => "names",
        })
    }
}
