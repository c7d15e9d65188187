// A clause: a verb and its values, which are numbers.
use crate::fault::Fault;
use crate::kind::Kind;
use crate::vocabulary::{Region, Verb};
use std::alloc::Global;
use words::kind::TermKind;

// The most values of a clause.
const MOST_VALUES: usize = 5200;

#[derive(Drop)]
pub struct Clause {
    verb: Verb,
    values: Vec<usize>,
    // The words of a record, which the last region's word says, and where the record that a word began starts.
    width: usize,
    open: Option<usize>,
}

impl Clause {
    pub fn new(alloc: Global, verb: Verb) -> Clause {
        Clause {
            verb,
            values: Vec::new(alloc),
            width: 1,
            open: None,
        }
    }

    pub fn verb(&self) -> Verb {
        self.verb
    }

    pub fn values(&self) -> &[usize] {
        &self.values
    }

    pub fn push(&mut self, value: usize) -> Result<(), Fault> {
        if MOST_VALUES <= self.values.len() {
            return Err(Fault::Unread);
        }
        self.values.push(value)?;
        Ok(())
    }

    // What is left of the record that a word began is 0.
    pub fn pad(&mut self) -> Result<(), Fault> {
        let Some(start) = self.open.take() else {
            return Ok(());
        };
        for _ in self.values.len()..start.saturating_add(self.width) {
            self.push(0)?;
        }
        Ok(())
    }

    // A record begins with its kind.
    pub fn begin(&mut self, kind: Kind) -> Result<(), Fault> {
        self.pad()?;
        self.open = Some(self.values.len());
        self.push(kind.number())
    }

    // A record for each character of the text.
    pub fn characters(&mut self, text: &[u8]) -> Result<(), Fault> {
        for byte in text {
            self.begin(Kind::Term(TermKind::Char))?;
            self.push(usize::from(*byte))?;
        }
        Ok(())
    }

    // A record with a name, which starts there in the names.
    pub fn named(&mut self, kind: Kind, start: usize, length: usize) -> Result<(), Fault> {
        self.begin(kind)?;
        self.push(start)?;
        self.push(length)
    }

    pub fn region(&mut self, region: Region) -> Result<(), Fault> {
        self.width = region.width();
        self.push(region as usize)
    }
}

// Values as words, where they are.
pub fn words(alloc: Global, values: &[usize]) -> Result<Vec<u32>, Fault> {
    values
        .iter()
        .map(|value| u32::try_from(*value).map_err(Fault::from))
        .try_collect(alloc)
}
