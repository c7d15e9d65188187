// The names, which are bytes.
ghost use Rattle.std.specs.Prelude.{◌≤◌, vec_len};

use crate::fault::Fault;
use crate::vocabulary::Verb;
use std::alloc::{AllocError, Global};

const MOST_NAME_BYTES: usize = 65600;

// What no line has set.
const UNSET: u8 = b'a';

// The bytes of the names, and how many are lent.
#[derive(Drop)]
pub struct Names {
    bytes: Vec<u8>,
    lent: usize,
    ghost lent_lies: { lent ≤ vec_len bytes },
}

// The text between two quotes; None where the second is missing.
pub fn unquoted(quoted: &[u8]) -> Option<&[u8]> {
    match quoted {
        [first, text @ .., last] if first == last => Some(text),
        _ => None,
    }
}

impl Names {
    pub fn new(alloc: Global) -> Result<Names, AllocError> {
        let bytes = vec![in alloc; UNSET; MOST_NAME_BYTES]?;
        Ok(Names { bytes, lent: 0 })
    }

    // Nothing is lent. The bytes stay.
    pub fn take_back(&mut self) {
        self.lent = 0;
    }

    pub fn lent(&self) -> &[u8] {
        &self.bytes[..self.lent]
    }

    pub fn lend(&mut self, n: usize) -> Result<(), Fault> {
        if self.bytes.len() < n {
            return Err(Fault::Unread);
        }
        self.lent = n;
        Ok(())
    }

    // The text goes after what is lent, as far as there is room, and is lent too. It says where it starts.
    pub fn append(&mut self, text: &[u8]) -> Result<usize, Fault> {
        let start = self.lent;
        let n = text.len().min(self.bytes.len() - start);
        let end = start + n;
        self.bytes[start..end].copy_from_slice(&text[..n]);
        self.lent = end;
        if n < text.len() {
            return Err(Fault::Unread);
        }
        Ok(start)
    }

    // The names become the text between the quotes. Where the second is missing they become all of it, and the line cannot be read.
    pub fn set(&mut self, quoted: &[u8]) -> Result<(), Fault> {
        self.bytes.fill(UNSET);
        self.lent = 0;
        let text = unquoted(quoted);
        self.append(text.unwrap_or(quoted))?;
        text.ok_or(Fault::Unread)?;
        Ok(())
    }

    // A clause on the names, which have no records. They are set where they are read.
    pub fn change(&mut self, verb: Verb, values: &[usize]) -> Result<(), Fault> {
        match (verb, values) {
            (Verb::Set, []) | (Verb::Use, [_]) => Ok(()),
            (Verb::Lend, [n]) => self.lend(*n),
            _ => Err(Fault::Unread),
        }
    }
}
