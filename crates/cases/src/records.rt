// A region of words that is lent.
ghost use Rattle.std.specs.Prelude.{◌≡◌, ◌<◌, ◌≤◌, vec_len};

use crate::clause;
use crate::fault::Fault;
use crate::vocabulary::Verb;
use std::alloc::{AllocError, Global};

// What no line has set.
const UNSET: u32 = 777;

// Its words, how many are lent, the records that are used, and what a call must leave of both.
#[derive(Drop)]
pub struct Records {
    words: Vec<u32>,
    width: usize,
    lent: usize,
    used: usize,
    wanted: Vec<u32>,
    used_wanted: usize,
    ghost has_width: { 0 < width },
    ghost lent_lies: { lent ≤ vec_len words },
    ghost same_length: { vec_len wanted ≡ vec_len words },
}

// A word that is not as it must be.
#[derive(Clone, Copy)]
pub struct Difference {
    pub place: usize,
    pub came: u32,
    pub expected: u32,
}

impl Records {
    // Room for so many words, in records of this width.
    pub fn new(alloc: Global, length: usize, width: usize) -> Result<Records, AllocError>
        requires { 0 < width }
    {
        let words = vec![in alloc; UNSET; length]?;
        let wanted = vec![in alloc; UNSET; length]?;
        Ok(Records {
            words,
            width,
            lent: 0,
            used: 0,
            wanted,
            used_wanted: 0,
        })
    }

    // Nothing is lent or used. The words stay.
    pub fn take_back(&mut self) {
        self.lent = 0;
        self.used = 0;
        self.used_wanted = 0;
    }

    pub fn lent(&self) -> &[u32] {
        &self.words[..self.lent]
    }

    pub fn lent_mut(&mut self) -> &mut [u32] {
        let lent = self.lent;
        &mut self.words[..lent]
    }

    pub fn used(&self) -> usize {
        self.used
    }

    // What a call answers that is lent the words and the count of used records, and may change both.
    pub fn lend_to<T, F: FnOnce(&mut [u32], &mut usize) -> T>(&mut self, call: F) -> T
        requires { F.IsAlwaysCallable call }
    {
        let mut used = self.used;
        let answer = call(self.lent_mut(), &mut used);
        self.used = used;
        answer
    }

    // ---- clauses ----

    pub fn change(&mut self, verb: Verb, values: &[usize], alloc: Global) -> Result<(), Fault> {
        match (verb, values) {
            (Verb::Set, _) => self.set(&clause::words(alloc, values)?),
            (Verb::Add, _) => self.fill(self.lent, &clause::words(alloc, values)?),
            (Verb::Writes, _) => self.write(&clause::words(alloc, values)?),
            (Verb::Lend, [n]) => self.lend(*n),
            (Verb::Use, [n]) => {
                self.used = *n;
                Ok(())
            }
            (Verb::Word, [place, word]) => self.put(*place, u32::try_from(*word)?),
            _ => Err(Fault::Unread),
        }
    }

    // All other words are unset.
    fn set(&mut self, words: &[u32]) -> Result<(), Fault> {
        self.words.fill(UNSET);
        self.fill(0, words)
    }

    // The words from `start` on become these. They are lent, with those before them, and all their records are used.
    fn fill(&mut self, start: usize, words: &[u32]) -> Result<(), Fault>
        requires { start ≤ vec_len self.old.words }
    {
        if self.words.len() - start < words.len() {
            return Err(Fault::Unread);
        }
        let end = start + words.len();
        self.words[start..end].copy_from_slice(words);
        self.lent = end;
        self.used = end / self.width;
        Ok(())
    }

    fn lend(&mut self, n: usize) -> Result<(), Fault> {
        if self.words.len() < n {
            return Err(Fault::Unread);
        }
        self.lent = n;
        Ok(())
    }

    fn put(&mut self, place: usize, word: u32) -> Result<(), Fault> {
        if self.words.len() <= place {
            return Err(Fault::Unread);
        }
        self.words[place] = word;
        Ok(())
    }

    // Whole records that the call must have written after those that it must leave used.
    fn write(&mut self, words: &[u32]) -> Result<(), Fault> {
        let start = self
            .used_wanted
            .checked_mul(self.width)
            .ok_or(Fault::Unread)?;
        if self.wanted.len() < start {
            return Err(Fault::Unread);
        }
        if self.wanted.len() - start < words.len() || words.len() % self.width != 0 {
            return Err(Fault::Unread);
        }
        self.wanted[start..start + words.len()].copy_from_slice(words);
        self.used_wanted += words.len() / self.width;
        Ok(())
    }

    // ---- what a call must leave ----

    pub fn unset(&mut self) {
        self.words.fill(UNSET);
    }

    // The words as they are, and so many used records.
    pub fn want_unchanged(&mut self, used: usize) {
        self.wanted.copy_from_slice(&self.words);
        self.used_wanted = used;
    }

    pub fn used_wanted(&self) -> usize {
        self.used_wanted
    }

    // The first words become these, as far as there is room.
    pub fn show(&mut self, words: &[u32]) {
        let n = words.len().min(self.words.len());
        self.words[0..n].copy_from_slice(&words[..n]);
    }

    // The first word that is not as it must be.
    pub fn difference(&self) -> Option<Difference> {
        let place = self
            .words
            .iter()
            .zip(self.wanted.iter())
            .position(|(word, wanted)| word != wanted)?;
        Some(Difference {
            place,
            came: self.words[place],
            expected: self.wanted[place],
        })
    }
}
