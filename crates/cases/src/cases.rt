// The cases of a file.
use crate::answer::Given;
use crate::calls::Request;
use crate::clause::Clause;
use crate::fault::Fault;
use crate::stores::Stores;
use crate::token::Value;
use crate::vocabulary::{Call, Verb};
use crate::wrong::Wrong;
use lines::Tokens;
use std::alloc::Global;
use std::io;

// The most lines that are counted.
const MOST_LINES: usize = 1000000;

// A call that waits for what it must answer and leave: its line, what it answered, whether that was named, and whether it went wrong.
#[derive(Clone, Copy)]
struct Pending {
    line: usize,
    came: Given,
    named: bool,
    failed: bool,
}

impl Pending {
    // What goes wrong first is told.
    fn fail(&mut self, rt: &impl Print, path: &[u8], wrong: Wrong) -> io::Result<()> {
        if self.failed {
            return Ok(());
        }
        self.failed = true;
        rt.write_all(path)?;
        println!(rt; " line {}: {wrong}", self.line)
    }
}

// A file: its path, what is lent, the line that is read, how many cases ran and how many lines and cases went wrong.
#[derive(Drop)]
pub struct Cases<'a> {
    alloc: Global,
    path: &'a [u8],
    stores: &'a mut Stores,
    line: usize,
    ran: usize,
    wrong: usize,
    pending: Option<Pending>,
}

impl<'a> Cases<'a> {
    // Before its first line nothing is lent.
    pub fn new(alloc: Global, path: &'a [u8], stores: &'a mut Stores) -> Cases<'a> {
        stores.take_back();
        Cases {
            alloc,
            path,
            stores,
            line: 0,
            ran: 0,
            wrong: 0,
            pending: None,
        }
    }

    pub fn is_empty(&self) -> bool {
        self.ran == 0
    }

    // A line, or a file, that cannot be read.
    pub fn unread(&mut self, rt: &impl Print, what: &str) -> io::Result<()> {
        self.wrong = self.wrong.saturating_add(1);
        rt.write_all(self.path)?;
        println!(rt; " line {}: {what}", self.line)
    }

    pub fn print_counts(&self, rt: &impl Print) -> io::Result<()> {
        rt.write_all(self.path)?;
        println!(rt; ": {} cases, {} wrong", self.ran, self.wrong)
    }

    // The last call is checked at the end.
    pub fn lines(&mut self, rt: &impl Print, text: &[u8]) -> io::Result<()> {
        for line in text.split_inclusive(|byte| *byte == b'\n') {
            self.line(rt, line)?;
        }
        self.settle(rt)
    }

    fn line(&mut self, rt: &impl Print, line: &[u8]) -> io::Result<()> {
        if self.line < MOST_LINES {
            self.line += 1;
        }
        match self.clauses(rt, line) {
            Ok(()) => Ok(()),
            Err(Fault::Unread) => self.unread(rt, "the line cannot be read"),
            Err(Fault::Failed(error)) => Err(error),
        }
    }

    // A token that is no value begins a clause.
    fn clauses(&mut self, rt: &impl Print, line: &[u8]) -> Result<(), Fault> {
        let mut clause = None;
        for token in Tokens::new(line) {
            match Value::from_token(token) {
                Some(value) => value.join(clause.as_mut(), &mut self.stores.names)?,
                None => {
                    self.end_clause(rt, clause.take())?;
                    let verb = Verb::from_word(token).ok_or(Fault::Unread)?;
                    clause = Some(Clause::new(self.alloc, verb));
                }
            }
        }
        self.end_clause(rt, clause)
    }

    // A clause is run even where its last record has no room, and then its line cannot be read.
    fn end_clause(&mut self, rt: &impl Print, clause: Option<Clause>) -> Result<(), Fault> {
        let Some(mut clause) = clause else {
            return Ok(());
        };
        let padded = clause.pad();
        self.run(rt, clause.verb(), clause.values())?;
        padded
    }

    // A call is a case, which ends at the next clause that is not about what it must answer or leave.
    fn run(&mut self, rt: &impl Print, verb: Verb, values: &[usize]) -> Result<(), Fault> {
        match verb {
            Verb::Gives => self.gives(rt, values),
            Verb::Writes => self.writes(values),
            Verb::Call(call) => {
                self.settle(rt)?;
                self.call(call, values)
            }
            Verb::Set | Verb::Add | Verb::Lend | Verb::Use | Verb::Word => {
                self.settle(rt)?;
                self.stores.change(verb, values, self.alloc)
            }
        }
    }

    fn call(&mut self, call: Call, values: &[usize]) -> Result<(), Fault> {
        let request = Request::from_values(call, values, self.alloc)?;
        self.stores.prepare();
        self.pending = Some(Pending {
            line: self.line,
            came: self.stores.call(&request),
            named: false,
            failed: false,
        });
        Ok(())
    }

    // What the pending call must answer, which is said once.
    fn gives(&mut self, rt: &impl Print, values: &[usize]) -> Result<(), Fault> {
        let pending = self.pending.as_mut().ok_or(Fault::Unread)?;
        let expected = Given::from_values(values).ok_or(Fault::Unread)?;
        if pending.named {
            return Err(Fault::Unread);
        }
        pending.named = true;
        let came = pending.came;
        if came != expected {
            pending.fail(rt, self.path, Wrong::Answer { came, expected })?;
        }
        Ok(())
    }

    // What the pending call must write.
    fn writes(&mut self, values: &[usize]) -> Result<(), Fault> {
        if self.pending.is_none() {
            return Err(Fault::Unread);
        }
        self.stores.change(Verb::Writes, values, self.alloc)
    }

    // The pending call is a case that is done: what it left, against what it must leave.
    fn settle(&mut self, rt: &impl Print) -> io::Result<()> {
        let Some(mut pending) = self.pending.take() else {
            return Ok(());
        };
        if !pending.named {
            pending.fail(rt, self.path, Wrong::Unnamed)?;
        }
        if let Some(wrong) = self.stores.wrong() {
            pending.fail(rt, self.path, wrong)?;
        }
        self.ran = self.ran.saturating_add(1);
        if pending.failed {
            self.wrong = self.wrong.saturating_add(1);
        }
        Ok(())
    }
}
