// Cases on stores as deep and as shared as can be, which no line could hold: the program builds them, and reads the calls on them with their
// answers as lines of the file that its argument names (docs/CASES.md). Last comes the answer to the sheet on standard input.
// Nothing recurses on a store's height, so a stack of 1 MB is enough. The stores are on the heap: 65,537 node records (one more than the limit)
// and 16,384 term records.
#![tactic(auto)]

mod answer;
mod calls;
mod line;
mod stores;

use crate::answer::Answer;
use crate::line::{Line, Verb};
use crate::stores::Stores;
use std::io;
use std::rt::{Env, Files};

// How many cases ran, and how many of them went wrong.
#[derive(Drop)]
struct Counts {
    cases: usize,
    wrong: usize,
}

impl Counts {
    // A case is done; where it went wrong, its line is printed.
    fn add(&mut self, rt: &impl Print, number: usize, line: &Line, came: Answer) -> io::Result<()> {
        self.cases = self.cases.saturating_add(1);
        let given = line.given;
        if line.readable && came == given {
            return Ok(());
        }
        self.wrong = self.wrong.saturating_add(1);
        println!(rt; "line {number}: gives {came}, must give {given}")
    }
}

// A line that builds a store is no case. A line with no verb has nothing else.
fn run(
    rt: &impl Print,
    number: usize,
    line: &Line,
    stores: &mut Stores,
    counts: &mut Counts,
) -> io::Result<()> {
    if line.is_empty() {
        return Ok(());
    }
    match (line.verb, line.one_number()) {
        (Verb::Build(spine), Some(last)) => stores.build(spine, last),
        (Verb::Share(brackets), Some(same)) => stores.share(brackets, same),
        _ => counts.add(rt, number, line, calls::run(line, stores))?,
    }
    Ok(())
}

fn all_lines(rt: &impl Print, text: &[u8], stores: &mut Stores) -> io::Result<Counts> {
    let mut counts = Counts { cases: 0, wrong: 0 };
    let lines = text.split_inclusive(|byte| *byte == b'\n');
    for (number, text) in (1..usize::MAX).zip(lines) {
        run(rt, number, &Line::read(text), stores, &mut counts)?;
    }
    Ok(counts)
}

// A file that cannot be opened has no cases, and none is printed.
fn file(rt: &(impl Env + Files + Print + AllocGlobal)) -> io::Result<()> {
    let mut path = [0u8; 4096];
    let path = lines::arg(rt, 1, &mut path);
    let mut text = [0u8; 65536];
    let n = match lines::open(rt, path) {
        Some(mut file) => lines::read_full(&mut file, &mut text)?,
        None => 0,
    };
    let mut stores = Stores::new(rt.alloc())?;
    let Counts { cases, wrong } = all_lines(rt, &text[..n], &mut stores)?;
    rt.write_all(path)?;
    println!(rt; ": {cases} cases, {wrong} wrong")
}

// ---- the sheet ----

// The bytes of the answer to a sheet. The program `sheet` has the same lines: a crate for them alone would be no plainer.
fn sheet_answer<'a>(sheet: &[u8], out: &'a mut [u8]) -> &'a [u8] {
    match sheet_job::run_sheet(sheet, out) {
        Ok(n) => lines::first(out, n),
        Err(_) => &[],
    }
}

// The answer to the sheet, `t.1 t.1` on two terms that share their contents (examples/shared.sheet), as the program `sheet` prints it.
fn answer_sheet(rt: &(impl Input + Print)) -> io::Result<()> {
    let mut text = [0u8; sheet_job::LONGEST_SHEET + 1];
    let n = lines::read_full(&mut rt.reader(), &mut text)?;
    let mut out = [0u8; sheet_job::LONGEST_ANSWER];
    rt.write_all(sheet_answer(&text[..n], &mut out))
}

fn main(rt: HostRuntime) -> io::Result<()> {
    file(&rt)?;
    answer_sheet(&rt)
}
