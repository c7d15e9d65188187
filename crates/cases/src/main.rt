// Runs the cases of the files that the arguments name: lines of stores, calls and what they must answer and leave (docs/CASES.md has their
// form). It prints a line for each case that went wrong and for each line that cannot be read, then for each file how many cases ran.
// Stack: less than 0.25 MB. A file's text of up to 1 MB, the names and the words that are lent are on the heap, less than 1.4 MB in all.
#![tactic(auto)]

mod answer;
mod calls;
mod cases;
mod clause;
mod fault;
mod kind;
mod names;
mod records;
mod stores;
mod token;
mod vocabulary;
mod wrong;

use crate::cases::Cases;
use crate::stores::Stores;
use std::env::FillError;
use std::io;
use std::rt::{Env, Files};

// A file's text has to end before the buffer does.
const TEXT_BYTES: usize = 1048576;

const PATH_BYTES: usize = 4096;

// The lines of a file, if it can be opened and has room in the buffer.
fn read(
    rt: &(impl Files + Print),
    cases: &mut Cases,
    path: &[u8],
    buffer: &mut [u8],
) -> io::Result<()> {
    let Some(mut file) = lines::open(rt, path) else {
        return cases.unread(rt, "the file cannot be opened");
    };
    let n = lines::read_full(&mut file, buffer)?;
    cases.lines(rt, &buffer[..n])?;
    if n == buffer.len() {
        cases.unread(rt, "the file is too long")?;
    }
    if cases.is_empty() {
        cases.unread(rt, "the file has no cases")?;
    }
    Ok(())
}

// The file of argument i, from empty stores. A path for which there is no room is as an empty one.
fn run(
    rt: &(impl AllocGlobal + Env + Files + Print),
    i: usize,
    stores: &mut Stores,
    buffer: &mut [u8],
) -> io::Result<()> {
    let mut path = [0; PATH_BYTES];
    let path = lines::arg(rt, i, &mut path);
    let mut cases = Cases::new(rt.alloc(), path, stores);
    read(rt, &mut cases, path, buffer)?;
    cases.print_counts(rt)
}

fn is_there(rt: &impl Env, i: usize) -> bool {
    !matches!(rt.arg(i, &mut []), Err(FillError::NotPresent))
}

fn main(rt: HostRuntime) -> io::Result<()> {
    let mut stores = Stores::new(rt.alloc())?;
    let mut buffer = vec![in rt.alloc(); 0; TEXT_BYTES]?;
    for i in 1..usize::MAX {
        if !is_there(&rt, i) {
            break;
        }
        run(&rt, i, &mut stores, &mut buffer)?;
    }
    Ok(())
}
