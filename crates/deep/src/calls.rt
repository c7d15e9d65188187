// The calls on the stores. A call's first number is the used nodes.
use crate::answer::{Answer, Kind};
use crate::line::{Line, Verb};
use crate::stores::{LETTERS, NODES, SHARED, Stores};
use listing::Matched;
use view::Field;
use view_read::Flat;
use words::refusal::Refusal;
use words::{LIMIT, NODE_WIDTH, TERM_WIDTH};

// The answer to a line's call. What has no call of its own, as a verb that builds a store with more or fewer than one number, joins.
pub fn run(line: &Line, stores: &mut Stores) -> Answer {
    let nodes = stores.nodes.as_mut_slice();
    let terms = stores.terms.as_mut_slice();
    match line.verb {
        Verb::Terms => terms_at(line.numbers, nodes),
        Verb::Equal | Verb::StartsWith => compares(line, nodes),
        Verb::Flatten => flatten(line.numbers, nodes, terms),
        Verb::First => first(line.numbers, nodes, terms),
        Verb::Compare => compare(line.numbers, terms),
        _ => builds(line, nodes),
    }
}

// ---- what the library's calls answer ----

// A refusal by its number, with the numbers that an answer has besides.
fn refused(refusal: Refusal, used: usize, sum: usize) -> Answer {
    Answer::new(Kind::Refused, [refusal.number(), 0, used, sum])
}

fn built(answer: Result<Field, Refusal>, used: usize, made: usize) -> Answer {
    match answer {
        Ok(f) => Answer::new(Kind::Field, [f.node, f.len, used, made]),
        Err(refusal) => refused(refusal, 0, made),
    }
}

fn judged(answer: Result<bool, Refusal>) -> Answer {
    match answer {
        Ok(true) => Answer::new(Kind::Yes, [0; 4]),
        Ok(false) => Answer::new(Kind::No, [0; 4]),
        Err(refusal) => refused(refusal, 0, 0),
    }
}

fn shown(answer: Result<Flat, Refusal>, sum: usize) -> Answer {
    match answer {
        Ok(Flat::InStore(r)) => Answer::new(Kind::Work, [r.start, r.len, 0, sum]),
        Ok(Flat::InWork(n)) => Answer::new(Kind::Work, [n, 0, 0, sum]),
        Err(refusal) => refused(refusal, 0, sum),
    }
}

// A match of one variable, whose run fills the two slots.
fn matched(answer: Result<Matched, Refusal>, slots: [u32; 2], used: usize, sum: usize) -> Answer {
    let [start, len] = slots.map(|slot| slot as usize);
    match answer {
        Ok(Matched::Listed { .. }) => Answer::new(Kind::Listed, [start, len, used, sum]),
        Ok(Matched::More { .. }) => refused(Refusal::MoreThanFit, used, sum),
        Err(refusal) => refused(refusal, used, sum),
    }
}

// The sum of words.
fn total(words: &[u32]) -> usize {
    words
        .iter()
        .fold(0, |sum, word| sum.wrapping_add(*word as usize))
}

// ---- calls that build ----

fn builds(line: &Line, nodes: &mut [u32]) -> Answer {
    let [before, node, len, k, n] = line.numbers;
    let f = Field { node, len };
    let mut used = before;
    let answer = match line.verb {
        Verb::FromRuns => view::from_runs(b"", &LETTERS, 4, nodes, &mut used, &[1, 2]),
        Verb::Rest => view::rest(b"", &LETTERS, 4, nodes, &mut used, f, k),
        Verb::Range => view::range(b"", &LETTERS, 4, nodes, &mut used, f, k, n),
        _ => {
            let g = Field { node: 1, len: k };
            view::join(b"", &LETTERS, 4, nodes, &mut used, f, g)
        }
    };
    let made = before.min(NODES) * NODE_WIDTH..used.min(NODES) * NODE_WIDTH;
    built(answer, used, total(nodes.get(made).unwrap_or_default()))
}

// So many zero words as terms, each the Char 0, so many of them used; and node 0.
fn terms_at(numbers: [usize; 5], words: &[u32]) -> Answer {
    let mut nodes = [0u32; 2 * NODE_WIDTH];
    let mut used = 1;
    let [n, terms_used, ..] = numbers;
    let terms = lines::first(words, n);
    let answer = view::from_runs(b"", terms, terms_used, &mut nodes, &mut used, &[65535, 1]);
    built(answer, used, 0)
}

// ---- calls that read ----

fn compares(line: &Line, nodes: &[u32]) -> Answer {
    let [used, node, len, other, length] = line.numbers;
    let f = Field { node, len };
    let g = Field {
        node: other,
        len: length,
    };
    judged(match line.verb {
        Verb::Equal => view_read::equal(b"", &LETTERS, 4, nodes, used, f, g),
        _ => view_read::starts_with(b"", &LETTERS, 4, nodes, used, f, g),
    })
}

fn flatten(numbers: [usize; 5], nodes: &[u32], work: &mut [u32]) -> Answer {
    let [used, node, len, ..] = numbers;
    let flat = view_read::flatten(b"", &LETTERS, 4, nodes, used, Field { node, len }, work);
    shown(flat, total(view_read::flat_part(&LETTERS, work, flat)))
}

// First match of e.1, which settles the field after abcd: where its run stands, and the sum of the used terms after it.
fn first(numbers: [usize; 5], nodes: &[u32], terms: &mut [u32]) -> Answer {
    let [nodes_used, node, len, ..] = numbers;
    for (to, letter) in terms.iter_mut().zip(&LETTERS) {
        *to = *letter;
    }
    let mut slots = [0u32; 2];
    let mut used = 4;
    let answer = listing::match_pattern_first(
        b"1",
        terms,
        &mut used,
        nodes,
        nodes_used,
        Field { node, len },
        &[7, 0, 1, 0],
        &[],
        &mut slots,
    );
    let settled = terms.get(..used.min(LIMIT) * TERM_WIDTH);
    matched(answer, slots, used, total(settled.unwrap_or_default()))
}

// n terms of the top level of brackets from its term s on, and as many from its term p on.
fn compare(numbers: [usize; 5], terms: &[u32]) -> Answer {
    let [s, p, n, ..] = numbers;
    let s = SHARED - 5 + s.min(5);
    let p = SHARED - 5 + p.min(5);
    let terms = lines::first(terms, SHARED * TERM_WIDTH);
    judged(equality::compare_runs(b"", terms, SHARED, s, n, p, n))
}
