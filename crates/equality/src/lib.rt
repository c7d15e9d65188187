// Equality of terms and runs, term by term: from value.rs (equality of `Value`). Brackets may share contents, so that comparing term by term
// alone could take as long as all contents written out in full. It is tried first, within a budget; once that is spent, all terms are numbered
// (crate numbers), and from then on runs are compared by the numbers of their terms.
#![tactic(auto)]

ghost use Rattle.std.specs.Prelude.{◌≡◌, List, true, false, ℕ, ◌+◌, ◌<◌, length};
ghost use Rattle.value.specs.Equal.{equal_at};
ghost use Rattle.equality.specs.Compare.{compared_runs, answer_of};
ghost use Rattle.equality.specs.Within.{TermsIn, RunsIn, same_runs, Tells};
ghost use Rattle.equality.specs.Memory.{Says};
ghost use Rattle.equality.specs.Stores.{Remembers};
ghost use Rattle.value.specs.Store.{Within, runs_equal};
ghost use Rattle.words.specs.Records.{as_run};
ghost use Rattle.term_spec.specs.Words.{Lies, record_at};
ghost use Rattle.term_spec.specs.Term.{term_layout, bracket_kind};

use value::store::Store;
use words::kind::TermKind;
use words::refusal::Refusal;
use words::{Run, Term};

// ---- within a budget ----

// What comparing within a budget tells: nothing once the budget is spent; otherwise whether the two are equal, and what is left of it. The three names
// say more than a flag beside what is left, in an Option, would.
#[derive(Clone, Copy)]
pub enum Outcome {
    Different(usize),
    Equal(usize),
    Spent,
}

// Whether terms i and j, of one kind and no brackets, are equal. They are read here once more: what is handed to a call is written to memory first, and
// where `equal_terms_within` handed on what it has read, Chars would be too.
fn equal_symbols_at(names: &[u8], terms: &[u32], i: usize, j: usize) -> bool
    requires inside { (used : ℕ) × TermsIn names.now terms.now i j used }
    requires kinds { let t = record_at term_layout terms.now i in
        let u = record_at term_layout terms.now j in
        (t.kind ≡ u.kind) × (t.kind ≡ bracket_kind → ⊥) }
    ensures { let text = names.now in
        let store = terms.now in
        ((used : ℕ) → TermsIn text store i j used → result ≡ equal_at text store used i j) }
{
    let t = words::get::<Term>(terms, i);
    let u = words::get::<Term>(terms, j);
    value::equal_symbols(names, t, u)
}

// Whether terms i and j are equal. Term and run equality call each other: bracket depth falls, so they are at most 512 calls deep.
// This is the hot loop: it takes two slices and no store, since it needs no used count.
#[cycle(equal_runs_within_equal_terms_within)]
fn equal_terms_within(names: &[u8], terms: &[u32], i: usize, j: usize, budget: usize) -> Outcome
    requires { (used : ℕ) × TermsIn names.now terms.now i j used }
    ensures { let text = names.now in
        let store = terms.now in
        ((used : ℕ) → TermsIn text store i j used → Tells budget result (equal_at text store used i j)) }
{
    let t = words::get::<Term>(terms, i);
    let u = words::get::<Term>(terms, j);
    if t.kind != u.kind {
        return Outcome::Different(budget);
    }
    // Chars are the most frequent terms. Compared here, they are read no further than their value.
    if t.is(TermKind::Char) {
        if t.a != u.a {
            return Outcome::Different(budget);
        }
        return Outcome::Equal(budget);
    }
    if t.is(TermKind::Bracket) {
        return equal_runs_within(names, terms, t.contents(), u.contents(), budget);
    }
    if equal_symbols_at(names, terms, i, j) {
        return Outcome::Equal(budget);
    }
    Outcome::Different(budget)
}

// Whether two runs are equal. The same run is equal without reading; any other takes its length from the budget, and gives back what it has not
// read.
#[cycle(equal_runs_within_equal_terms_within)]
pub fn equal_runs_within(
    names: &[u8],
    terms: &[u32],
    first: Run,
    second: Run,
    budget: usize,
) -> Outcome
    requires { (used : ℕ) × RunsIn names.now terms.now (as_run first) (as_run second) used }
    ensures { let text = names.now in
        let store = terms.now in
        ((used : ℕ) → RunsIn text store (as_run first) (as_run second) used
        → Tells budget result (same_runs text store used (as_run first) (as_run second))) }
{
    if first.len != second.len {
        return Outcome::Different(budget);
    }
    if first.start == second.start {
        return Outcome::Equal(budget);
    }
    if budget < first.len {
        return Outcome::Spent;
    }
    let mut left = budget - first.len;
    for k in 0..first.len {
        match equal_terms_within(names, terms, first.start + k, second.start + k, left) {
            Outcome::Different(rest) => {
                return Outcome::Different(rest + (first.len - k - 1));
            }
            Outcome::Spent => {
                return Outcome::Spent;
            }
            Outcome::Equal(rest) => {
                left = rest;
            }
        }
    }
    Outcome::Equal(left)
}

// ---- by numbers ----

// Whether two runs are equal, all terms being numbered for it. The numbers take 128 KB of stack, which callers that never come
// here do not need.
#[inline(never)]
fn equal_by_numbers(store: &Store, first: Run, second: Run) -> bool
    requires { Within store.now (as_run first) × Within store.now (as_run second) }
    ensures { result ≡ runs_equal store.now (as_run first) (as_run second) }
{
    let mut known = [0u16; words::LIMIT];
    numbers::number_terms(store, &mut known);
    numbers::equal_numbered(&known, first, second)
}

// What comparing alone may take beyond the used terms before they are numbered.
const EXTRA: usize = 4096;

// Whether two runs are equal, with nothing known and nothing kept. Where no contents are shared, the budget is enough: all of them together are at
// most the used terms.
#[tactic(auto, using(crate::specs::StoreLaws::runs_in), unfolding(crate::specs::Within::Tells))]
fn equal_alone(store: &Store, first: Run, second: Run) -> bool
    requires { Within store.now (as_run first) × Within store.now (as_run second) }
    ensures { result ≡ runs_equal store.now (as_run first) (as_run second) }
{
    match equal_runs_within(store.names, store.terms, first, second, store.used + EXTRA) {
        Outcome::Different(_) => false,
        Outcome::Equal(_) => true,
        Outcome::Spent => equal_by_numbers(store, first, second),
    }
}

// ---- from one comparison to the next ----

// What comparing has found is kept in lent words, one for each used term and one after them. That one has what the comparisons so far have taken,
// and at first 0; once the terms are numbered it is this number, and the others are the terms' numbers. Where the words are too few, nothing is kept.
pub const NUMBERED: usize = 65535;

// What the comparisons may take together before the terms are numbered.
const BUDGET: usize = 65534;

// The words for a store of any size.
pub const MEMORY: usize = words::LIMIT + 1;

// What the word after the terms' says: that they are numbered, or what the comparisons so far have taken.
#[derive(Clone, Copy)]
enum Kept {
    Numbered,
    Spent(usize),
}

impl Kept {
    fn read(word: u16) -> Self
        ensures { Says word result }
    {
        let spent = usize::from(word);
        if BUDGET < spent {
            return Kept::Numbered;
        }
        Kept::Spent(spent)
    }
}

// All terms are numbered, for this comparison and those after it.
fn equal_from_now_on(store: &Store, first: Run, second: Run, known: &mut [u16]) -> bool
    requires within { Within store.now (as_run first) × Within store.now (as_run second) }
    requires room { store.now.used < length known.old }
    ensures { (result ≡ runs_equal store.now (as_run first) (as_run second)) × Remembers store.now known.new }
{
    numbers::number_terms(store, known);
    known[store.used] = NUMBERED as u16;
    numbers::equal_numbered(known, first, second)
}

// Whether two runs are equal, by what is kept or else within what is left of the budget.
#[tactic(auto, using(crate::specs::StoreLaws::runs_in, crate::specs::MemoryLaws::memory_counted), unfolding(crate::specs::Within::Tells))]
fn equal_kept(store: &Store, first: Run, second: Run, known: &mut [u16]) -> bool
    requires within { Within store.now (as_run first) × Within store.now (as_run second) }
    requires memory { Remembers store.now known.old }
    ensures { (result ≡ runs_equal store.now (as_run first) (as_run second)) × Remembers store.now known.new }
{
    let used = store.used;
    if known.len() <= used {
        return equal_alone(store, first, second);
    }
    let spent = match Kept::read(known[used]) {
        Kept::Numbered => {
            return numbers::equal_numbered(known, first, second);
        }
        Kept::Spent(spent) => spent,
    };
    match equal_runs_within(store.names, store.terms, first, second, BUDGET - spent) {
        Outcome::Different(rest) => {
            known[used] = (BUDGET - rest) as u16;
            false
        }
        Outcome::Equal(rest) => {
            known[used] = (BUDGET - rest) as u16;
            true
        }
        Outcome::Spent => equal_from_now_on(store, first, second, known),
    }
}

// Whether terms i and j differ at sight: by their kinds, or as Chars.
fn apart_at_sight(terms: &[u32], i: usize, j: usize) -> bool
    requires { Lies term_layout terms.now (i + 1) × Lies term_layout terms.now (j + 1) }
    ensures { let store = terms.now in
        ((names : List ℕ) (used : ℕ) → TermsIn names store i j used
        → result ≡ true → equal_at names store used i j ≡ false) }
{
    let t = words::get::<Term>(terms, i);
    let u = words::get::<Term>(terms, j);
    t.kind != u.kind || (t.is(TermKind::Char) && t.a != u.a)
}

// Whether two runs are equal, term by term. Most that differ do so at sight, which is cheaper to see than what is kept.
pub fn equal_runs(store: &Store, first: Run, second: Run, known: &mut [u16]) -> bool
    requires within { Within store.now (as_run first) × Within store.now (as_run second) }
    requires memory { Remembers store.now known.old }
    ensures { (result ≡ runs_equal store.now (as_run first) (as_run second)) × Remembers store.now known.new }
{
    first.len == second.len
        && (first.len == 0
            || (!apart_at_sight(store.terms, first.start, second.start)
                && equal_kept(store, first, second, known)))
}

// ---- any two runs ----

// Whether two runs of a store are equal, for any arguments: 1, 2, then 5 for a run that ends past the used terms.
pub fn compare_runs(
    names: &[u8],
    terms: &[u32],
    used: usize,
    s: usize,
    n: usize,
    p: usize,
    m: usize,
) -> Result<bool, Refusal>
    ensures { answer_of result ≡ compared_runs names.now terms.now used s n p m }
{
    value::check_terms(names, terms, used)?;
    if used < n || used - n < s {
        return Err(Refusal::PastEnd);
    }
    if used < m || used - m < p {
        return Err(Refusal::PastEnd);
    }
    let store = Store { names, terms, used };
    let first = Run { start: s, len: n };
    let second = Run { start: p, len: m };
    // Each answer is written out, so that an edit can change one of them.
    if !equal_alone(&store, first, second) {
        return Ok(false);
    }
    Ok(true)
}
