// Whether the rigid run after an open e-variable fits the terms ahead. From matcher.rs (`rigid_run_matches`): a bracket by its kind alone, a
// known s- or t-variable by the kind of term it takes and not by its value, a known e-variable by its terms.
#![tactic(auto)]

ghost use Rattle.std.specs.Prelude.{◌≡◌, false, ℕ, ◌+◌, ◌<◌, ◌≤◌, T};
ghost use Rattle.term_spec.specs.Words.{Lies, record_at};
ghost use Rattle.term_spec.specs.Term.{term_layout};
ghost use Rattle.match_spec.specs.Element.{many};
ghost use Rattle.match_spec.specs.Pattern.{item_rule_k, pattern_limit, close_kind, expression_variable_kind};
ghost use Rattle.equality.specs.Stores.{Remembers};
ghost use Rattle.value.specs.Store.{Within};
ghost use Rattle.items.specs.Records.{as_item};
ghost use Rattle.steps.specs.State.{left_of, Known, coded};
ghost use Rattle.rigid.specs.Fit.{opens_to, skips_to, Apart, ApartAt, FirstOf};
ghost use Rattle.rigid.specs.Stores.{fits_at_term, Fits, fits_run, fits_split};

use items::Item;
use items::kind::ItemKind;
use kinds::VariableKind;
use steps::State;
use steps::given::Given;
use value::store::Store;
use words::kind::TermKind;
use words::{Run, Term};

// What a record of the run does: it does not fit, the run ends before it, it takes so many terms.
#[derive(Clone, Copy)]
pub enum Fit {
    No,
    Ends,
    Takes(usize),
}

// A literal, a bracket, or an s- or t-variable at a term that is there.
#[tactic(auto, using(crate::specs::KindLaws::at_kinds))]
fn fit_term(store: &Store, t: Item, start: usize) -> bool
    requires inside { start < store.now.used }
    requires rule { T (item_rule_k t.kind store.now.names.now (as_item t)) × (t.kind < expression_variable_kind) × (t.kind ≡ close_kind → ⊥) }
    ensures { result ≡ fits_at_term store.now (as_item t) start }
{
    let u = words::get::<Term>(store.terms, start);
    match ItemKind::try_from(t.kind) {
        Ok(ItemKind::Open) => u.is(TermKind::Bracket),
        Ok(ItemKind::SVariable) => kinds::variable_accepts(VariableKind::Symbol, u),
        Ok(ItemKind::TVariable) => kinds::variable_accepts(VariableKind::Term, u),
        _ => value::symbol_matches(store.names, items::literal(t), u),
    }
}

// An e-variable, whose name has number x, at what is left of the level: the run ends before an open one, a known one takes the terms that equal its own.
#[tactic(auto, using(crate::specs::KindLaws::many_fits))]
fn fit_expression(store: &Store, x: usize, s: State, binds: &[u32], known: &mut [u16]) -> Fit
    requires ready { Within store.now (left_of s) × Known store.now.used s.bound binds.now × Remembers store.now known.old }
    ensures { Fits store.now (many x) 0 s.bound binds.now (left_of s) result × Remembers store.now known.new }
{
    if s.bound <= x {
        return Fit::Ends;
    }
    let e = steps::entry(binds, x);
    if s.len < e.len {
        return Fit::No;
    }
    let ahead = Run {
        start: s.start,
        len: e.len,
    };
    if equality::equal_runs(store, e, ahead, known) {
        Fit::Takes(e.len)
    } else {
        Fit::No
    }
}

// A record of the run, whose name has number x, at what is left of the level.
#[tactic(auto, using(crate::specs::KindLaws::record_kinds))]
fn fit_record(store: &Store, t: Item, x: usize, s: State, binds: &[u32], known: &mut [u16]) -> Fit
    requires ready { Within store.now (left_of s) × Known store.now.used s.bound binds.now × Remembers store.now known.old }
    requires rule { T (item_rule_k t.kind store.now.names.now (as_item t)) }
    ensures { let element = coded store.now.names.now (as_item t) x in
        Fits store.now element (opens_to t.kind) s.bound binds.now (left_of s) result × Remembers store.now known.new }
{
    match ItemKind::try_from(t.kind) {
        Ok(ItemKind::EVariable) => fit_expression(store, x, s, binds, known),
        Ok(ItemKind::Close | ItemKind::Call | ItemKind::Block) | Err(_) => Fit::Ends,
        _ => {
            if s.len == 0 || !fit_term(store, t, s.start) {
                Fit::No
            } else {
                Fit::Takes(1)
            }
        }
    }
}

// How a record inside a bracket of the run changes the brackets that are passed over. As a match, runs without
// brackets took 3 to 8 % longer, though none is passed over there.
#[tactic(auto, using(crate::specs::FitLaws::skips_open, crate::specs::FitLaws::skips_close, crate::specs::FitLaws::skips_other))]
fn skip(t: Item, d: usize) -> usize
    requires { (1 ≤ d) × (d ≤ pattern_limit) }
    ensures { result ≡ skips_to t.kind d }
{
    if t.is(ItemKind::Open) {
        d + 1
    } else if t.is(ItemKind::Close) {
        d - 1
    } else {
        d
    }
}

// 1 after an Open, 0 after any other record.
#[tactic(auto, using(crate::specs::FitLaws::opens_is))]
fn opens(t: Item) -> usize
    ensures { result ≡ opens_to t.kind }
{
    usize::from(t.is(ItemKind::Open))
}

// Whether the run from record p on fits what is left of the innermost level.
#[tactic(auto, using(crate::specs::KindLaws::run_exits))]
pub fn rigid_run_matches(
    given: &Given,
    p: usize,
    s: State,
    binds: &[u32],
    known: &mut [u16],
) -> bool
    requires ready { Within given.now.store (left_of s) × Known given.now.store.used s.bound binds.now × Remembers given.now.store known.old }
    ensures { (result ≡ fits_run given.now p s.bound binds.now (left_of s)) × Remembers given.now.store known.new }
{
    let n = given.pattern.len() / items::ITEM_WIDTH;
    let mut d: usize = 0;
    let mut here = s;
    for i in p..n {
        let t = words::get::<Item>(given.pattern, i);
        if 0 < d {
            d = skip(t, d);
            continue;
        }
        let x = words::word(given.numbers, i);
        match fit_record(&given.store, t, x, here, binds, known) {
            Fit::No => {
                return false;
            }
            Fit::Ends => {
                return true;
            }
            Fit::Takes(k) => {
                here = steps::pass(here, k);
                d = opens(t);
            }
        }
    }
    true
}

// ---- the splits where it fits ----

// Whether a rigid run that begins with the record t (a literal or an Open) may begin at term i, by kind and by a Char's value: cheaper than
// the whole test, which comes after it.
fn may_begin(terms: &[u32], t: Item, i: usize) -> bool
    requires { Lies term_layout terms.now (i + 1) }
    ensures { result ≡ false → Apart (as_item t) (record_at term_layout terms.now i) }
{
    let u = words::get::<Term>(terms, i);
    // As one condition this was proved too, but both words were then read at each term: passing over terms took a third longer.
    if t.is(ItemKind::Char) {
        if u.a != t.a {
            return false;
        }
    }
    u.kind == t.kind
}

// The first of the terms from `from` to before `end` at which it may begin, `end` if there is none.
fn next_begin(terms: &[u32], t: Item, from: usize, end: usize) -> usize
    requires { (from ≤ end) × Lies term_layout terms.now end }
    ensures { let terms = terms.entry.now in
        (from ≤ result) × (result ≤ end) × ((i : ℕ) → from ≤ i → i < result → Apart (as_item t) (record_at term_layout terms i)) }
{
    for i in from..end {
        if may_begin(terms, t, i) {
            return i;
        }
    }
    end
}

// Passes over splits from j on where the record p that comes after the e-variable cannot fit.
fn skip_apart(given: &Given, p: usize, s: State, j: usize) -> usize
    requires { Within given.now.store (left_of s) × (j ≤ s.len) }
    ensures { let apart = ApartAt given.now.store.terms.now given.now.pattern.now p in
        (j ≤ result) × (result ≤ s.len) × ((i : ℕ) → j ≤ i → i < result → apart (s.start + i)) }
{
    if given.pattern.len() / items::ITEM_WIDTH <= p {
        return j;
    }
    let t = words::get::<Item>(given.pattern, p);
    match ItemKind::try_from(t.kind) {
        Ok(ItemKind::Char | ItemKind::Identifier | ItemKind::Number | ItemKind::Open) => {
            next_begin(given.store.terms, t, s.start + j, s.start + s.len) - s.start
        }
        _ => j,
    }
}

// The first split from k on, of those that give 0 to s.len terms to the e-variable, where the run from record p on fits.
#[tactic(auto, using(crate::specs::SplitLaws::passed_start, crate::specs::SplitLaws::first_past))]
pub fn next_split(
    given: &Given,
    p: usize,
    s: State,
    binds: &[u32],
    k: usize,
    known: &mut [u16],
) -> Option<usize>
    requires ready { Within given.now.store (left_of s) × Known given.now.store.used s.bound binds.now × Remembers given.now.store known.old }
    requires split { k ≤ s.len + 1 }
    ensures { FirstOf (fits_split given.now p s.bound binds.now (left_of s)) k s.len result × Remembers given.now.store known.new }
{
    // Counted by hand, since a turn passes over as many splits as `skip_apart` says.
    let mut j = k;
    while j <= s.len {
        j = skip_apart(given, p, s, j);
        if rigid_run_matches(given, p, steps::pass(s, j), binds, known) {
            return Some(j);
        }
        j += 1;
    }
    None
}
