// One record of a pattern at one place of the walk. From matcher.rs (`match_all_from` and `rigid_run_matches`, record by record). Nothing here
// recurses.
#![tactic(auto)]

ghost use Rattle.std.specs.Prelude.{◌≡◌, List, [], ◌∷◌, ◌++◌, Bool, true, ℕ, ◌+◌, ◌<◌, ◌≤◌, T, get_or, drop};
ghost use Rattle.term_spec.specs.Words.{Lies};
ghost use Rattle.term_spec.specs.Term.{limit, run_layout, no_run};
ghost use Rattle.term_spec.specs.Value.{Single, row};
ghost use Rattle.match_spec.specs.Pattern.{item_rule_k, nesting_limit, name_limit, open_kind};
ghost use Rattle.match_spec.specs.Walk.{ends};
ghost use Rattle.value.specs.Store.{Within};
ghost use Rattle.kinds.specs.Variables.{row_of};
ghost use Rattle.equality.specs.Stores.{Remembers};
ghost use Rattle.steps.specs.Stores.{turn_in};
ghost use Rattle.items.specs.Records.{as_item};
ghost use Rattle.words.specs.Records.{as_run};
ghost use Rattle.match_spec.specs.Element.{opening, closing, one, many};
ghost use Rattle.steps.specs.State.{passing, giving, left_of, front_of, spec_place_of, entries_in, turn_of, turn_at, LevelRoom, EntryRoom};
ghost use Rattle.steps.specs.State.{Known, Stands, LevelsKept, EndsApart, coded, pattern_in, Fine};

use items::Item;
use items::kind::ItemKind;
use kinds::VariableKind;
use value::store::Store;
use words::kind::TermKind;
use words::{Run, Term};

pub mod given;

// Where the walk stands: what is left of the innermost level, how many levels are around it, and how many entries are known. The runs of
// these levels (the outermost first) and entries are in lent words, two to a run: nothing large goes by value.
#[derive(Clone, Copy)]
pub struct State {
    pub start: usize,
    pub len: usize,
    pub depth: usize,
    pub bound: usize,
}

// The words of 32 levels, and of the place after them, which is read where all 32 are used.
pub const LEVEL_WORDS: usize = (items::NESTING_LIMIT + 1) * words::RUN_WIDTH;

// The words of the entries: 64 runs.
pub const ENTRY_WORDS: usize = items::NAME_LIMIT * words::RUN_WIDTH;

// What a record does, its turn: nothing fits, the walk goes on where the state says, it is split there, a Call or Block.
#[derive(Clone, Copy)]
pub enum Turned {
    Stop,
    Next(State),
    Split(State),
    Call,
}

// k terms of the innermost level are passed.
pub fn pass(s: State, k: usize) -> State
    requires { (k ≤ s.len) × (s.start + s.len ≤ limit) }
    ensures { result ≡ passing s k }
{
    State {
        start: s.start + k,
        len: s.len - k,
        ..s
    }
}

// The next entry gets the first k terms of the innermost level, which are passed.
#[tactic(auto, using(crate::specs::StepLaws::entry_words))]
pub fn give(s: State, k: usize, binds: &mut [u32]) -> State
    requires { (k ≤ s.len) × (s.start + s.len ≤ limit) × (s.bound < name_limit) × EntryRoom binds.old }
    ensures { let before = entries_in s.bound binds.old in
        (result ≡ giving s k) × (entries_in (s.bound + 1) binds.new ≡ before ++ (front_of k (left_of s) ∷ [])) }
{
    let i = s.bound;
    let front = Run {
        start: s.start,
        len: k,
    };
    words::put(binds, i, front);
    State {
        bound: i + 1,
        ..pass(s, k)
    }
}

// The run that entry x was given.
#[tactic(auto, using(crate::specs::StepLaws::entry_words))]
pub fn entry(binds: &[u32], x: usize) -> Run
    requires { Lies run_layout binds.now (x + 1) }
    ensures { (n : ℕ) → x < n → as_run result ≡ get_or (entries_in n binds.now) x no_run }
{
    words::get::<Run>(binds, x)
}

// A literal: the first term equals it.
#[tactic(auto, using(crate::specs::StepLaws::literal_turns))]
fn turn_literal(store: &Store, t: Item, s: State) -> Turned
    requires inside { Within store.now (left_of s) }
    requires rule { T (item_rule_k t.kind store.now.names.now (as_item t)) × (t.kind < open_kind) }
    ensures { let element = coded store.now.names.now (as_item t) in
        ((x : ℕ) (last : Bool) (lv bd : List ℕ) → turn_of result lv bd ≡ turn_in store.now (element x) last (spec_place_of s lv bd)) }
{
    if s.len == 0 {
        return Turned::Stop;
    }
    let u = words::get::<Term>(store.terms, s.start);
    if !value::symbol_matches(store.names, items::literal(t), u) {
        return Turned::Stop;
    }
    Turned::Next(pass(s, 1))
}

// An Open: the first term is a bracket, whose contents become the innermost level.
#[tactic(auto, using(crate::specs::StepLaws::open_turns), unfolding(crate::specs::State::Restores))]
fn turn_open(store: &Store, s: State, levels: &mut [u32]) -> Turned
    requires { Within store.now (left_of s) × (s.depth < nesting_limit) × LevelRoom levels.old }
    ensures turns { (last : Bool) (bd : List ℕ) → turn_of result levels.new bd ≡ turn_in store.now opening last (spec_place_of s levels.old bd) }
    ensures levels { LevelsKept s.depth result levels.old levels.new }
{
    if s.len == 0 {
        return Turned::Stop;
    }
    let u = words::get::<Term>(store.terms, s.start);
    if !u.is(TermKind::Bracket) {
        return Turned::Stop;
    }
    let after = Run {
        start: s.start + 1,
        len: s.len - 1,
    };
    words::put(levels, s.depth, after);
    let inner = u.contents();
    Turned::Next(State {
        start: inner.start,
        len: inner.len,
        depth: s.depth + 1,
        ..s
    })
}

// A Close: the innermost level has ended.
#[tactic(auto, using(crate::specs::StepLaws::close_turns))]
fn turn_close(s: State, levels: &[u32]) -> Turned
    requires { (1 ≤ s.depth) × (s.depth ≤ nesting_limit) × LevelRoom levels.now }
    ensures { let lv = levels.now in
        ((names terms : List ℕ) (used : ℕ) (last : Bool) (bd : List ℕ) → s.start + s.len ≤ used
        → turn_of result lv bd ≡ turn_at names terms used closing last (spec_place_of s lv bd)) }
{
    if s.len != 0 {
        return Turned::Stop;
    }
    let around = words::get::<Run>(levels, s.depth - 1);
    Turned::Next(State {
        start: around.start,
        len: around.len,
        depth: s.depth - 1,
        ..s
    })
}

// An s- or t-variable: it takes the first term; a known one must be equal to it.
#[tactic(auto, using(crate::specs::StepLaws::single_turns))]
fn turn_single(
    store: &Store,
    kind: VariableKind,
    x: usize,
    s: State,
    binds: &mut [u32],
    known: &mut [u16],
) -> Turned
    requires inside { Within store.now (left_of s) }
    requires entries { Known store.now.used s.bound binds.old × (x ≤ s.bound) × (x < name_limit) }
    requires memory { Remembers store.now known.old }
    ensures turns { (j : Single) → row j ≡ row_of kind → (last : Bool) (lv : List ℕ)
        → turn_of result lv binds.new ≡ turn_in store.now (one j x) last (spec_place_of s lv binds.old) }
    ensures entries { entries_in s.bound binds.new ≡ entries_in s.bound binds.old }
    ensures memory { Remembers store.now known.new }
{
    if s.len == 0 {
        return Turned::Stop;
    }
    if !kinds::variable_accepts(kind, words::get::<Term>(store.terms, s.start)) {
        return Turned::Stop;
    }
    if s.bound <= x {
        return Turned::Next(give(s, 1, binds));
    }
    let ahead = Run {
        start: s.start,
        len: 1,
    };
    if !equality::equal_runs(store, entry(binds, x), ahead, known) {
        return Turned::Stop;
    }
    Turned::Next(pass(s, 1))
}

// An e-variable: a known one must equal the terms ahead; one that ends its level takes what remains; an open one is split.
#[tactic(auto, using(crate::specs::StepLaws::expression_turns))]
fn turn_expression(
    store: &Store,
    x: usize,
    last: bool,
    s: State,
    binds: &mut [u32],
    known: &mut [u16],
) -> Turned
    requires inside { Within store.now (left_of s) }
    requires entries { Known store.now.used s.bound binds.old × (x ≤ s.bound) × (x < name_limit) }
    requires memory { Remembers store.now known.old }
    ensures turns { (lv : List ℕ) → turn_of result lv binds.new ≡ turn_in store.now (many x) last (spec_place_of s lv binds.old) }
    ensures entries { entries_in s.bound binds.new ≡ entries_in s.bound binds.old }
    ensures memory { Remembers store.now known.new }
{
    if s.bound <= x {
        if last {
            return Turned::Next(give(s, s.len, binds));
        }
        return Turned::Split(s);
    }
    let e = entry(binds, x);
    if s.len < e.len {
        return Turned::Stop;
    }
    let ahead = Run {
        start: s.start,
        len: e.len,
    };
    if !equality::equal_runs(store, e, ahead, known) {
        return Turned::Stop;
    }
    Turned::Next(pass(s, e.len))
}

// Whether a record is a known e-variable that ends its level with another number of terms than are left: then no try fits, and the terms need
// not be compared.
pub fn ends_apart(kind: usize, x: usize, last: bool, s: State, binds: &[u32]) -> bool
    requires { (s.bound ≤ name_limit) × EntryRoom binds.now }
    ensures { result ≡ true → EndsApart kind x last s.bound s.len binds.now }
{
    kind == ItemKind::EVariable.number() && last && x < s.bound && entry(binds, x).len != s.len
}

// The turn of a record, x being the number of its name; `last` says whether its level ends after it. Of the levels it writes the place after
// those around, and only where it goes on; of the entries the next one.
#[tactic(auto, using(crate::specs::StepLaws::record_turns), unfolding(crate::specs::State::turn_of, crate::specs::State::Restores))]
pub fn turn(
    store: &Store,
    t: Item,
    x: usize,
    last: bool,
    s: State,
    levels: &mut [u32],
    binds: &mut [u32],
    known: &mut [u16],
) -> Turned
    requires stands { Stands store.now.used (spec_place_of s levels.old binds.old) × Remembers store.now known.old }
    requires rule { T (item_rule_k t.kind store.now.names.now (as_item t)) × Fine t.kind x s.depth s.bound }
    ensures { let element = coded store.now.names.now (as_item t) x in
        (turn_of result levels.new binds.new ≡ turn_in store.now element last (spec_place_of s levels.old binds.old))
        × LevelsKept s.depth result levels.old levels.new
        × (entries_in s.bound binds.new ≡ entries_in s.bound binds.old)
        × Remembers store.now known.new }
{
    match ItemKind::try_from(t.kind) {
        Ok(ItemKind::Char | ItemKind::Identifier | ItemKind::Number) => turn_literal(store, t, s),
        Ok(ItemKind::Open) => turn_open(store, s, levels),
        Ok(ItemKind::Close) => turn_close(s, levels),
        Ok(ItemKind::SVariable) => turn_single(store, VariableKind::Symbol, x, s, binds, known),
        Ok(ItemKind::TVariable) => turn_single(store, VariableKind::Term, x, s, binds, known),
        Ok(ItemKind::EVariable) => turn_expression(store, x, last, s, binds, known),
        Ok(ItemKind::Call | ItemKind::Block) | Err(_) => Turned::Call,
    }
}

// Whether a level ends before record p.
#[tactic(auto, using(crate::specs::StepLaws::level_ends))]
pub fn ends_at(pattern: &[u32], p: usize) -> bool
    ensures { (names numbers : List ℕ) → result ≡ ends (drop p (pattern_in names pattern.now numbers)) }
{
    pattern.len() / items::ITEM_WIDTH <= p || words::get::<Item>(pattern, p).is(ItemKind::Close)
}
