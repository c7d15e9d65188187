// Terms in code: the rules of a term store, equality of symbols, literals against terms. From value.rs (`Value`, equality) and matcher.rs
// (`symbol_matches`); records and their rules are the port's. Equality of terms and runs is in crate equality.
#![tactic(auto)]

pub mod store;

ghost use Rattle.std.specs.Prelude.{◌≡◌, [], ◌+◌, ◌*◌, ◌/◌, ◌<◌, ◌≤◌, max, length};
ghost use Rattle.term_spec.specs.Words.{Lies, decode};
ghost use Rattle.term_spec.specs.Term.{term_layout, bracket_kind, limit, depth_limit, is_scalar, depth_k, deepest as deepestOf};
ghost use Rattle.term_spec.specs.Term.{bracket_rule, symbol_rule, upper_rule, term_rule, terms_rule};
ghost use Rattle.words.specs.Records.{as_term};
ghost use Rattle.words.specs.Refusals.{told_number};
ghost use Rattle.value.specs.Check.{run_of, terms_number};
ghost use Rattle.value.specs.Blocks.{spec_low_block, spec_high_block, Covers, Blocks, deepened, Tables};
ghost use Rattle.value.specs.Equal.{Texts, spec_equal_symbols};

use words::Term;
use words::kind::TermKind;
use words::refusal::Refusal;

// ---- the rules of a term store ----

// Unicode's scalar values: those before the surrogates, and those after them.
const SURROGATES: usize = 0xD800;

const AFTER_SURROGATES: usize = 0xE000;

const LAST_SCALAR: usize = 0x10FFFF;

#[tactic(auto, using(std::proofs::lemmas::Bool::Decides::nat_tests), unfolding(term_spec::specs::Term::is_scalar))]
fn is_scalar(c: usize) -> bool
    ensures { result ≡ is_scalar c }
{
    c < SURROGATES || AFTER_SURROGATES <= c && c <= LAST_SCALAR
}

// The rule of a literal symbol: Char, Identifier or Number.
#[inline(always)]
#[tactic(auto, using(crate::specs::CheckLaws::symbol_tests))]
pub fn symbol_ok(names: &[u8], t: Term) -> bool
    ensures { result ≡ symbol_rule t.kind names.now t.a t.b t.c }
{
    // Chars are the most frequent terms, and a table of jumps for all kinds would cost each of them more than its rule.
    if t.is(TermKind::Char) {
        return is_scalar(t.a) && t.b == 0 && t.c == 0;
    }
    (t.is(TermKind::Identifier) || t.is(TermKind::Number))
        && text::text_ok(names, t.kind, t.a, t.b)
        && t.c == 0
}

// A term's own depth: a bracket's is its c, no other term has one.
#[tactic(auto, using(crate::specs::CheckLaws::depth_bracket, crate::specs::CheckLaws::depth_other))]
fn depth_of(t: Term) -> usize
    ensures { result ≡ depth_k t.kind (as_term t) }
{
    if t.is(TermKind::Bracket) { t.c } else { 0 }
}

// Tables have the deepest bracket of each block of terms, so that a bracket's contents are not read term by term: `low` has it for
// blocks of 32, `high` for blocks of 1,024. A bracket costs fewer than 190 reads.
const LOW_BLOCK: usize = 32;

const HIGH_BLOCK: usize = 1024;

// Entry k of a table becomes d where d is deeper.
#[tactic(auto, using(crate::specs::BlockLaws::deepened_one))]
fn deepen(table: &mut [u8], k: usize, d: usize)
    requires { (k < length table.old) × (d ≤ depth_limit) }
    ensures { table.new ≡ deepened table.old k d }
{
    if usize::from(table[k]) < d {
        table[k] = d as u8;
    }
}

// Term i goes into the tables: its depth counts in its low and its high block. Only a bracket has one.
#[tactic(auto, using(crate::specs::CheckLaws::depth_bracket, crate::specs::CheckLaws::depth_other, crate::specs::BlockLaws::deepened_none))]
fn enter(low: &mut [u8], high: &mut [u8], i: usize, t: Term)
    requires { (i < length low.old * spec_low_block) × (i < length high.old * spec_high_block) × (depth_k t.kind (as_term t) ≤ depth_limit) }
    ensures low_block { low.new ≡ deepened low.old (i / spec_low_block) (depth_k t.kind (as_term t)) }
    ensures high_block { high.new ≡ deepened high.old (i / spec_high_block) (depth_k t.kind (as_term t)) }
{
    if t.is(TermKind::Bracket) {
        deepen(low, i / LOW_BLOCK, t.c);
        deepen(high, i / HIGH_BLOCK, t.c);
    }
}

// The first terms of a run: how many, and their deepest bracket.
#[derive(Clone, Copy)]
struct Part {
    len: usize,
    deep: usize,
}

// The term at p as a part.
fn one_term(terms: &[u32], p: usize) -> Part
    requires { Lies term_layout terms.now (p + 1) }
    ensures { Covers terms.now p 1 result.len result.deep }
{
    let t = words::get::<Term>(terms, p);
    Part {
        len: 1,
        deep: depth_of(t),
    }
}

// What `deepest` takes at once of the n terms from p on: a whole block where one starts and ends within them, else one term.
fn first_part(terms: &[u32], low: &[u8], high: &[u8], p: usize, n: usize) -> Part
    requires lies { Lies term_layout terms.now (p + n) }
    requires blocks { Blocks terms.now (p + n) low.now high.now }
    requires some { 0 < n }
    ensures { Covers terms.now p n result.len result.deep }
{
    if n < LOW_BLOCK || p % LOW_BLOCK != 0 {
        one_term(terms, p)
    } else if HIGH_BLOCK <= n && p % HIGH_BLOCK == 0 {
        Part {
            len: HIGH_BLOCK,
            deep: usize::from(high[p / HIGH_BLOCK]),
        }
    } else {
        Part {
            len: LOW_BLOCK,
            deep: usize::from(low[p / LOW_BLOCK]),
        }
    }
}

// The deepest bracket among the n terms from s on, 0 if there is none.
fn deepest(terms: &[u32], low: &[u8], high: &[u8], s: usize, n: usize) -> usize
    requires lies { Lies term_layout terms.now (s + n) }
    requires blocks { Blocks terms.now (s + n) low.now high.now }
    ensures { result ≡ deepestOf (run_of terms.now s n) }
{
    let mut deep: usize = 0;
    let mut i = 0;
    while i < n {
        let part = first_part(terms, low, high, s + i, n - i);
        deep = deep.max(part.deep);
        i += part.len;
    }
    deep
}

// The deepest that brackets of terms lie.
const DEPTH_LIMIT: usize = 255;

// The rule of a bracket with number i: contents below it, its exact depth.
#[tactic(auto, using(crate::specs::CheckLaws::bracket_tests, crate::specs::BlockLaws::blocks_below))]
fn bracket_ok(terms: &[u32], low: &[u8], high: &[u8], i: usize, t: Term) -> bool
    requires lies { Lies term_layout terms.now i }
    requires blocks { Blocks terms.now i low.now high.now }
    ensures { result ≡ bracket_rule (decode term_layout i terms.now) (as_term t) }
{
    if i < t.b || i - t.b < t.a || t.c == 0 {
        return false;
    }
    t.c - 1 == deepest(terms, low, high, t.a, t.b) && t.c <= DEPTH_LIMIT
}

// The fifth word: the upper half of an unknown's level, 0 of any other term.
fn upper_ok(t: Term) -> bool
    ensures { result ≡ upper_rule (as_term t) }
{
    t.is(TermKind::Unknown) || t.d == 0
}

// The rule of a term with number i among those below it.
#[tactic(auto, using(crate::specs::CheckLaws::term_tests))]
fn term_ok(names: &[u8], terms: &[u32], low: &[u8], high: &[u8], i: usize, t: Term) -> bool
    requires lies { Lies term_layout terms.now i }
    requires blocks { Blocks terms.now i low.now high.now }
    ensures { result ≡ term_rule names.now (decode term_layout i terms.now) (as_term t) }
{
    // Tests and no match, as in `symbol_ok`. Unknowns alone may have any fifth word, so they are asked for before it.
    if t.is(TermKind::Unknown) {
        return t.a <= words::EXPRESSION;
    }
    if !upper_ok(t) {
        return false;
    }
    if t.is(TermKind::Bracket) {
        return bracket_ok(terms, low, high, i, t);
    }
    symbol_ok(names, t)
}

// The rule of the used terms. The tables are lent with no terms in them; each term that keeps its rule goes into them, so that they
// have all terms below the next.
fn all_ok(names: &[u8], terms: &[u32], used: usize, low: &mut [u8], high: &mut [u8]) -> bool
    requires lies { Lies term_layout terms.now used }
    requires room { (used ≤ length low.old * spec_low_block) × (used ≤ length high.old * spec_high_block) }
    requires tables { Tables terms.now 0 low.old high.old }
    ensures { result ≡ terms_rule names.now [] (decode term_layout used terms.now) }
{
    for i in 0..used {
        let t = words::get::<Term>(terms, i);
        if !term_ok(names, terms, low, high, i, t) {
            return false;
        }
        enter(low, high, i, t);
    }
    true
}

// The rule of the used terms. Setting the tables to 0 would cost a small store more than its terms do, so it gets small ones.
pub fn terms_ok(names: &[u8], terms: &[u32], used: usize) -> bool
    requires { (Lies term_layout terms.now used) × (used ≤ limit) }
    ensures { result ≡ terms_rule names.now [] (decode term_layout used terms.now) }
{
    if used <= HIGH_BLOCK {
        let mut low = [0u8; HIGH_BLOCK / LOW_BLOCK];
        let mut high = [0u8; 1];
        return all_ok(names, terms, used, &mut low, &mut high);
    }
    let mut low = [0u8; words::LIMIT / LOW_BLOCK];
    let mut high = [0u8; words::LIMIT / HIGH_BLOCK];
    all_ok(names, terms, used, &mut low, &mut high)
}

// The first of 1 and 2 that applies to the names and all used terms.
pub fn check_terms(names: &[u8], terms: &[u32], used: usize) -> Result<(), Refusal>
    ensures { told_number result ≡ terms_number names.now terms.now used }
{
    if terms.len() % words::TERM_WIDTH != 0 || words::LIMIT < names.len() {
        return Err(Refusal::Uneven);
    }
    if words::LIMIT < used || terms.len() / words::TERM_WIDTH < used {
        return Err(Refusal::Uneven);
    }
    if !terms_ok(names, terms, used) {
        return Err(Refusal::BadTerm);
    }
    Ok(())
}

// ---- symbols ----

// Whether two terms of one kind are equal, a bracket being no such term. Copied into its callers, since what is handed to a call is written to memory
// first: terms that are no texts are compared without that.
#[inline(always)]
#[tactic(auto, using(crate::specs::EqualLaws::texts_lie, crate::specs::EqualLaws::symbols_other))]
pub fn equal_symbols(names: &[u8], t: Term, u: Term) -> bool
    requires texts { Texts names.now (as_term t) (as_term u) }
    requires kinds { (t.kind ≡ u.kind) × (t.kind ≡ bracket_kind → ⊥) }
    ensures { result ≡ spec_equal_symbols names.now (as_term t) (as_term u) }
{
    // Tests and no match, as in `symbol_ok`.
    if t.is(TermKind::Char) {
        return t.a == u.a;
    }
    if t.is(TermKind::Identifier) {
        return text::same_identifiers(&names[t.a..t.a + t.b], &names[u.a..u.a + u.b]);
    }
    if t.is(TermKind::Number) {
        return text::same_numbers(&names[t.a..t.a + t.b], &names[u.a..u.a + u.b]);
    }
    t.a == u.a && t.b == u.b && t.c == u.c && t.d == u.d
}

// Whether a literal of a pattern (kinds 0 to 2) and a term are equal. An unknown or a bracket is none.
#[tactic(auto, using(crate::specs::EqualLaws::symbols_differ))]
pub fn symbol_matches(names: &[u8], literal: Term, t: Term) -> bool
    requires texts { Texts names.now (as_term literal) (as_term t) }
    requires symbol { literal.kind < bracket_kind }
    ensures { result ≡ spec_equal_symbols names.now (as_term literal) (as_term t) }
{
    literal.kind == t.kind && equal_symbols(names, literal, t)
}
