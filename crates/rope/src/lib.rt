// Reading the terms of a node from left to right, run by run. From value.rs (`Flat`, `ViewField::starts_with` and equality of fields), where
// the fields are read through an iterator. Nothing here recurses, since a store can be 65,535 nodes high: what is to be read after a piece waits
// on a stack of 32 fields, and where that is too small reading goes on from the node itself. Where that takes too many steps, the rest is read part
// by part (crate places).
#![tactic(auto)]

mod reader;
mod source;

ghost use Rattle.std.specs.Prelude.{◌≡◌, List, ℕ, ◌+◌, ◌≤◌, take};
ghost use Rattle.term_spec.specs.Words.{Lies, decode, records, write};
ghost use Rattle.term_spec.specs.Term.{term_layout, limit};
ghost use Rattle.view_spec.specs.Node.{holds};
ghost use Rattle.view_spec.specs.Read.{equal_terms};
ghost use Rattle.nodes.specs.NodeStore.{nodes_in, NodeStore, Reaches};
ghost use Rattle.value.specs.Equal.{values_in};
ghost use Rattle.value.specs.Store.{values_of};
ghost use Rattle.rope.specs.Pieces.{Below, Shows, ShowsOf, ShowBoth};
ghost use Rattle.rope.specs.Fronts.{RopesKnown, PlacesKnown, TellsFronts, equal_from, picked};
ghost use Rattle.rope.specs.CopiedLaws.{Task, CopiedPart};

use equality::Outcome;
use places::pieces::Field;
use reader::{Reader, STEPS_ALONE};
use source::{After, Out, Source};
use value::store::Store;
use words::Run;

// ---- comparing ----

// Compares the first n terms of two nodes run by run, as far as fuel and budget go: how many are equal, or none if they differ.
fn equal_some(
    store: &Store,
    nodes: &[u32],
    f: usize,
    g: usize,
    n: usize,
    budget: usize,
) -> Option<usize>
    requires { (used : ℕ) × ShowBoth nodes.now store.now.used used f g n }
    ensures { let words = nodes.now in
        let vs = values_of store.now in
        ((used : ℕ) → ShowBoth words store.now.used used f g n → TellsFronts vs (nodes_in words used) f g n result) }
{
    let mut a = Reader::new(Field { node: f, len: n });
    let mut b = Reader::new(Field { node: g, len: n });
    let mut left = budget;
    while a.done < n {
        let Some(r) = a.to_run(nodes) else {
            return Some(a.done);
        };
        let Some(s) = b.to_run(nodes) else {
            return Some(a.done);
        };
        let k = r.len.min(s.len);
        let first = Run { len: k, ..r };
        let second = Run { len: k, ..s };
        match equality::equal_runs_within(store.names, store.terms, first, second, left) {
            Outcome::Different(_) => return None,
            Outcome::Spent => return Some(a.done),
            Outcome::Equal(rest) => left = rest,
        }
        a.pass(k);
        b.pass(k);
    }
    Some(n)
}

// Whether the terms at k places have the same numbers as those at k others.
fn equal_at(
    known: &[u16],
    first: &[u32; places::PART],
    second: &[u32; places::PART],
    k: usize,
) -> bool
    requires { (names w : List ℕ) × (used : ℕ) × PlacesKnown names w used known.now first.now second.now k }
    ensures { let ps = first.now in
        let qs = second.now in
        ((names w : List ℕ) (used : ℕ) → PlacesKnown names w used known.now ps qs k
        → result ≡ equal_terms (picked (values_in names w used) (take k ps)) (picked (values_in names w used) (take k qs))) }
{
    for i in 0..k {
        if known[words::word(first, i)] != known[words::word(second, i)] {
            return false;
        }
    }
    true
}

// Whether the terms of two nodes after their first `from` and before their first n are equal, by the numbers of the terms.
fn equal_parts(nodes: &[u32], known: &[u16], f: usize, g: usize, from: usize, n: usize) -> bool
    requires within { from ≤ n }
    requires numbered { (names w : List ℕ) × (over used : ℕ) × RopesKnown names w nodes.now over used known.now f g n }
    ensures { let words = nodes.now in
        ((names w : List ℕ) (over used : ℕ) → RopesKnown names w words over used known.now f g n
        → result ≡ equal_from (values_in names w over) (nodes_in words used) f g n from) }
{
    let mut first = [0u32; places::PART];
    let mut second = [0u32; places::PART];
    for done in (from..n).step_by(places::PART) {
        let k = places::PART.min(n - done);
        places::read_places(nodes, f, done, k, &mut first);
        places::read_places(nodes, g, done, k, &mut second);
        if !equal_at(known, &first, &second, k) {
            return false;
        }
    }
    true
}

// The same, the terms being numbered for it. The numbers take 128 KB of stack, which callers that never come here do not need.
#[inline(never)]
fn equal_rest(store: &Store, nodes: &[u32], f: usize, g: usize, from: usize, n: usize) -> bool
    requires within { from ≤ n }
    requires shows { (used : ℕ) × ShowBoth nodes.now store.now.used used f g n }
    ensures { let words = nodes.now in
        let vs = values_of store.now in
        ((used : ℕ) → ShowBoth words store.now.used used f g n → result ≡ equal_from vs (nodes_in words used) f g n from) }
{
    let mut known = [0u16; words::LIMIT];
    numbers::number_terms(store, &mut known);
    equal_parts(nodes, &known, f, g, from, n)
}

// Whether the first n terms of two nodes are equal.
pub fn equal_fronts(store: &Store, nodes: &[u32], f: usize, g: usize, n: usize) -> bool
    requires { (used : ℕ) × ShowBoth nodes.now store.now.used used f g n }
    ensures { let words = nodes.now in
        let vs = values_of store.now in
        ((used : ℕ) → ShowBoth words store.now.used used f g n
        → result ≡ equal_terms (holds vs (nodes_in words used) (record { node = f; len = n }))
        (holds vs (nodes_in words used) (record { node = g; len = n }))) }
{
    if f == g {
        return true;
    }
    match equal_some(store, nodes, f, g, n, store.used + n + STEPS_ALONE) {
        None => false,
        Some(done) => {
            if done == n {
                return true;
            }
            equal_rest(store, nodes, f, g, done, n)
        }
    }
}

// ---- copying ----

// The first terms of a node become the records of the words, as many as the fuel allows: how many.
fn copy_some<S: Source>(source: S, nodes: &[u32], whole: Field, words: &mut [u32]) -> usize
    requires { (used : ℕ) × Task (S.terms source words.old) (S.used source) nodes.now used whole.node whole.len (S.base source) words.old }
    ensures { let before = words.old in
        (result ≤ whole.len)
        × CopiedPart (S.terms source before) (S.used source) nodes.now whole.node whole.len (S.base source) 0 result before words.new }
{
    let mut reader = Reader::new(whole);
    while reader.done < whole.len {
        let Some(r) = reader.to_run(nodes) else {
            return reader.done;
        };
        source.copy_run(words, r, reader.done);
        reader.pass(r.len);
    }
    whole.len
}

// The terms of a node after its first `from` and before its first `len` become the records after as many others. Not copied into its
// callers, since few of their calls come here and it has much stack.
#[inline(never)]
fn copy_rest<S: Source>(source: S, nodes: &[u32], whole: Field, from: usize, words: &mut [u32])
    requires task { (used : ℕ) × Task (S.terms source words.old) (S.used source) nodes.now used whole.node whole.len (S.base source) words.old }
    requires within { from ≤ whole.len }
    ensures { let before = words.old in
        CopiedPart (S.terms source before) (S.used source) nodes.now whole.node whole.len (S.base source) from whole.len before words.new }
{
    let mut list = [0u32; places::PART];
    for done in (from..whole.len).step_by(places::PART) {
        let k = places::PART.min(whole.len - done);
        places::read_places(nodes, whole.node, done, k, &mut list);
        source::copy_places(source, &list, k, words, done);
    }
}

// The terms of a field become the records of the words.
fn copy_whole<S: Source>(source: S, nodes: &[u32], whole: Field, words: &mut [u32])
    requires { (used : ℕ) × Task (S.terms source words.old) (S.used source) nodes.now used whole.node whole.len (S.base source) words.old }
    ensures { let before = words.old in
        CopiedPart (S.terms source before) (S.used source) nodes.now whole.node whole.len (S.base source) 0 whole.len before words.new }
{
    let done = copy_some(source, nodes, whole, words);
    if done < whole.len {
        copy_rest(source, nodes, whole, done, words);
    }
}

// The first len terms of a node become the first records of a work buffer.
pub fn copy_out(terms: &[u32], nodes: &[u32], node: usize, len: usize, work: &mut [u32])
    requires shows { Shows terms.now nodes.now node len }
    requires room { Lies term_layout work.old len }
    ensures { let store = terms.now in
        let words = nodes.now in
        let before = work.old in
        let after = work.new in
        let ts = records term_layout store in
        ((used : ℕ) → Below store words used → Reaches words used node len
        → after ≡ write term_layout before 0 (holds ts (nodes_in words used) (record { node = node; len = len }))) }
{
    copy_whole(Out { terms }, nodes, Field { node, len }, work);
}

// The first len terms of a node become the records after the used terms.
pub fn copy_after(terms: &mut [u32], terms_used: usize, nodes: &[u32], node: usize, len: usize)
    requires shows { ShowsOf nodes.now terms_used node len }
    requires few { terms_used ≤ limit }
    requires room { Lies term_layout terms.old (terms_used + len) }
    ensures { let words = nodes.now in
        let before = terms.old in
        let after = terms.new in
        let ts = decode term_layout terms_used before in
        ((used : ℕ) → NodeStore words terms_used used → Reaches words used node len
        → after ≡ write term_layout before terms_used (holds ts (nodes_in words used) (record { node = node; len = len }))) }
{
    copy_whole(
        After { used: terms_used },
        nodes,
        Field { node, len },
        terms,
    );
}
