// The calls that read fields: starts_with, equality and flatten; and settling for the listing. From value.rs (`ViewField::starts_with`,
// equality of fields, `Flat`); refusals are the port's.
#![tactic(auto)]

ghost use Rattle.std.specs.Prelude.{◌≡◌, ℕ, ◌+◌, ◌<◌, ◌≤◌, eqb, leb, true};
ghost use Rattle.term_spec.specs.Words.{Lies, decode};
ghost use Rattle.term_spec.specs.Term.{term_layout, limit};
ghost use Rattle.view_spec.specs.Node.{node_layout};
ghost use Rattle.view_spec.specs.Read.{place, copy, settled_run};
ghost use Rattle.calls_spec.specs.Step.{call_starts_with, call_equal, call_flatten, step};
ghost use Rattle.nodes.specs.NodeStore.{nodes_in, NodeStore, Reaches};
ghost use Rattle.rope.specs.Pieces.{ShowsOf};
ghost use Rattle.view.specs.Check.{as_field, store_of, leaves};
ghost use Rattle.view_read.specs.Read.{verdict_of, spec_place_of, found_of, flat_of, flat_by, leaves_work, flat_words, settled_of, settled_by};

use value::store::Store;
use view::Field;
use words::kind::NodeKind;
use words::refusal::Refusal;
use words::{Node, Run};

// ---- comparing ----

// Whether two fields have lengths that fit, as the caller says, and equal terms as far as the second goes.
fn compared(
    names: &[u8],
    terms: &[u32],
    terms_used: usize,
    nodes: &[u32],
    nodes_used: usize,
    f: Field,
    g: Field,
    lengths_fit: bool,
) -> Result<bool, Refusal>
    requires { lengths_fit ≡ true → g.len ≤ f.len }
    ensures starts { let store = store_of names.now terms.now terms_used nodes.now nodes_used in
        (lengths_fit ≡ leb g.len f.len → leaves (verdict_of result) store ≡ step store (call_starts_with (as_field f) (as_field g))) }
    ensures equals { let store = store_of names.now terms.now terms_used nodes.now nodes_used in
        (lengths_fit ≡ eqb f.len g.len → leaves (verdict_of result) store ≡ step store (call_equal (as_field f) (as_field g))) }
{
    view::check(names, terms, terms_used, nodes, nodes_used, true, f, g)?;
    let store = Store {
        names,
        terms,
        used: terms_used,
    };
    Ok(lengths_fit && rope::equal_fronts(&store, nodes, f.node, g.node, g.len))
}

// Whether a field starts with another's terms.
pub fn starts_with(
    names: &[u8],
    terms: &[u32],
    terms_used: usize,
    nodes: &[u32],
    nodes_used: usize,
    f: Field,
    g: Field,
) -> Result<bool, Refusal>
    ensures { let store = store_of names.now terms.now terms_used nodes.now nodes_used in
        leaves (verdict_of result) store ≡ step store (call_starts_with (as_field f) (as_field g)) }
{
    let fit = g.len <= f.len;
    compared(names, terms, terms_used, nodes, nodes_used, f, g, fit)
}

// Whether two fields hold equal terms.
pub fn equal(
    names: &[u8],
    terms: &[u32],
    terms_used: usize,
    nodes: &[u32],
    nodes_used: usize,
    f: Field,
    g: Field,
) -> Result<bool, Refusal>
    ensures { let store = store_of names.now terms.now terms_used nodes.now nodes_used in
        leaves (verdict_of result) store ≡ step store (call_equal (as_field f) (as_field g)) }
{
    let fit = f.len == g.len;
    compared(names, terms, terms_used, nodes, nodes_used, f, g, fit)
}

// ---- flatten and settling: the same choice ----

// Where a field's terms stand in one run of the store, if they do: when the node is one Cons with Nil tail or the length is 0.
fn place_of(nodes: &[u32], f: Field) -> Option<Run>
    requires { Lies node_layout nodes.now (f.node + 1) }
    ensures { (used : ℕ) → f.node < used → spec_place_of result ≡ place (nodes_in nodes.now used) (as_field f) }
{
    if f.len == 0 {
        return Some(Run { start: 0, len: 0 });
    }
    let n = words::get::<Node>(nodes, f.node);
    if n.is(NodeKind::Cons) && n.c == 0 {
        Some(Run {
            start: n.a,
            len: f.len,
        })
    } else {
        None
    }
}

// Where flatten found or put the terms.
#[derive(Clone, Copy)]
pub enum Flat {
    InStore(Run),
    InWork(usize),
}

// A field's terms as one run, copied to the work buffer where they are scattered. `flat_part` shows them.
pub fn flatten(
    names: &[u8],
    terms: &[u32],
    terms_used: usize,
    nodes: &[u32],
    nodes_used: usize,
    f: Field,
    work: &mut [u32],
) -> Result<Flat, Refusal>
    ensures { let store = store_of names.now terms.now terms_used nodes.now nodes_used in
        leaves_work (flat_of result) store work.new ≡ step store (call_flatten (as_field f) work.old) }
{
    view::check(
        names,
        terms,
        terms_used,
        nodes,
        nodes_used,
        work.len() % words::TERM_WIDTH == 0,
        f,
        Field::EMPTY,
    )?;
    match place_of(nodes, f) {
        Some(r) => Ok(Flat::InStore(r)),
        None => {
            if work.len() / words::TERM_WIDTH < f.len {
                return Err(Refusal::WorkShort);
            }
            rope::copy_out(terms, nodes, f.node, f.len, work);
            Ok(Flat::InWork(f.len))
        }
    }
}

// The words of the terms that are there: a part of the term store or of the work buffer, empty where it is not all there.
fn found_part<'a>(terms: &'a [u32], work: &'a [u32], flat: Flat) -> &'a [u32]
    ensures { result.now ≡ flat_words (found_of flat) terms.now work.now }
{
    match flat {
        Flat::InStore(r) => {
            let all = terms.len() / words::TERM_WIDTH;
            if all < r.len || all - r.len < r.start {
                return &terms[0..0];
            }
            let a = r.start * words::TERM_WIDTH;
            let e = a + r.len * words::TERM_WIDTH;
            &terms[a..e]
        }
        Flat::InWork(n) => {
            if work.len() / words::TERM_WIDTH < n {
                return &work[0..0];
            }
            let e = n * words::TERM_WIDTH;
            &work[0..e]
        }
    }
}

// The words of the terms that flatten showed. Empty for a refusal, whatever it is, and for an answer that came of other slices.
pub fn flat_part<'a, E: Copy>(terms: &'a [u32], work: &'a [u32], flat: Result<Flat, E>) -> &'a [u32]
    ensures { (number : E → ℕ) → result.now ≡ flat_words (flat_by number flat) terms.now work.now }
{
    match flat {
        Ok(found) => found_part(terms, work, found),
        Err(_) => &work[0..0],
    }
}

// A field's terms as a run of the store, copied after the used terms where they are scattered; 13 TermsFull where the copy does not fit.
pub fn settle(
    terms: &mut [u32],
    terms_used: &mut usize,
    nodes: &[u32],
    f: Field,
) -> Result<Run, Refusal>
    requires lies { Lies term_layout terms.old terms_used.old × (terms_used.old ≤ limit) }
    requires shows { ShowsOf nodes.now terms_used.old f.node f.len }
    ensures { let before = terms.old in
        let used = terms_used.old in
        let ts = decode term_layout used before in
        let words = nodes.now in
        ((m : ℕ) → NodeStore words used m → Reaches words m f.node f.len
        → (settled_of result, terms.new, terms_used.new)
        ≡ settled_by before used (copy ts (nodes_in words m) (as_field f)) (settled_run ts (nodes_in words m) (as_field f))) }
{
    let used = *terms_used;
    match place_of(nodes, f) {
        Some(r) => Ok(r),
        None => {
            if words::LIMIT - used < f.len || terms.len() / words::TERM_WIDTH - used < f.len {
                return Err(Refusal::TermsFull);
            }
            rope::copy_after(terms, used, nodes, f.node, f.len);
            *terms_used = used + f.len;
            Ok(Run {
                start: used,
                len: f.len,
            })
        }
    }
}
