// View fields in code: the field, the checks that every call makes, and the calls. From value.rs (`ViewField`); refusals are the port's.
#![tactic(auto)]

ghost use Rattle.std.specs.Prelude.{◌≡◌, ◌&&◌, leb, ◌+◌, ◌≤◌, min};
ghost use Rattle.term_spec.specs.Words.{Lies, whole, records};
ghost use Rattle.term_spec.specs.Term.{run_layout, limit};
ghost use Rattle.view_spec.specs.Node.{node_layout};
ghost use Rattle.view_spec.specs.Build.{spec_from_runs, total, take_field, rest as specRest, join as specJoin};
ghost use Rattle.calls_spec.specs.Store.{capacity};
ghost use Rattle.calls_spec.specs.Step.{call_from_runs, call_take, call_rest, call_range, call_join, step};
ghost use Rattle.nodes.specs.NodeStore.{nodes_in, AnyStore, Reaches};
ghost use Rattle.from_runs.specs.FromRuns.{RunStore};
ghost use Rattle.words.specs.Refusals.{told_number};
ghost use Rattle.view.specs.Check.{as_field, store_of, checked, numbered, answer_of, leaves, grown_by};

use words::refusal::Refusal;
use words::{Node, Run};

// A field: the first len terms of a node.
#[derive(Clone, Copy)]
pub struct Field {
    pub node: usize,
    pub len: usize,
}

impl Field {
    // The empty field.
    pub const EMPTY: Field = Field { node: 0, len: 0 };

    // The first len terms of a node.
    pub fn new(node: usize, len: usize) -> Field
        ensures { as_field result ≡ record { node = node; len = len } }
    {
        Field { node, len }
    }

    // Its first n terms; all of them where it has fewer.
    pub fn clamped(self, n: usize) -> Field
        ensures { as_field result ≡ take_field (as_field self) (min self.len n) }
    {
        Field::new(self.node, self.len.min(n))
    }
}

// ---- checks ----

// 1 Uneven, of the nodes.
#[tactic(auto, unfolding(term_spec::specs::Words::whole, term_spec::specs::Words::count, calls_spec::specs::Store::capacity))]
fn nodes_even(nodes: &[u32], used: usize) -> bool
    ensures { let words = nodes.now in
        result ≡ whole node_layout words && leb used (capacity node_layout words) }
{
    nodes.len() % words::NODE_WIDTH == 0
        && used <= words::LIMIT
        && used <= nodes.len() / words::NODE_WIDTH
}

// The first of 1 to 4 that applies to the stores and two fields. `even` says whether what else the call is lent is even. A call with fewer fields
// gives the empty one, which is never refused.
pub fn check(
    names: &[u8],
    terms: &[u32],
    terms_used: usize,
    nodes: &[u32],
    nodes_used: usize,
    even: bool,
    f: Field,
    g: Field,
) -> Result<(), Refusal>
    ensures { let store = store_of names.now terms.now terms_used nodes.now nodes_used in
        told_number result ≡ numbered (checked store even (as_field f) (as_field g)) }
{
    if !even || !nodes_even(nodes, nodes_used) {
        return Err(Refusal::Uneven);
    }
    value::check_terms(names, terms, terms_used)?;
    if !nodes::nodes_ok(nodes, terms_used, nodes_used) {
        return Err(Refusal::BadNode);
    }
    if !nodes::field_ok(nodes, nodes_used, f.node, f.len)
        || !nodes::field_ok(nodes, nodes_used, g.node, g.len)
    {
        return Err(Refusal::BadField);
    }
    Ok(())
}

// Whether so many more nodes fit, by slice and limit.
#[tactic(auto, unfolding(term_spec::specs::Words::count, calls_spec::specs::Store::capacity))]
fn node_room(nodes: &[u32], used: usize, made: usize) -> bool
    requires { Lies node_layout nodes.now used × (used ≤ limit) }
    ensures { result ≡ leb (used + made) (capacity node_layout nodes.now) }
{
    made <= words::LIMIT - used && made <= nodes.len() / words::NODE_WIDTH - used
}

// ---- calls ----

// The runs of a list as one field of `len` terms, if the nodes fit.
fn chained(nodes: &mut [u32], count: &mut usize, runs: &[u32], len: usize) -> Result<Field, Refusal>
    requires store { RunStore nodes.old count.old runs.now }
    requires size { len ≡ total (records run_layout runs.now) }
    ensures { let before = nodes.old in
        let used = count.old in
        let built = spec_from_runs (records run_layout runs.now) (nodes_in before used) in
        (answer_of result, nodes.new, count.new) ≡ grown_by before used built }
{
    if len == 0 {
        return Ok(Field::EMPTY);
    }
    let used = *count;
    let made = from_runs::from_runs_makes(runs);
    if !node_room(nodes, used, made) {
        return Err(Refusal::NodesFull);
    }
    let node = from_runs::from_runs_build(nodes, used, runs);
    *count = used + made;
    Ok(Field::new(node, len))
}

// The terms of runs, in order.
pub fn from_runs(
    names: &[u8],
    terms: &[u32],
    terms_used: usize,
    nodes: &mut [u32],
    nodes_used: &mut usize,
    runs: &[u32],
) -> Result<Field, Refusal>
    ensures { let before = store_of names.now terms.now terms_used nodes.old nodes_used.old in
        let after = store_of names.now terms.now terms_used nodes.new nodes_used.new in
        leaves (answer_of result) after ≡ step before (call_from_runs runs.now) }
{
    check(
        names,
        terms,
        terms_used,
        nodes,
        *nodes_used,
        from_runs::runs_even(runs),
        Field::EMPTY,
        Field::EMPTY,
    )?;
    if !words::runs::runs_inside::<Run>(runs, terms_used) {
        return Err(Refusal::PastEnd);
    }
    let len = from_runs::runs_total(runs);
    if words::LIMIT < len {
        return Err(Refusal::TooLong);
    }
    chained(nodes, nodes_used, runs, len)
}

// The first n terms of a field.
pub fn take(
    names: &[u8],
    terms: &[u32],
    terms_used: usize,
    nodes: &[u32],
    nodes_used: usize,
    f: Field,
    n: usize,
) -> Result<Field, Refusal>
    ensures { let store = store_of names.now terms.now terms_used nodes.now nodes_used in
        leaves (answer_of result) store ≡ step store (call_take (as_field f) n) }
{
    check(
        names,
        terms,
        terms_used,
        nodes,
        nodes_used,
        true,
        f,
        Field::EMPTY,
    )?;
    if f.len < n {
        return Err(Refusal::PastEnd);
    }
    Ok(f.clamped(n))
}

// The field without its first k terms, if the nodes fit.
fn dropped(nodes: &mut [u32], count: &mut usize, f: Field, k: usize) -> Result<Field, Refusal>
    requires store { AnyStore nodes.old count.old }
    requires reaches { Reaches nodes.old count.old f.node f.len × (k ≤ f.len) }
    ensures { let before = nodes.old in
        let used = count.old in
        let built = specRest (as_field f) k (nodes_in before used) in
        (answer_of result, nodes.new, count.new) ≡ grown_by before used built }
{
    let used = *count;
    let made = drop_front::drop_front_makes(nodes, f.node, k);
    if !node_room(nodes, used, made) {
        return Err(Refusal::NodesFull);
    }
    let node = drop_front::drop_front_build(nodes, used, f.node, k, used + made);
    *count = used + made;
    Ok(Field::new(node, f.len - k))
}

// A field without its first k terms.
pub fn rest(
    names: &[u8],
    terms: &[u32],
    terms_used: usize,
    nodes: &mut [u32],
    nodes_used: &mut usize,
    f: Field,
    k: usize,
) -> Result<Field, Refusal>
    ensures { let before = store_of names.now terms.now terms_used nodes.old nodes_used.old in
        let after = store_of names.now terms.now terms_used nodes.new nodes_used.new in
        leaves (answer_of result) after ≡ step before (call_rest (as_field f) k) }
{
    check(
        names,
        terms,
        terms_used,
        nodes,
        *nodes_used,
        true,
        f,
        Field::EMPTY,
    )?;
    if f.len < k {
        return Err(Refusal::PastEnd);
    }
    dropped(nodes, nodes_used, f, k)
}

// n terms of a field after its first k: rest, then take.
pub fn range(
    names: &[u8],
    terms: &[u32],
    terms_used: usize,
    nodes: &mut [u32],
    nodes_used: &mut usize,
    f: Field,
    k: usize,
    n: usize,
) -> Result<Field, Refusal>
    ensures { let before = store_of names.now terms.now terms_used nodes.old nodes_used.old in
        let after = store_of names.now terms.now terms_used nodes.new nodes_used.new in
        leaves (answer_of result) after ≡ step before (call_range (as_field f) k n) }
{
    check(
        names,
        terms,
        terms_used,
        nodes,
        *nodes_used,
        true,
        f,
        Field::EMPTY,
    )?;
    if f.len < k || f.len - k < n {
        return Err(Refusal::PastEnd);
    }
    let g = dropped(nodes, nodes_used, f, k)?;
    Ok(g.clamped(n))
}

// The left's terms, then the right's, if the nodes fit. An empty operand gives the other as it is.
fn joined(nodes: &mut [u32], count: &mut usize, f: Field, g: Field) -> Result<Field, Refusal>
    requires store { AnyStore nodes.old count.old }
    requires left { Reaches nodes.old count.old f.node f.len }
    requires right { Reaches nodes.old count.old g.node g.len × (f.len + g.len ≤ limit) }
    ensures { let before = nodes.old in
        let used = count.old in
        let built = specJoin (as_field f) (as_field g) (nodes_in before used) in
        (answer_of result, nodes.new, count.new) ≡ grown_by before used built }
{
    if f.len == 0 {
        return Ok(g);
    }
    if g.len == 0 {
        return Ok(f);
    }
    let used = *count;
    let right = nodes::unclamp(nodes, g.node, g.len);
    let r = words::get::<Node>(nodes, right);
    let made = join::join_makes(nodes, r.height, f.node, f.len);
    if !node_room(nodes, used, made) {
        return Err(Refusal::NodesFull);
    }
    join::join_build(nodes, used, right, f.node, f.len, used + made);
    *count = used + made;
    Ok(Field::new(used + made - 1, f.len + g.len))
}

// Two fields as one: the left's terms, then the right's.
pub fn join(
    names: &[u8],
    terms: &[u32],
    terms_used: usize,
    nodes: &mut [u32],
    nodes_used: &mut usize,
    f: Field,
    g: Field,
) -> Result<Field, Refusal>
    ensures { let before = store_of names.now terms.now terms_used nodes.old nodes_used.old in
        let after = store_of names.now terms.now terms_used nodes.new nodes_used.new in
        leaves (answer_of result) after ≡ step before (call_join (as_field f) (as_field g)) }
{
    check(names, terms, terms_used, nodes, *nodes_used, true, f, g)?;
    if words::LIMIT < f.len || words::LIMIT - f.len < g.len {
        return Err(Refusal::TooLong);
    }
    joined(nodes, nodes_used, f, g)
}
