// Nodes in code: their rules, making them, unclamping, and Concats that are reserved before both children are made. From value.rs (`Node`,
// `node_height`, `make_concat`, `unclamp`); records and their rules are the port's. Nothing here recurses: a store can be 65,535 nodes high.
#![tactic(auto)]

ghost use Rattle.std.specs.Prelude.{◌≡◌, List, [], ◌∷◌, ℕ, ◌+◌, ◌<◌, ◌≤◌, ◌^◌, min, max, eqb, length};
ghost use Rattle.term_spec.specs.Words.{Lies, record_at, write};
ghost use Rattle.term_spec.specs.Term.{limit};
ghost use Rattle.view_spec.specs.Node.{Node as SpecNode, node_layout, cons_node, concat_node};
ghost use Rattle.view_spec.specs.Node.{nil_rule, cons_rule, concat_rule, node_rule, nodes_rule, field_rule};
ghost use Rattle.view_spec.specs.Build.{unclamp as unclampedNode};
ghost use Rattle.words.specs.Records.{as_node};
ghost use Rattle.nodes.specs.NodeStore.{nodes_in, AnyStore, NodeIn};
ghost use Rattle.nodes.specs.Complete.{reserved, child_of, completed, last_made, Completes, Became};

use words::Node;
use words::kind::NodeKind;

// ---- rules ----

// The only Nil.
const NIL_NODE: Node = Node {
    kind: NodeKind::Nil as usize,
    a: 0,
    b: 0,
    c: 0,
    height: 0,
    reach: 0,
};

// The reach of a node that has b terms before what is after it: at most the limit.
fn reach_of(b: usize, after: usize) -> usize
    ensures { result ≡ min limit (b + after) }
{
    words::LIMIT.min(b.saturating_add(after))
}

// Node i is a Cons within its rules, so many terms being used.
fn cons_ok(nodes: &[u32], terms: usize, i: usize, n: Node) -> bool
    requires { Lies node_layout nodes.now i }
    ensures { result ≡ cons_rule terms (nodes_in nodes.now i) (as_node n) }
{
    if n.b < 1 || terms < n.b || terms - n.b < n.a || i <= n.c {
        return false;
    }
    let tail = words::get::<Node>(nodes, n.c);
    (tail.is(NodeKind::Nil) || tail.is(NodeKind::Cons))
        && n.height == 1
        && n.reach == reach_of(n.b, tail.reach)
}

// Node i is a Concat within its rules.
fn concat_ok(nodes: &[u32], i: usize, n: Node) -> bool
    requires { Lies node_layout nodes.now i }
    ensures { result ≡ concat_rule (nodes_in nodes.now i) (as_node n) }
{
    if i <= n.a || i <= n.c {
        return false;
    }
    let left = words::get::<Node>(nodes, n.a);
    let right = words::get::<Node>(nodes, n.c);
    !left.is(NodeKind::Nil)
        && !right.is(NodeKind::Nil)
        && 1 <= n.b
        && n.b <= left.reach
        && 1 <= n.height
        && n.height - 1 == left.height.max(right.height)
        && n.reach == reach_of(n.b, right.reach)
}

// The rule of node i among those below it.
fn node_ok(nodes: &[u32], terms: usize, i: usize) -> bool
    requires { Lies node_layout nodes.now (i + 1) }
    ensures { let words = nodes.now in
        result ≡ node_rule terms (nodes_in words i) (record_at node_layout words i) }
{
    let n = words::get::<Node>(nodes, i);
    // Two tests and no match, which would test first whether the kind is one at all: the checks of nodes would take a seventh longer.
    if n.is(NodeKind::Cons) {
        return cons_ok(nodes, terms, i, n);
    }
    if n.is(NodeKind::Concat) {
        return concat_ok(nodes, i, n);
    }
    i == 0 && n == NIL_NODE
}

// The rule of the used nodes, so many terms being used.
pub fn nodes_ok(nodes: &[u32], terms: usize, used: usize) -> bool
    requires { Lies node_layout nodes.now used }
    ensures { result ≡ nodes_rule terms (nodes_in nodes.now used) }
{
    1 <= used && (0..used).all(|i| node_ok(nodes, terms, i))
}

// The rule of a field, given by its node and its length.
pub fn field_ok(nodes: &[u32], used: usize, node: usize, len: usize) -> bool
    requires { Lies node_layout nodes.now used }
    ensures { result ≡ field_rule (nodes_in nodes.now used) (record { node = node; len = len }) }
{
    node < used && len <= words::get::<Node>(nodes, node).reach
}

// ---- making nodes ----

// One more node: a Cons of the run (a, b) before tail c.
pub fn make_cons(nodes: &mut [u32], used: usize, a: usize, b: usize, c: usize)
    requires store { AnyStore nodes.old used }
    requires fits { Lies node_layout nodes.old (used + 1) × (a < 2 ^ 32) × (b ≤ limit) × (c < used) }
    ensures { let words = nodes.old in
        nodes.new ≡ write node_layout words used (cons_node (nodes_in words used) a b c ∷ []) }
{
    let tail = words::get::<Node>(nodes, c);
    let n = Node {
        kind: NodeKind::Cons.number(),
        a,
        b,
        c,
        height: 1,
        reach: reach_of(b, tail.reach),
    };
    words::put(nodes, used, n);
}

// One more node: a Concat of the first b terms of a before c.
pub fn make_concat(nodes: &mut [u32], used: usize, a: usize, b: usize, c: usize)
    requires store { AnyStore nodes.old used }
    requires fits { Lies node_layout nodes.old (used + 1) × (a < used) × (b ≤ limit) × (c < used) }
    ensures { let words = nodes.old in
        nodes.new ≡ write node_layout words used (concat_node (nodes_in words used) a b c ∷ []) }
{
    let left = words::get::<Node>(nodes, a);
    let right = words::get::<Node>(nodes, c);
    let n = Node {
        kind: NodeKind::Concat.number(),
        a,
        b,
        c,
        height: 1 + left.height.max(right.height),
        reach: reach_of(b, right.reach),
    };
    words::put(nodes, used, n);
}

// ---- unclamp ----

// Down the left of a node while the length fits in it.
pub fn unclamp(nodes: &[u32], node: usize, len: usize) -> usize
    requires { NodeIn nodes.now node }
    ensures { let words = nodes.now in
        (result ≤ node) × ((used : ℕ) → AnyStore words used → node < used → result ≡ unclampedNode (nodes_in words used) node len) }
{
    let mut at = node;
    loop {
        let n = words::get::<Node>(nodes, at);
        if !n.is(NodeKind::Concat) || n.b < len {
            return at;
        }
        at = n.a;
    }
}

// ---- reserved Concats ----

// Record i becomes a Concat of a's first b terms before c; a child that is not known yet is given as 0, which is no Concat's child.
pub fn reserve(nodes: &mut [u32], i: usize, a: usize, b: usize, c: usize)
    requires { Lies node_layout nodes.old (i + 1) × (a ≤ limit) × (b ≤ limit) × (c ≤ limit) }
    ensures { nodes.new ≡ write node_layout nodes.old i (reserved a b c ∷ []) }
{
    let n = Node {
        kind: NodeKind::Concat.number(),
        a,
        b,
        c,
        height: 0,
        reach: 0,
    };
    words::put(nodes, i, n);
}

// A child of a reserved Concat, where `before` is the node made before it. No Option, since the 0 lies in a word of the record until then.
fn child(c: usize, before: usize) -> usize
    ensures { result ≡ child_of c before }
{
    if c == 0 { before } else { c }
}

// The reserved records from `from` to `end` become nodes, from the lowest to the highest: `before` is the node before the first. Hands back
// the last node.
pub fn complete(nodes: &mut [u32], from: usize, end: usize, before: usize) -> usize
    requires { Completes nodes.old from end before }
    ensures { let words = nodes.old in
        (result ≡ last_made from end before) × Became words nodes.new end (completed words from end before) }
{
    let mut last = before;
    for at in from..end {
        let n = words::get::<Node>(nodes, at);
        make_concat(nodes, at, child(n.a, last), n.b, child(n.c, last));
        last = at;
    }
    last
}
