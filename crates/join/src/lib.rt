// Joining ropes (value.rs, `join`), as loops: a store can be 65,535 nodes high, so nothing here recurses.
#![tactic(auto)]

ghost use Rattle.std.specs.Prelude.{◌≡◌, ℕ, drop};
ghost use Rattle.term_spec.specs.Words.{write};
ghost use Rattle.view_spec.specs.Node.{node_layout, Piece};
ghost use Rattle.view_spec.specs.Build.{plan, plan_makes};
ghost use Rattle.nodes.specs.NodeStore.{nodes_in, AnyStore};
ghost use Rattle.join.specs.Turn.{PieceIn, TurnedIn, grown, Joins};

use words::Node;
use words::kind::NodeKind;

// One step of a join, from the top of the left down.
#[derive(Clone, Copy)]
pub enum Turn {
    // The last one: the first terms of a node, before the right.
    Base {
        node: usize,
        len: usize,
    },
    // The first `size` terms of `left` before the rest, which is the first `len` terms of `node`.
    Single {
        left: usize,
        size: usize,
        node: usize,
        len: usize,
    },
    // A head of the first `size` terms of `left` before `inner`; then the first `size + inner_size` terms of that head before the rest,
    // which is the first `len` terms of `node`.
    Double {
        left: usize,
        size: usize,
        inner: usize,
        inner_size: usize,
        node: usize,
        len: usize,
    },
}

// The turn for the first len terms of a node, h being the right's height.
pub fn next_turn(nodes: &[u32], h: usize, node: usize, len: usize) -> Turn
    requires { PieceIn nodes.now node len }
    ensures { TurnedIn nodes.now h node len result }
{
    let left = nodes::unclamp(nodes, node, len);
    let n = words::get::<Node>(nodes, left);
    if !n.is(NodeKind::Concat) || n.height - 1 <= h {
        return Turn::Base { node: left, len };
    }
    let inner_left = words::get::<Node>(nodes, n.a);
    let inner_right = words::get::<Node>(nodes, n.c);
    let inner = len - n.b;
    if inner_right.height <= inner_left.height {
        return Turn::Single {
            left: n.a,
            size: n.b,
            node: n.c,
            len: inner,
        };
    }
    let middle = nodes::unclamp(nodes, n.c, inner);
    let m = words::get::<Node>(nodes, middle);
    if !m.is(NodeKind::Concat) {
        return Turn::Base { node: left, len };
    }
    Turn::Double {
        left: n.a,
        size: n.b,
        inner: m.a,
        inner_size: m.b,
        node: m.c,
        len: inner - m.b,
    }
}

// How many nodes a join makes: the turns counted, nothing written. One walk with a closure for both would be no plainer: this one
// reads the nodes that the other writes.
pub fn join_makes(nodes: &[u32], h: usize, node: usize, len: usize) -> usize
    requires { PieceIn nodes.now node len }
    ensures { let words = nodes.now in
        ((used : ℕ) → AnyStore words used → Piece (nodes_in words used) node len
        → result ≡ plan_makes (plan (nodes_in words used) h node len)) }
{
    let mut at = node;
    let mut n = len;
    let mut made = 1;
    loop {
        match next_turn(nodes, h, at, n) {
            Turn::Base { .. } => return made,
            Turn::Single {
                node: x,
                len: m,
                ..
            } => {
                made += 1;
                at = x;
                n = m;
            }
            Turn::Double {
                node: x,
                len: m,
                ..
            } => {
                made += 2;
                at = x;
                n = m;
            }
        }
    }
}

// The nodes of a join: the first len terms of a node, before node `right`. `end` is the used count after it, which the caller has counted.
// Down: heads are made at the lowest free number, outer Concats are reserved at the highest; then up.
pub fn join_build(nodes: &mut [u32], used: usize, right: usize, node: usize, len: usize, end: usize)
    requires store { AnyStore nodes.old used }
    requires piece { Piece (nodes_in nodes.old used) node len }
    requires room { Joins nodes.old used right node len end }
    ensures { let before = nodes.old in
        let new = drop used (grown (nodes_in before used) right node len) in
        nodes.new ≡ write node_layout before used new }
{
    let h = words::get::<Node>(nodes, right).height;
    let mut lo = used;
    let mut hi = end;
    let mut at = node;
    let mut n = len;
    loop {
        match next_turn(nodes, h, at, n) {
            Turn::Base { node: l, len: m } => {
                nodes::make_concat(nodes, lo, l, m, right);
                nodes::complete(nodes, hi, end, lo);
                return;
            }
            Turn::Single {
                left,
                size,
                node: x,
                len: m,
            } => {
                hi -= 1;
                nodes::reserve(nodes, hi, left, size, 0);
                at = x;
                n = m;
            }
            Turn::Double {
                left,
                size,
                inner,
                inner_size,
                node: x,
                len: m,
            } => {
                nodes::make_concat(nodes, lo, left, size, inner);
                hi -= 1;
                nodes::reserve(nodes, hi, lo, size + inner_size, 0);
                lo += 1;
                at = x;
                n = m;
            }
        }
    }
}
