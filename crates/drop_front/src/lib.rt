// Dropping terms from the front of a node. From value.rs (`drop_front`). Nothing here recurses: a store can be 65,535 nodes high.
#![tactic(auto)]

ghost use Rattle.std.specs.Prelude.{◌≡◌, ℕ, drop};
ghost use Rattle.term_spec.specs.Words.{write};
ghost use Rattle.view_spec.specs.Node.{node_layout};
ghost use Rattle.view_spec.specs.Build.{drop_makes, drop_node, shrink};
ghost use Rattle.nodes.specs.NodeStore.{nodes_in, AnyStore, Reaches, ReachesIn};
ghost use Rattle.drop_front.specs.DropFront.{StoppedIn, plan_in, Room};

use words::Node;
use words::kind::NodeKind;

// Where dropping ends along the right sides.
#[derive(Clone, Copy)]
pub enum Stop {
    // At this node, with nothing left to drop.
    Stay(usize),
    // In a Cons: the run and the tail of its rest, which is to be made.
    Cut {
        start: usize,
        len: usize,
        tail: usize,
    },
    // Inside a Concat's left: that left, the terms to drop there, those of it that stay, and the Concat's right.
    Under {
        inside: usize,
        count: usize,
        size: usize,
        right: usize,
    },
}

// To the right, from a Cons to its tail and from a Concat to its right, while what is to drop isn't inside.
fn stop_at(nodes: &[u32], node: usize, count: usize) -> Stop
    requires { ReachesIn nodes.now node count }
    ensures { StoppedIn nodes.now node count result }
{
    let mut at = node;
    let mut left = count;
    while 0 < left {
        let n = words::get::<Node>(nodes, at);
        if left < n.b {
            if n.is(NodeKind::Cons) {
                return Stop::Cut {
                    start: n.a + left,
                    len: n.b - left,
                    tail: n.c,
                };
            }
            return Stop::Under {
                inside: n.a,
                count: left,
                size: n.b - left,
                right: n.c,
            };
        }
        left -= n.b;
        at = n.c;
    }
    Stop::Stay(at)
}

// How many nodes drop_front_build makes. One walk with a closure for both would be no plainer: this one reads the nodes that the other writes.
pub fn drop_front_makes(nodes: &[u32], node: usize, count: usize) -> usize
    requires { ReachesIn nodes.now node count }
    ensures { let words = nodes.now in
        ((used : ℕ) → AnyStore words used → Reaches words used node count → result ≡ drop_makes (plan_in words used node count)) }
{
    let mut at = node;
    let mut left = count;
    let mut made: usize = 0;
    loop {
        match stop_at(nodes, at, left) {
            Stop::Stay(_) => return made,
            Stop::Cut { .. } => return made + 1,
            Stop::Under {
                inside,
                count: inner,
                ..
            } => {
                at = inside;
                left = inner;
                made += 1;
            }
        }
    }
}

// A node without its first `count` terms. Down: each outer Concat is reserved at the highest free number; at the bottom a Cons is made
// or none; then up. `end` is the used count after it, which the caller has from drop_front_makes.
pub fn drop_front_build(
    nodes: &mut [u32],
    used: usize,
    node: usize,
    count: usize,
    end: usize,
) -> usize
    requires store { AnyStore nodes.old used }
    requires reaches { Reaches nodes.old used node count }
    requires room { Room nodes.old used node count end }
    ensures { let before = nodes.old in
        let plan = plan_in before used node count in
        let new = drop used (shrink plan (nodes_in before used)) in
        (result ≡ drop_node plan (nodes_in before used)) × (nodes.new ≡ write node_layout before used new) }
{
    let mut hi = end;
    let mut at = node;
    let mut left = count;
    loop {
        match stop_at(nodes, at, left) {
            Stop::Stay(kept) => return nodes::complete(nodes, hi, end, kept),
            Stop::Cut { start, len, tail } => {
                nodes::make_cons(nodes, used, start, len, tail);
                return nodes::complete(nodes, hi, end, used);
            }
            Stop::Under {
                inside,
                count: inner,
                size,
                right,
            } => {
                hi -= 1;
                nodes::reserve(nodes, hi, 0, size, right);
                at = inside;
                left = inner;
            }
        }
    }
}
