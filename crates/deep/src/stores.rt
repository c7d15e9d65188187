// The stores: nodes above the terms abcd, and brackets that share their contents.
ghost use Rattle.std.specs.Prelude.{◌≡◌, ◌<◌, ◌≤◌};
ghost use Rattle.words.specs.Kinds.{term_kind, node_kind};
ghost use Rattle.words.specs.Records.{Small, SmallNode};

use std::alloc::{AllocError, Global};
use words::kind::{NodeKind, TermKind};
use words::{LIMIT, NODE_WIDTH, Node, TERM_WIDTH, Term};

// The nodes and the terms that a store has room for: one node more than the limit.
pub const NODES: usize = LIMIT + 1;

const TERMS: usize = 16384;

// What the calls are lent: the words of nodes, and of terms or of a work buffer.
#[derive(Drop)]
pub struct Stores {
    pub nodes: Vec<u32>,
    pub terms: Vec<u32>,
}

impl Stores {
    pub fn new(alloc: Global) -> Result<Stores, AllocError> {
        let nodes = vec![in alloc; 0u32; NODES * NODE_WIDTH]?;
        let terms = vec![in alloc; 0u32; TERMS * TERM_WIDTH]?;
        Ok(Stores { nodes, terms })
    }

    // Nodes 0 to `last`, and none past 65,535.
    pub fn build(&mut self, spine: Spine, last: usize) {
        let nodes = self.nodes.as_mut_slice();
        for i in 0..(last.min(LIMIT - 1) + 1).min(nodes.len() / NODE_WIDTH) {
            words::put(nodes, i, spine.node(i));
        }
    }

    pub fn share(&mut self, brackets: Brackets, same: usize) {
        let terms = self.terms.as_mut_slice();
        for i in 0..SHARED.min(terms.len() / TERM_WIDTH) {
            words::put(terms, i, brackets.term(same, i));
        }
    }
}

// The words of the terms abcd: of each its kind 0, its letter and three 0s.
pub static LETTERS: [u32; 4 * TERM_WIDTH] = [
    0, 97, 0, 0, 0, 0, 98, 0, 0, 0, 0, 99, 0, 0, 0, 0, 100, 0, 0, 0,
];

// ---- spines and chains ----

// What lies above a node. In a right spine an a, then that node; in a left spine its first two terms, then abcd; in a chain one letter, then that
// node, the letters going round.
#[derive(Clone, Copy)]
pub enum Spine {
    Right,
    Left,
    Chain,
}

impl Spine {
    // Node i. Node 0 is Nil, and node 1 of a spine holds abcd.
    fn node(self, i: usize) -> Node
        requires { i ≤ 65535 }
        ensures { SmallNode result }
    {
        match (self, i) {
            (_, 0) => node(NodeKind::Nil, 0, 0, 0, 0, 0),
            (Spine::Chain, _) => node(NodeKind::Cons, i % 4, 1, i - 1, 1, i),
            (_, 1) => node(NodeKind::Cons, 0, 4, 0, 1, 4),
            (Spine::Right, _) => node(NodeKind::Concat, 1, 1, i - 1, i, (i + 3).min(LIMIT)),
            (Spine::Left, _) => node(NodeKind::Concat, i - 1, 2, 1, i, 6),
        }
    }
}

fn node(kind: NodeKind, a: usize, b: usize, c: usize, height: usize, reach: usize) -> Node
    ensures { result ≡ record { kind = node_kind kind; a = a; b = b; c = c; height = height; reach = reach } }
{
    Node {
        kind: kind.number(),
        a,
        b,
        c,
        height,
        reach,
    }
}

// ---- brackets that share contents: 255 levels of five terms ----

// Their terms.
pub const SHARED: usize = 255 * 5;

// What the terms of a level hold. Pairs: the first two terms and the next two are each a pair of what they are; the last is one of the second pair
// with the last below it. Crossed: the third and the fifth are a pair of the third and fourth below, the fourth the other way round.
#[derive(Clone, Copy)]
pub enum Brackets {
    Pairs,
    Crossed,
}

impl Brackets {
    // Where in the level below the contents of a level's term `at` start.
    fn start(self, at: usize) -> usize
        ensures { result ≤ 3 }
    {
        match (self, at) {
            (_, 0 | 1) => 0,
            (_, 2) | (Brackets::Pairs, 3) | (Brackets::Crossed, 4) => 2,
            _ => 3,
        }
    }

    // Term i. The bottom level has Chars, a so many times and then b; above them stand brackets, each with two neighbours of the level below.
    fn term(self, same: usize, i: usize) -> Term
        requires { i < 1275 }
        ensures { Small result }
    {
        let level = i / 5;
        let at = i % 5;
        if level == 0 {
            let letter = if at < same { b'a' } else { b'b' };
            return term(TermKind::Char, usize::from(letter), 0, 0);
        }
        term(
            TermKind::Bracket,
            (level - 1) * 5 + self.start(at),
            2,
            level,
        )
    }
}

fn term(kind: TermKind, a: usize, b: usize, c: usize) -> Term
    ensures { result ≡ record { kind = term_kind kind; a = a; b = b; c = c; d = 0 } }
{
    Term {
        kind: kind.number(),
        a,
        b,
        c,
        d: 0,
    }
}
