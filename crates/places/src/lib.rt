// The places of a rope's terms in the store, a part of the rope at a time, in about as many steps as the part has terms and the rope has nodes. A
// store can be made so that its terms share a long chain of left parts; so what was read of a node is not read again: its places are copied from
// where they stand.
#![tactic(auto)]

pub mod pieces;

ghost use Rattle.std.specs.Prelude.{◌≡◌, ℕ, ◌+◌, ◌<◌, ◌≤◌, IfSome, length, get_or, take, drop};
ghost use Rattle.std.proofs.lemmas.List.Edits.{sets};
ghost use Rattle.term_spec.specs.Term.{limit};
ghost use Rattle.term_spec.specs.ListLaws.{numbers_from};
ghost use Rattle.view_spec.specs.Node.{meaning};
ghost use Rattle.nodes.specs.NodeStore.{nodes_in, NodeStore, Reaches};
ghost use Rattle.places.specs.Places.{part, ShowsPart, PartRead, seen_unit, entry_of, noted, Before};

use pieces::{Ahead, Piece};
use words::Node;
use words::kind::NodeKind;

// The most terms of a part. Each field on the stack has at least one of them, so there are as many at most; a field has two words.
pub const PART: usize = 4096;

const STACK_WORDS: usize = PART * 2;

// What was read of a node, as one word, since a table of them takes 256 KB of stack: the place among the part's terms where it begins, times this
// number, plus how many they are.
const SEEN: usize = 65536;

// The n places from `start` on go to the words from `to` on.
fn put_run(places: &mut [u32], to: usize, start: usize, n: usize)
    requires { (to + n ≤ length places.old) × (start + n ≤ limit) }
    ensures { places.new ≡ sets places.old to (numbers_from start n) }
{
    for i in 0..n {
        words::set_word(places, to + i, start + i);
    }
}

// n words from `from` on go to `to` and after it, which lies past them.
pub fn copy_up(places: &mut [u32], from: usize, to: usize, n: usize)
    requires { (from + n ≤ to) × (to + n ≤ length places.old) }
    ensures { let before = places.old in
        places.new ≡ sets before to (take n (drop from before)) }
{
    // A loop, and not copy_from_slice: the archive for C is to need nothing but memset from outside.
    for i in 0..n {
        places[to + i] = places[from + i];
    }
}

// Where the terms of a piece stand among those read already, if its node was read so far.
fn read_before(seen: &[u32; words::LIMIT], at: Piece, done: usize) -> Option<usize>
    requires { (at.node < limit) × (at.left ≤ limit) }
    ensures { let table = seen.now in
        IfSome result (λ from. Before table at.node at.skip at.left done from) }
{
    if at.skip != 0 {
        return None;
    }
    let entry = words::word(seen, at.node);
    let from = entry / SEEN;
    if entry % SEEN < at.left {
        return None;
    }
    if done < from + at.left {
        return None;
    }
    Some(from)
}

// The terms of a piece are read next, after `done` others.
fn note(seen: &mut [u32; words::LIMIT], at: Piece, done: usize)
    requires { (at.node < limit) × (at.left < seen_unit) × (done < part) }
    ensures { seen.new ≡ noted seen.old at.node at.skip (entry_of done at.left) }
{
    if at.skip == 0 {
        words::set_word(seen, at.node, done * SEEN + at.left);
    }
}

// The places of the n terms of a node after its first `skip`, with a table that is lent empty.
fn read_with(
    nodes: &[u32],
    node: usize,
    skip: usize,
    n: usize,
    seen: &mut [u32; words::LIMIT],
    places: &mut [u32],
)
    requires shows { ShowsPart nodes.now node skip n }
    requires room { (n ≤ part) × (n ≤ length places.old) }
    requires empty { (i : ℕ) → get_or seen.old i 0 ≡ 0 }
    ensures { PartRead nodes.now node skip n places.old places.new }
{
    let mut ahead = Ahead::<STACK_WORDS>::new(Piece {
        node,
        skip,
        left: n,
    });
    let mut done = 0;
    while done < n {
        let at = ahead.at;
        let none = Piece {
            node: at.node,
            skip: at.skip,
            left: 0,
        };
        let here = words::get::<Node>(nodes, at.node);
        if here.b <= at.skip {
            ahead.at.skip -= here.b;
            ahead.at.node = here.c;
        } else if here.is(NodeKind::Cons) {
            let k = at.left.min(here.b - at.skip);
            put_run(places, done, here.a + at.skip, k);
            done += k;
            ahead.pass(k, none);
        } else if let Some(before) = read_before(seen, at, done) {
            copy_up(places, before, done, at.left);
            done += at.left;
            ahead.pass(at.left, none);
        } else {
            note(seen, at, done);
            ahead.enter(here);
        }
    }
}

// The places of the n terms of a node after its first `skip` become the first n words. The tables take 288 KB of stack.
pub fn read_places(nodes: &[u32], node: usize, skip: usize, n: usize, places: &mut [u32])
    requires shows { ShowsPart nodes.now node skip n }
    requires room { (n ≤ part) × (n ≤ length places.old) }
    ensures { let words = nodes.now in
        let before = places.old in
        let after = places.new in
        (drop n after ≡ drop n before) × (length after ≡ length before)
        × ((used terms : ℕ) → NodeStore words terms used → Reaches words used node (skip + n)
        → take n after ≡ take n (drop skip (meaning (numbers_from 0 terms) (nodes_in words used) node))) }
{
    let mut seen = [0u32; words::LIMIT];
    read_with(nodes, node, skip, n, &mut seen, places);
}
