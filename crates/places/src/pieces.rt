// What is to be read of a rope next: a piece of a node's terms, then the fields that wait on a stack of words.
ghost use Rattle.std.specs.Prelude.{◌≡◌, false, [], ◌∷◌, ◌+◌, ◌*◌, ◌<◌, ◌≤◌, length};
ghost use Rattle.term_spec.specs.Term.{limit};
ghost use Rattle.words.specs.Records.{as_node};
ghost use Rattle.places.specs.Rest.{passed, entered};
ghost use Rattle.places.specs.Ahead.{as_field, PoppedOff, rest_of, alone};

use std::marker::Model;
use words::Node;

// The first `len` terms of a node.
#[derive(Clone, Copy)]
pub struct Field {
    pub node: usize,
    pub len: usize,
}

// `left` terms of a node after its first `skip`.
#[derive(Clone, Copy)]
pub struct Piece {
    pub node: usize,
    pub skip: usize,
    pub left: usize,
}

// Fields, in words: two to a field, the last one last. An `ArrayVec` of fields would take twice the stack, and its `new`, `pop` and `clear` write
// every place that they leave empty.
#[derive(Drop)]
pub struct Stack<const WORDS: usize> {
    words: [u32; WORDS],
    depth: usize,
}

// Clauses see the fields, the last one first.
impl<const WORDS: usize> Model for Stack<WORDS> {
    ghost use Rattle.std.specs.Prelude.{List, ◌*◌, ◌≤◌};
    ghost use Rattle.view_spec.specs.Node.{Field as SpecField};
    ghost use Rattle.places.specs.Rest.{waiting};

    ghost Value = { List SpecField };

    ghost view = { λ s. waiting s.words s.depth };

    ghost invariant = { λ s. s.depth * 2 ≤ WORDS };
}

impl<const WORDS: usize> Stack<WORDS> {
    pub fn new() -> Self
        ensures { result ≡ [] }
    {
        Stack {
            words: [0; WORDS],
            depth: 0,
        }
    }

    // No field more has room.
    pub fn is_full(&self) -> bool
        ensures { result ≡ false → length self.now * 2 + 2 ≤ WORDS }
    {
        self.depth * 2 + 2 > WORDS
    }

    pub fn clear(&mut self)
        ensures { self.new ≡ [] }
    {
        self.depth = 0;
    }

    pub fn push(&mut self, f: Field)
        requires { (length self.old * 2 + 2 ≤ WORDS) × (f.node < limit) × (f.len ≤ limit) }
        ensures { self.new ≡ as_field f ∷ self.old }
    {
        let depth = self.depth;
        words::set_word(&mut self.words, depth * 2, f.node);
        words::set_word(&mut self.words, depth * 2 + 1, f.len);
        self.depth = depth + 1;
    }

    pub fn pop(&mut self) -> Option<Field>
        ensures { PoppedOff self.old result self.new }
    {
        if self.depth == 0 {
            return None;
        }
        self.depth -= 1;
        Some(Field {
            node: words::word(&self.words, self.depth * 2),
            len: words::word(&self.words, self.depth * 2 + 1),
        })
    }
}

// A piece, and the fields that wait.
#[derive(Drop)]
pub struct Ahead<const WORDS: usize> {
    pub at: Piece,
    pub later: Stack<WORDS>,
}

impl<const WORDS: usize> Ahead<WORDS> {
    // A piece alone.
    pub fn new(at: Piece) -> Self
        ensures { rest_of result ≡ alone at }
    {
        Ahead {
            at,
            later: Stack::new(),
        }
    }

    // k terms of the piece are read. Where that leaves nothing, `again` is to be read.
    pub fn pass(&mut self, k: usize, again: Piece)
        requires { self.old.at.skip + self.old.at.left ≤ limit }
        ensures { rest_of self.new ≡ passed (rest_of self.old) k (alone again) }
    {
        if k < self.at.left {
            self.at.skip += k;
            self.at.left -= k;
            return;
        }
        self.at = match self.later.pop() {
            Some(f) => Piece {
                node: f.node,
                skip: 0,
                left: f.len,
            },
            None => again,
        };
    }

    // Into the left of a Concat; where the piece goes on in its right, that waits.
    pub fn enter(&mut self, n: Node)
        requires piece { (self.old.at.skip ≤ n.b) × (self.old.at.left ≤ limit) × (n.c < limit) }
        requires room { length self.old.later * 2 + 2 ≤ WORDS }
        ensures { rest_of self.new ≡ entered (rest_of self.old) (as_node n) }
    {
        let at = self.at;
        let here = n.b - at.skip;
        if at.left <= here {
            self.at.node = n.a;
            return;
        }
        self.later.push(Field {
            node: n.c,
            len: at.left - here,
        });
        self.at = Piece {
            node: n.a,
            skip: at.skip,
            left: here,
        };
    }
}
