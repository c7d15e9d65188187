// Records of words in lent slices, as structs by value: `get` and `put` for every kind of record. `word` and `set_word` alone see words and casts.
#![tactic(auto)]

pub mod kind;
pub mod refusal;
pub mod runs;

ghost use Rattle.std.specs.Prelude.{◌≡◌, refl, [], ◌∷◌, ℕ, ◌+◌, ◌*◌, ◌<◌, ◌≤◌, ◌^◌, eqb, length, get_or, set};
ghost use Rattle.term_spec.specs.Words.{Layout, Lies, record_at, write};
ghost use Rattle.term_spec.specs.Term.{Term as SpecTerm, Run as SpecRun, term_layout, run_layout, contents_run};
ghost use Rattle.view_spec.specs.Node.{Node as SpecNode, node_layout};
ghost use Rattle.words.specs.Kinds.{term_kind, node_kind};
ghost use Rattle.words.specs.Records.{as_term, Small, as_node, SmallNode, as_run, SmallRun};

use kind::{NodeKind, TermKind};

// One term, its words widened.
#[derive(Clone, Copy, Debug, PartialEq, Eq)]
pub struct Term {
    pub kind: usize,
    pub a: usize,
    pub b: usize,
    pub c: usize,
    pub d: usize,
}

// One node, its words widened.
#[derive(Clone, Copy, Debug, PartialEq, Eq)]
pub struct Node {
    pub kind: usize,
    pub a: usize,
    pub b: usize,
    pub c: usize,
    pub height: usize,
    pub reach: usize,
}

impl Term {
    // Whether it is of a kind.
    pub fn is(self, kind: TermKind) -> bool
        ensures { result ≡ eqb self.kind (term_kind kind) }
    {
        self.kind == kind.number()
    }

    // The run of a bracket's contents.
    pub fn contents(self) -> Run
        ensures { as_run result ≡ contents_run (as_term self) }
    {
        Run {
            start: self.a,
            len: self.b,
        }
    }
}

impl Node {
    // Whether it is of a kind.
    pub fn is(self, kind: NodeKind) -> bool
        ensures { result ≡ eqb self.kind (node_kind kind) }
    {
        self.kind == kind.number()
    }
}

// A run of terms: its start and its length, widened.
#[derive(Clone, Copy, Debug, PartialEq, Eq)]
pub struct Run {
    pub start: usize,
    pub len: usize,
}

// "At most 65,536 terms", nodes, name bytes, and terms in a field.
pub const LIMIT: usize = 65536;

// The most runs of a list.
pub const RUN_LIST_LIMIT: usize = 64;

// The last of what an unknown may stand for: a symbol (0), a term (1), an expression (2).
pub const EXPRESSION: usize = 2;

// The widths of a term record, of a node record and of a run, in words.
pub const TERM_WIDTH: usize = 5;

pub const NODE_WIDTH: usize = 6;

pub const RUN_WIDTH: usize = 2;

fn wide(x: u32) -> usize
    ensures { result ≡ x }
{
    x as usize
}

// The word at p.
pub fn word(words: &[u32], p: usize) -> usize
    requires { p < length words.now }
    ensures { result ≡ get_or words.now p 0 }
{
    wide(words[p])
}

// x goes to the word at p.
pub fn set_word(words: &mut [u32], p: usize, x: usize)
    requires { (p < length words.old) × (x < 2 ^ 32) }
    ensures { words.new ≡ set words.old p x }
{
    words[p] = x as u32;
}

// ---- records ----

// A kind of record: how many words it has, and what they mean.
pub trait Record: Copy {
    // The specification's record, how it lies in words, and the one that a value of the code is.
    ghost Meant: { Type 0 };

    ghost layout: { Layout Meant };

    ghost meant: { Self → Meant };

    // Every field fits a word.
    ghost IsSmall: { Self → Type 0 };

    // How many words it has.
    ghost WIDTH: { ℕ };

    const WIDTH: usize;

    // The record that its words are.
    fn read(words: &[u32]) -> Self
        requires { length words.now ≡ WIDTH }
        ensures { meant result ≡ layout.read words.now };

    // The words become those of the record.
    fn write(self, words: &mut [u32])
        requires { (length words.old ≡ WIDTH) × IsSmall self }
        ensures { words.new ≡ layout.words (meant self) };

    ghost wide: { layout.width ≡ WIDTH };
}

// Record i.
pub fn get<R: Record>(words: &[u32], i: usize) -> R
    requires { Lies R.layout words.now (i + 1) }
    ensures { R.meant result ≡ record_at R.layout words.now i }
{
    let p = i * R::WIDTH;
    R::read(&words[p..p + R::WIDTH])
}

// r becomes record i.
pub fn put<R: Record>(words: &mut [u32], i: usize, r: R)
    requires { (Lies R.layout words.old (i + 1)) × R.IsSmall r }
    ensures { words.new ≡ write R.layout words.old i (R.meant r ∷ []) }
{
    let p = i * R::WIDTH;
    r.write(&mut words[p..p + R::WIDTH]);
}

impl Record for Term {
    ghost Meant = { SpecTerm };

    ghost layout = { term_layout };

    ghost meant = { as_term };

    ghost IsSmall = { Small };

    ghost WIDTH = { 5 };

    const WIDTH: usize = TERM_WIDTH;

    #[tactic(auto, unfolding(term_spec::specs::Term::term_of))]
    fn read(terms: &[u32]) -> Term {
        Term {
            kind: word(terms, 0),
            a: word(terms, 1),
            b: word(terms, 2),
            c: word(terms, 3),
            d: word(terms, 4),
        }
    }

    fn write(self, terms: &mut [u32]) {
        set_word(terms, 0, self.kind);
        set_word(terms, 1, self.a);
        set_word(terms, 2, self.b);
        set_word(terms, 3, self.c);
        set_word(terms, 4, self.d);
    }

    ghost wide = { refl };
}

impl Record for Node {
    ghost Meant = { SpecNode };

    ghost layout = { node_layout };

    ghost meant = { as_node };

    ghost IsSmall = { SmallNode };

    ghost WIDTH = { 6 };

    const WIDTH: usize = NODE_WIDTH;

    #[tactic(auto, unfolding(view_spec::specs::Node::node_of))]
    fn read(nodes: &[u32]) -> Node {
        Node {
            kind: word(nodes, 0),
            a: word(nodes, 1),
            b: word(nodes, 2),
            c: word(nodes, 3),
            height: word(nodes, 4),
            reach: word(nodes, 5),
        }
    }

    fn write(self, nodes: &mut [u32]) {
        set_word(nodes, 0, self.kind);
        set_word(nodes, 1, self.a);
        set_word(nodes, 2, self.b);
        set_word(nodes, 3, self.c);
        set_word(nodes, 4, self.height);
        set_word(nodes, 5, self.reach);
    }

    ghost wide = { refl };
}

impl Record for Run {
    ghost Meant = { SpecRun };

    ghost layout = { run_layout };

    ghost meant = { as_run };

    ghost IsSmall = { SmallRun };

    ghost WIDTH = { 2 };

    const WIDTH: usize = RUN_WIDTH;

    #[tactic(auto, unfolding(term_spec::specs::Term::run_of))]
    fn read(runs: &[u32]) -> Run {
        Run {
            start: word(runs, 0),
            len: word(runs, 1),
        }
    }

    fn write(self, runs: &mut [u32]) {
        set_word(runs, 0, self.start);
        set_word(runs, 1, self.len);
    }

    ghost wide = { refl };
}
