// Records of patterns and bindings in lent slices, as structs by value.
#![tactic(auto)]

pub mod kind;

ghost use Rattle.std.specs.Prelude.{◌≡◌, refl, eqb, map};
ghost use Rattle.std.proofs.Common.{lit<};
ghost use Rattle.term_spec.specs.Words.{records};
ghost use Rattle.match_spec.specs.Pattern.{Item as SpecItem, Binding as SpecBinding, item_layout, binding_layout, bound_run};
ghost use Rattle.words.specs.Records.{as_term};
ghost use Rattle.words.specs.RunLaws.{runs_counted, runs_entry, no_run};
ghost use Rattle.items.specs.Kinds.{item_kind};
ghost use Rattle.items.specs.Records.{as_item, SmallItem, term_of_item, as_binding, SmallBinding};

use kind::ItemKind;
use words::runs::HasRun;
use words::{Record, Run, Term};

// One record of a pattern, its words widened.
#[derive(Clone, Copy)]
pub struct Item {
    pub kind: usize,
    pub a: usize,
    pub b: usize,
    pub c: usize,
}

impl Item {
    // Whether it is of a kind.
    pub fn is(self, kind: ItemKind) -> bool
        ensures { result ≡ eqb self.kind (item_kind kind) }
    {
        self.kind == kind.number()
    }
}

// One binding, its words widened.
#[derive(Clone, Copy)]
pub struct Binding {
    pub kind: usize,
    pub offset: usize,
    pub size: usize,
    pub start: usize,
    pub len: usize,
}

// The most records of a pattern, the most brackets of it one in another, and the most names of start and pattern together.
pub const PATTERN_LIMIT: usize = 256;

pub const NESTING_LIMIT: usize = 32;

pub const NAME_LIMIT: usize = 64;

// The widths of a pattern record and of a binding, in words.
pub const ITEM_WIDTH: usize = 4;

pub const BINDING_WIDTH: usize = 5;

impl Record for Item {
    ghost Meant = { SpecItem };

    ghost layout = { item_layout };

    ghost meant = { as_item };

    ghost IsSmall = { SmallItem };

    ghost WIDTH = { 4 };

    const WIDTH: usize = ITEM_WIDTH;

    #[tactic(auto, unfolding(match_spec::specs::Pattern::item_of))]
    fn read(pattern: &[u32]) -> Item {
        Item {
            kind: words::word(pattern, 0),
            a: words::word(pattern, 1),
            b: words::word(pattern, 2),
            c: words::word(pattern, 3),
        }
    }

    fn write(self, pattern: &mut [u32]) {
        words::set_word(pattern, 0, self.kind);
        words::set_word(pattern, 1, self.a);
        words::set_word(pattern, 2, self.b);
        words::set_word(pattern, 3, self.c);
    }

    ghost wide = { refl };
}

impl Record for Binding {
    ghost Meant = { SpecBinding };

    ghost layout = { binding_layout };

    ghost meant = { as_binding };

    ghost IsSmall = { SmallBinding };

    ghost WIDTH = { 5 };

    const WIDTH: usize = BINDING_WIDTH;

    #[tactic(auto, unfolding(match_spec::specs::Pattern::binding_of))]
    fn read(bindings: &[u32]) -> Binding {
        Binding {
            kind: words::word(bindings, 0),
            offset: words::word(bindings, 1),
            size: words::word(bindings, 2),
            start: words::word(bindings, 3),
            len: words::word(bindings, 4),
        }
    }

    fn write(self, bindings: &mut [u32]) {
        words::set_word(bindings, 0, self.kind);
        words::set_word(bindings, 1, self.offset);
        words::set_word(bindings, 2, self.size);
        words::set_word(bindings, 3, self.start);
        words::set_word(bindings, 4, self.len);
    }

    ghost wide = { refl };
}

impl HasRun for Binding {
    ghost runs = { λ w. map bound_run (records binding_layout w) };

    ghost has = { λ b. bound_run (as_binding b) };

    fn run(self) -> Run {
        Run {
            start: self.start,
            len: self.len,
        }
    }

    ghost some = { lit< tt };

    ghost counted = { λ w. runs_counted binding_layout bound_run w };

    ghost entry = { λ w i r lt e. runs_entry binding_layout bound_run w i lt e no_run };
}

// A literal of a pattern as a term.
pub fn literal(t: Item) -> Term
    ensures { as_term result ≡ term_of_item (as_item t) }
{
    Term {
        kind: t.kind,
        a: t.a,
        b: t.b,
        c: t.c,
        d: 0,
    }
}
