// The used terms of a store, within their rules: what comparing and the walk read.
ghost use Rattle.std.specs.Prelude.{◌≤◌};
ghost use Rattle.term_spec.specs.Term.{limit};
ghost use Rattle.value.specs.Equal.{TermStore};

#[derive(Clone, Copy)]
pub struct Store<'a> {
    pub names: &'a [u8],
    pub terms: &'a [u32],
    pub used: usize,
    ghost good: { TermStore names.now terms.now used },
    ghost few: { used ≤ limit },
}
