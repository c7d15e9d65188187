// What the walk reads and leaves as it is.
ghost use Rattle.steps.specs.State.{PatternReady};

use value::store::Store;

// A store, a pattern within its rules, and the numbers of its names.
#[derive(Clone, Copy)]
pub struct Given<'a> {
    pub store: Store<'a>,
    pub pattern: &'a [u32],
    pub numbers: &'a [u32],
    ghost ready: { PatternReady store.names.now pattern.now numbers.now },
}
