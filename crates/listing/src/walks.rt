// The walk as a listing starts it: over a settled run, from the start's entries, with words for what comparing finds.
ghost use Rattle.std.specs.Prelude.{◌≡◌, map, ◌+◌, ◌*◌, ◌^◌, ◌<◌, ◌≤◌, length};
ghost use Rattle.term_spec.specs.Words.{count, records};
ghost use Rattle.match_spec.specs.Pattern.{binding_layout, bound_run, name_limit};
ghost use Rattle.equality.specs.Stores.{Remembers};
ghost use Rattle.steps.specs.State.{entries_in, EntryRoom};
ghost use Rattle.matcher.specs.Given.{spec_given};
ghost use Rattle.listing.specs.Match.{CanStart, Started};

use items::{Binding, Item};
use matcher::{Goal, Status, Tally};
use steps::State;
use steps::given::Given;
use words::Run;
use words::runs::HasRun;

// The start's entries become the first runs of `binds`.
fn start(bindings: &[u32], binds: &mut [u32])
    requires { (length bindings.now < (name_limit + 1) * binding_layout.width) × EntryRoom binds.old }
    ensures { let bindings = bindings.entry.now in
        entries_in (count binding_layout bindings) binds.new ≡ map bound_run (records binding_layout bindings) }
{
    for i in 0..bindings.len() / items::BINDING_WIDTH {
        let b = words::get::<Binding>(bindings, i);
        words::put(binds, i, b.run());
    }
}

// The walk over a settled run from the start's entries, with the words of its levels and entries; what comparing finds is kept in `known`.
fn walk_with(
    given: &Given,
    bindings: &[u32],
    run: Run,
    g: Goal,
    slots: &mut [u32],
    known: &mut [u16],
) -> Tally
    requires { CanStart (spec_given given.now) bindings.now run g slots.old × Remembers given.now.store known.old }
    ensures { Started (spec_given given.now) bindings.now run g result slots.old slots.new }
{
    let mut levels = [0u32; steps::LEVEL_WORDS];
    let mut binds = [0u32; steps::ENTRY_WORDS];
    start(bindings, &mut binds);
    let at = State {
        start: run.start,
        len: run.len,
        depth: 0,
        bound: bindings.len() / items::BINDING_WIDTH,
    };
    let none = Tally {
        stop: Status::Going,
        count: 0,
    };
    matcher::walk(given, 0, at, &mut levels, &mut binds, known, g, slots, none)
}

// Words for what comparing finds, by the size of the store: to clear more than are needed would take longer than a small listing.
const NONE: usize = 1;

const SMALL: usize = 256;

const MIDDLE: usize = 4096;

// The walk with N words for what comparing finds. Not copied into its caller, which would have to touch each page of their stack at every call.
#[inline(never)]
fn walk_keeping<const N: usize>(
    given: &Given,
    bindings: &[u32],
    run: Run,
    g: Goal,
    slots: &mut [u32],
) -> Tally
    requires fits { N < 2 ^ 32 }
    requires can_start { CanStart (spec_given given.now) bindings.now run g slots.old }
    ensures { Started (spec_given given.now) bindings.now run g result slots.old slots.new }
{
    let mut known = [0u16; N];
    walk_with(given, bindings, run, g, slots, &mut known)
}

// How many records of a pattern are variables.
fn variables(pattern: &[u32]) -> usize
    ensures { result ≤ length pattern.now }
{
    (0..pattern.len() / items::ITEM_WIDTH)
        .filter(|&i| pattern::is_variable(words::get::<Item>(pattern, i).kind))
        .count()
}

// The walk with as much kept as it may need: in larger stores nothing where no variable is met twice, since then nothing is compared.
pub fn walk_from(given: &Given, bindings: &[u32], run: Run, g: Goal, slots: &mut [u32]) -> Tally
    requires { CanStart (spec_given given.now) bindings.now run g slots.old }
    ensures { Started (spec_given given.now) bindings.now run g result slots.old slots.new }
{
    if given.store.used < SMALL {
        return walk_keeping::<SMALL>(given, bindings, run, g, slots);
    }
    let bound = bindings.len() / items::BINDING_WIDTH;
    if bound + variables(given.pattern) == g.entries {
        return walk_keeping::<NONE>(given, bindings, run, g, slots);
    }
    if given.store.used < MIDDLE {
        return walk_keeping::<MIDDLE>(given, bindings, run, g, slots);
    }
    walk_keeping::<{ equality::MEMORY }>(given, bindings, run, g, slots)
}
