// The depth-first walk over a pattern, with its candidates written into slots. From matcher.rs (`match_all_from`, `match_first_from`): the lists
// of candidates of the Rust become slots that are filled in the same order.
#![tactic(auto)]

ghost use Rattle.std.specs.Prelude.{◌≡◌, [], ◌∷◌, ◌≤◌};
ghost use Rattle.match_spec.specs.Pattern.{name_limit};
ghost use Rattle.match_spec.specs.Walk.{hit};
ghost use Rattle.equality.specs.Stores.{Remembers};
ghost use Rattle.matcher.specs.Given.{spec_given};
ghost use Rattle.steps.specs.State.{spec_place_of, entries_in, EntryRoom};
ghost use Rattle.matcher.specs.Ready.{events_from, Ready, CanTurn, TurnTaken, SlotsReady, Written, Walked};

use items::Item;
use steps::given::Given;
use steps::{State, Turned};
use words::Run;

// Why a listing stopped, with the specification's names (match_spec, Answer: `Status`): it has not and more is taken in, it has the head that was
// wanted, a candidate came after the slots were filled, a Call or Block was reached.
#[derive(Clone, Copy, Debug, PartialEq, Eq)]
pub enum Status {
    Going,
    Done,
    Full,
    Called,
}

// What a listing is to bring: how many entries a candidate has, how many slots there are, and whether the head alone is wanted. A limit on
// tries (02: 2.5) is to be two fields more.
#[derive(Clone, Copy)]
pub struct Goal {
    pub entries: usize,
    pub cap: usize,
    pub head: bool,
}

// How far a listing is: why it stopped, and the candidates written.
#[derive(Clone, Copy)]
pub struct Tally {
    pub stop: Status,
    pub count: usize,
}

// A candidate, the words of its entries in `binds`, goes into the next slot if there is one.
fn emit(binds: &[u32], g: Goal, slots: &mut [u32], f: Tally) -> Tally
    requires room { (g.entries ≤ name_limit) × EntryRoom binds.now }
    requires open_slots { SlotsReady g f slots.old }
    ensures { let candidate = entries_in g.entries binds.now in
        Written g (hit candidate ∷ []) f result slots.old slots.new }
{
    let count = f.count;
    if g.cap <= count {
        return Tally {
            stop: Status::Full,
            count,
        };
    }
    let width = g.entries * words::RUN_WIDTH;
    let base = count * width;
    // A loop, and not copy_from_slice: the archive for C is to need nothing but memset from outside.
    for i in 0..width {
        slots[base + i] = binds[i];
    }
    let stop = if g.head { Status::Done } else { Status::Going };
    Tally {
        stop,
        count: count + 1,
    }
}

// The turn of record p. A known e-variable that ends its level with another number of terms stops without a turn.
fn take_turn(
    given: &Given,
    p: usize,
    s: State,
    levels: &mut [u32],
    binds: &mut [u32],
    known: &mut [u16],
) -> Turned
    requires { CanTurn (spec_given given.now) p (spec_place_of s levels.old binds.old) × Remembers given.now.store known.old }
    ensures { let here = spec_place_of s levels.old binds.old in
        TurnTaken (spec_given given.now) p here result levels.new binds.new × Remembers given.now.store known.new }
{
    let t = words::get::<Item>(given.pattern, p);
    let x = words::word(given.numbers, p);
    let last = steps::ends_at(given.pattern, p + 1);
    if steps::ends_apart(t.kind, x, last, s, binds) {
        return Turned::Stop;
    }
    steps::turn(&given.store, t, x, last, s, levels, binds, known)
}

// The walk from record p on, with a tally that goes on. It calls itself at the next pattern record, and the split loop is inside. The words of
// the levels are as they were when it returns, and those of the known entries are. Both are lent as arrays: that is one word less for each to hand on.
pub fn walk(
    given: &Given,
    p: usize,
    s: State,
    levels: &mut [u32; steps::LEVEL_WORDS],
    binds: &mut [u32; steps::ENTRY_WORDS],
    known: &mut [u16],
    g: Goal,
    slots: &mut [u32],
    f: Tally,
) -> Tally
    requires ready { Ready (spec_given given.now) p g.entries (spec_place_of s levels.old binds.old) × Remembers given.now.store known.old }
    requires open_slots { SlotsReady g f slots.old }
    ensures { let here = spec_place_of s levels.old binds.old in
        let walked = Walked g (events_from (spec_given given.now) p here) f result slots.old slots.new here in
        walked levels.new binds.new × Remembers given.now.store known.new }
{
    if given.pattern.len() / items::ITEM_WIDTH <= p {
        if s.len != 0 {
            return f;
        }
        return emit(binds, g, slots, f);
    }
    let around = words::get::<Run>(levels, s.depth);
    match take_turn(given, p, s, levels, binds, known) {
        Turned::Stop => f,
        Turned::Call => Tally {
            stop: Status::Called,
            count: f.count,
        },
        Turned::Next(at) => {
            let got = walk(given, p + 1, at, levels, binds, known, g, slots, f);
            words::put(levels, s.depth, around);
            got
        }
        Turned::Split(at) => {
            let mut got = f;
            let mut next = rigid::next_split(given, p + 1, at, binds, 0, known);
            while let Some(k) = next {
                let after = steps::give(at, k, binds);
                got = walk(given, p + 1, after, levels, binds, known, g, slots, got);
                if got.stop != Status::Going {
                    return got;
                }
                next = rigid::next_split(given, p + 1, at, binds, k + 1, known);
            }
            got
        }
    }
}
