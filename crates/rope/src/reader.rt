// The first terms of a node, read run by run.
ghost use Rattle.std.specs.Prelude.{◌≡◌, [], ◌+◌, ◌-◌, ◌*◌, ◌≤◌, IfSome};
ghost use Rattle.term_spec.specs.Term.{limit};
ghost use Rattle.words.specs.Records.{as_run};
ghost use Rattle.places.specs.Rest.{rest, passed};
ghost use Rattle.places.specs.Ahead.{rest_of};
ghost use Rattle.rope.specs.Pieces.{steps, steps_alone, ReadyIn, RunIn};

use places::pieces::{Ahead, Field, Piece};
use words::kind::NodeKind;
use words::{Node, Run};

// Words of the stack: two to a field.
const STACK_WORDS: usize = 64;

// The steps that reading may take for each term and for each call, before it goes on part by part (crate places).
const STEPS: usize = 8;

pub const STEPS_ALONE: usize = 4096;

// The first `done` terms of a field are read, and `ahead` is to be read next. `fuel` is how many steps down to a run may still be made: a store can
// be made so that each run takes a long way.
#[derive(Drop)]
pub struct Reader {
    whole: Field,
    pub done: usize,
    ahead: Ahead<STACK_WORDS>,
    fuel: usize,
}

impl Reader {
    // Nothing is read yet.
    pub fn new(whole: Field) -> Self
        requires { whole.len ≤ limit }
        ensures { (result.whole ≡ whole) × (result.done ≡ 0) × (result.fuel ≡ whole.len * steps + steps_alone)
            × (rest_of result.ahead ≡ rest whole.node 0 whole.len []) }
    {
        Reader {
            whole,
            done: 0,
            ahead: Ahead::new(Piece {
                node: whole.node,
                skip: 0,
                left: whole.len,
            }),
            fuel: whole.len * STEPS + STEPS_ALONE,
        }
    }

    // The run that comes next, which the piece then begins with; none once the fuel is spent. Where the stack is full it is emptied, and the terms of
    // its fields are left out.
    pub fn to_run(&mut self, nodes: &[u32]) -> Option<Run>
        requires { ReadyIn nodes.now (rest_of self.old.ahead) }
        ensures kept { (self.new.whole ≡ self.old.whole) × (self.new.done ≡ self.old.done) }
        ensures run { IfSome result (λ r. RunIn nodes.now (rest_of self.old.ahead) (rest_of self.new.ahead) (as_run r)) }
    {
        // The piece and the fuel stand by themselves here, so that they need not be written beside the stack at each step.
        let mut at = self.ahead.at;
        for fuel in (0..self.fuel).rev() {
            let n = words::get::<Node>(nodes, at.node);
            if n.b <= at.skip {
                at.skip -= n.b;
                at.node = n.c;
                continue;
            }
            let here = n.b - at.skip;
            if n.is(NodeKind::Cons) {
                self.ahead.at = at;
                self.fuel = fuel;
                return Some(Run {
                    start: n.a + at.skip,
                    len: at.left.min(here),
                });
            }
            // Not by `Ahead::enter`, since the stack can be full where the piece goes on in the right.
            if at.left <= here {
                at.node = n.a;
                continue;
            }
            if self.ahead.later.is_full() {
                self.ahead.later.clear();
                continue;
            }
            self.ahead.later.push(Field {
                node: n.c,
                len: at.left - here,
            });
            at.node = n.a;
            at.left = here;
        }
        self.fuel = 0;
        None
    }

    // k terms are read. Where nothing waits after them, reading goes on from the node itself.
    pub fn pass(&mut self, k: usize)
        requires { (self.old.ahead.at.skip + self.old.ahead.at.left ≤ limit)
            × (self.old.done + k ≤ self.old.whole.len) × (self.old.whole.len ≤ limit) }
        ensures kept { (self.new.whole ≡ self.old.whole) × (self.new.done ≡ self.old.done + k) }
        ensures passed { let done = self.old.done + k in
            let whole = self.old.whole in
            rest_of self.new.ahead ≡ passed (rest_of self.old.ahead) k (rest whole.node done (whole.len - done) []) }
    {
        self.done += k;
        self.ahead.pass(
            k,
            Piece {
                node: self.whole.node,
                skip: self.done,
                left: self.whole.len - self.done,
            },
        );
    }
}
