// A chain of Cons nodes from a list of runs. From value.rs (`from_runs`). Nothing here recurses: both loops go from the last run to the
// first, and hold the fused run that comes next.
#![tactic(auto)]

ghost use Rattle.std.specs.Prelude.{◌≡◌, ◌≤◌, ◌&&◌, leb, length, drop};
ghost use Rattle.term_spec.specs.Words.{AtMost, count, whole, records, write};
ghost use Rattle.term_spec.specs.Term.{run_layout, run_list_limit};
ghost use Rattle.view_spec.specs.Node.{node_layout};
ghost use Rattle.view_spec.specs.Build.{chain, chain_head, total};
ghost use Rattle.words.specs.Records.{as_run};
ghost use Rattle.nodes.specs.NodeStore.{nodes_in};
ghost use Rattle.from_runs.specs.FromRuns.{Stepped, head_at, closed, closed_at, Closes, Inside, fused_in, Chains};

use words::Run;

// What a run does before the runs after it: nothing, since it is empty; it is fused with the next, which is this one; it stands by itself.
#[derive(Clone, Copy)]
pub enum Step {
    Skip,
    Fuse(Run),
    Part,
}

// 1 Uneven, of a list of runs: whole, and at most 64 of them.
#[tactic(auto, unfolding(term_spec::specs::Words::whole, term_spec::specs::Words::count))]
pub fn runs_even(runs: &[u32]) -> bool
    ensures { let words = runs.now in
        result ≡ whole run_layout words && leb (count run_layout words) run_list_limit }
{
    runs.len() % words::RUN_WIDTH == 0 && runs.len() / words::RUN_WIDTH <= words::RUN_LIST_LIMIT
}

// The terms of the runs together.
pub fn runs_total(runs: &[u32]) -> usize
    requires inside { Inside runs.now }
    requires few { AtMost run_layout runs.now run_list_limit }
    ensures { result ≡ total (records run_layout runs.now) }
{
    let n = runs.len() / words::RUN_WIDTH;
    (0..n).map(|i| words::get::<Run>(runs, i).len).sum()
}

// What the run r does before the next one, if there is one, of which only the start is read.
fn step_of(r: Run, next: Option<Run>) -> Step
    ensures { Stepped (as_run r) next result }
{
    if r.len == 0 {
        return Step::Skip;
    }
    let Some(next) = next else {
        return Step::Part;
    };
    if r.start <= next.start && next.start - r.start == r.len {
        return Step::Fuse(next);
    }
    Step::Part
}

// How many nodes from_runs_build makes: the runs left when empty ones are skipped and neighbours fused. One walk with a closure for both would
// be no plainer: this one holds a start, and the other a fused run and the nodes that it writes.
pub fn from_runs_makes(runs: &[u32]) -> usize
    ensures { result ≡ length (fused_in runs.now) }
{
    let n = runs.len() / words::RUN_WIDTH;
    let mut made: usize = 0;
    let mut next = None;
    for i in (0..n).rev() {
        let r = words::get::<Run>(runs, i);
        match step_of(r, next) {
            Step::Skip => {}
            Step::Fuse(_) => next = Some(r),
            Step::Part => {
                next = Some(r);
                made += 1;
            }
        }
    }
    made
}

// The node that the next Cons goes before: the last made from `used` on, and node 0, which is Nil, if none is made.
fn tail(used: usize, at: usize) -> usize
    requires { used ≤ at }
    ensures { result ≡ head_at used at }
{
    if at == used { 0 } else { at - 1 }
}

// The Cons of the run that is held, if there is one, at `at`; hands back the used count after it.
fn close(nodes: &mut [u32], used: usize, at: usize, held: Option<Run>) -> usize
    requires { Closes nodes.old used at held }
    ensures { (result ≡ closed_at at held) × (nodes.new ≡ closed nodes.old used at held) }
{
    match held {
        None => at,
        Some(r) => {
            nodes::make_cons(nodes, at, r.start, r.len, tail(used, at));
            at + 1
        }
    }
}

// One Cons for each run left, made from the last run to the first; hands back the first Cons, 0 if there is none.
pub fn from_runs_build(nodes: &mut [u32], used: usize, runs: &[u32]) -> usize
    requires { Chains nodes.old used runs.now }
    ensures { let before = nodes.old in
        let fused = fused_in runs.now in
        let after = chain fused (nodes_in before used) in
        (result ≡ chain_head fused after) × (nodes.new ≡ write node_layout before used (drop used after)) }
{
    let n = runs.len() / words::RUN_WIDTH;
    let mut at = used;
    let mut held = None;
    for i in (0..n).rev() {
        let r = words::get::<Run>(runs, i);
        match step_of(r, held) {
            Step::Skip => {}
            Step::Fuse(next) => {
                held = Some(Run {
                    start: r.start,
                    len: r.len + next.len,
                });
            }
            Step::Part => {
                at = close(nodes, used, at, held);
                held = Some(r);
            }
        }
    }
    at = close(nodes, used, at, held);
    tail(used, at)
}
