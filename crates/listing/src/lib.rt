// Listing and first match as calls: the checks, the settled field, the walk, the answer. From matcher.rs
// (`match_pattern_with_bindings_candidates`, `match_pattern_first`); refusals but 10 and 11 are the port's.
#![tactic(auto)]

mod walks;

ghost use Rattle.std.specs.Prelude.{◌≡◌, List, ◌≤◌, length};
ghost use Rattle.term_spec.specs.Term.{Run as SpecRun, limit};
ghost use Rattle.match_spec.specs.Pattern.{name_limit};
ghost use Rattle.match_spec.specs.Answer.{allOfThem, headOnly, spec_slots_in, number_of};
ghost use Rattle.calls_spec.specs.Step.{call_match, step, match_answer, spec_name_count};
ghost use Rattle.view.specs.Check.{as_field, store_of, numbered};
ghost use Rattle.words.specs.Refusals.{told_number};
ghost use Rattle.value.specs.Equal.{TermStore};
ghost use Rattle.steps.specs.State.{PatternReady};
ghost use Rattle.matcher.specs.Given.{spec_given};
ghost use Rattle.matcher.specs.Ready.{given_of, status_of, wanted_of};
ghost use Rattle.listing.specs.Match.{matched_of, leaves_slots, request_of, even_words, refused_to8};

use items::Binding;
use matcher::{Goal, Status, Tally};
use steps::given::Given;
use value::store::Store;
use view::Field;
use words::refusal::Refusal;

// What a listing brings, with its count and the number of names: all candidates; or those that fill the slots, where a further one exists.
#[derive(Clone, Copy)]
pub enum Matched {
    Listed { count: usize, entries: usize },
    More { count: usize, entries: usize },
}

// 1 Uneven, of pattern and bindings: whole, and at most 256 pattern records.
#[tactic(auto, using(std::proofs::lemmas::Bool::Decides::nat_tests), unfolding(term_spec::specs::Words::whole, term_spec::specs::Words::count))]
fn request_even(pattern: &[u32], bindings: &[u32]) -> bool
    ensures { result ≡ even_words pattern.now bindings.now }
{
    pattern.len() % items::ITEM_WIDTH == 0
        && pattern.len() / items::ITEM_WIDTH <= items::PATTERN_LIMIT
        && bindings.len() % items::BINDING_WIDTH == 0
}

// The first of 1 to 8 that applies.
fn check_request(
    names: &[u8],
    terms: &[u32],
    terms_used: usize,
    nodes: &[u32],
    nodes_used: usize,
    f: Field,
    pattern: &[u32],
    bindings: &[u32],
) -> Result<(), Refusal>
    ensures { let before = store_of names.now terms.now terms_used nodes.now nodes_used in
        told_number result ≡ numbered (refused_to8 before (as_field f) pattern.now bindings.now) }
{
    view::check(
        names,
        terms,
        terms_used,
        nodes,
        nodes_used,
        request_even(pattern, bindings),
        f,
        Field::EMPTY,
    )?;
    if !words::runs::runs_inside::<Binding>(bindings, terms_used) {
        return Err(Refusal::PastEnd);
    }
    if !pattern::pattern_ok(names, pattern) {
        return Err(Refusal::BadPattern);
    }
    if !pattern::bindings_ok(names, bindings) {
        return Err(Refusal::BadBinding);
    }
    Ok(())
}

// How many names pattern and bindings have together, by which a caller sizes slots: a slot has twice as many words. 0 where 1, 7, 8 or 9
// refuses them.
pub fn name_count(names: &[u8], pattern: &[u32], bindings: &[u32]) -> usize
    ensures { result ≡ spec_name_count names.now pattern.now bindings.now }
{
    if !request_even(pattern, bindings) {
        return 0;
    }
    if !pattern::pattern_ok(names, pattern) {
        return 0;
    }
    if !pattern::bindings_ok(names, bindings) {
        return 0;
    }
    let given = bindings.len() / items::BINDING_WIDTH;
    if items::NAME_LIMIT < given {
        return 0;
    }
    let mut numbers = [0u32; items::PATTERN_LIMIT];
    pattern::number_names(names, pattern, bindings, &mut numbers).unwrap_or(0)
}

// The slots that fit whole; with no names there is one, of no words.
#[tactic(auto, using(crate::specs::AnswerLaws::slots_one, crate::specs::AnswerLaws::slots_more))]
fn slots_in(words: usize, names: usize) -> usize
    requires { names ≤ name_limit }
    ensures { result ≡ spec_slots_in words names }
{
    if names == 0 {
        return 1;
    }
    words / (2 * names)
}

// The answer of a walk that has ended.
fn answer(t: Tally, names: usize) -> Result<Matched, Refusal>
    ensures { let status = status_of t.stop in
        ((w : List (List SpecRun)) → length w ≡ t.count → matched_of result ≡ match_answer (number_of status w) t.count names) }
{
    let (count, entries) = (t.count, names);
    match t.stop {
        Status::Full => Ok(Matched::More { count, entries }),
        Status::Called => Err(Refusal::CallsAreNotPatterns),
        Status::Going if t.count == 0 => Err(Refusal::NoMatch),
        Status::Going => Ok(Matched::Listed { count, entries }),
        Status::Done => Ok(Matched::Listed { count, entries }),
    }
}

// What the walk reads, gathered.
fn gather<'a>(
    names: &'a [u8],
    terms: &'a [u32],
    used: usize,
    pattern: &'a [u32],
    numbers: &'a [u32],
) -> Given<'a>
    requires store { TermStore names.now terms.now used × (used ≤ limit) }
    requires pattern { PatternReady names.now pattern.now numbers.now }
    ensures { spec_given result ≡ given_of names.now terms.now used pattern.now numbers.now }
{
    let store = Store { names, terms, used };
    Given {
        store,
        pattern,
        numbers,
    }
}

// The candidates of a pattern over a field, or the head of their list.
fn list(
    names: &[u8],
    terms: &mut [u32],
    terms_used: &mut usize,
    nodes: &[u32],
    nodes_used: usize,
    f: Field,
    pattern: &[u32],
    bindings: &[u32],
    slots: &mut [u32],
    head: bool,
) -> Result<Matched, Refusal>
    ensures { let before = store_of names.now terms.old terms_used.old nodes.now nodes_used in
        let after = store_of names.now terms.new terms_used.new nodes.now nodes_used in
        let request = request_of (as_field f) pattern.now bindings.now slots.old in
        leaves_slots (matched_of result) after slots.new ≡ step before (call_match (wanted_of head) request) }
{
    check_request(
        names,
        terms,
        *terms_used,
        nodes,
        nodes_used,
        f,
        pattern,
        bindings,
    )?;
    if items::NAME_LIMIT < bindings.len() / items::BINDING_WIDTH {
        return Err(Refusal::TooManyNames);
    }
    let mut numbers = [0u32; items::PATTERN_LIMIT];
    let Some(entries) = pattern::number_names(names, pattern, bindings, &mut numbers) else {
        return Err(Refusal::TooManyNames);
    };
    let run = view_read::settle(terms, terms_used, nodes, f)?;
    let cap = slots_in(slots.len(), entries);
    let g = Goal { entries, cap, head };
    let given = gather(names, terms, *terms_used, pattern, &numbers);
    let tally = walks::walk_from(&given, bindings, run, g, slots);
    answer(tally, entries)
}

// Lists the candidates of a pattern over a field, from starting bindings, into slots.
#[tactic(auto, unfolding(matcher::specs::Ready::wanted_of))]
pub fn match_pattern_with_bindings_candidates(
    names: &[u8],
    terms: &mut [u32],
    terms_used: &mut usize,
    nodes: &[u32],
    nodes_used: usize,
    f: Field,
    pattern: &[u32],
    bindings: &[u32],
    slots: &mut [u32],
) -> Result<Matched, Refusal>
    ensures { let before = store_of names.now terms.old terms_used.old nodes.now nodes_used in
        let after = store_of names.now terms.new terms_used.new nodes.now nodes_used in
        let request = request_of (as_field f) pattern.now bindings.now slots.old in
        leaves_slots (matched_of result) after slots.new ≡ step before (call_match allOfThem request) }
{
    let head = false;
    list(
        names, terms, terms_used, nodes, nodes_used, f, pattern, bindings, slots, head,
    )
}

// The first candidate alone: the head of that list.
#[tactic(auto, unfolding(matcher::specs::Ready::wanted_of))]
pub fn match_pattern_first(
    names: &[u8],
    terms: &mut [u32],
    terms_used: &mut usize,
    nodes: &[u32],
    nodes_used: usize,
    f: Field,
    pattern: &[u32],
    bindings: &[u32],
    slots: &mut [u32],
) -> Result<Matched, Refusal>
    ensures { let before = store_of names.now terms.old terms_used.old nodes.now nodes_used in
        let after = store_of names.now terms.new terms_used.new nodes.now nodes_used in
        let request = request_of (as_field f) pattern.now bindings.now slots.old in
        leaves_slots (matched_of result) after slots.new ≡ step before (call_match headOnly request) }
{
    let head = true;
    list(
        names, terms, terms_used, nodes, nodes_used, f, pattern, bindings, slots, head,
    )
}
