// The whole job of the program `sheet` as one function, text in, text out (01, "The sheet"): reads the sheet, makes its field, lists, and
// writes the lines of the answer.
#![tactic(auto)]

ghost use Rattle.std.specs.Prelude.{◌≡◌, [], ◌∷◌, ◌++◌, length, ◌+◌, ◌*◌, ◌≤◌};
ghost use Rattle.match_spec.specs.Answer.{allOfThem};
ghost use Rattle.calls_spec.specs.Step.{call_from_runs, call_match, step, spec_name_count};
ghost use Rattle.sheet_spec.specs.Sheet.{line};
ghost use Rattle.sheet_spec.specs.Job.{listing_slots, laid_at, written, refusal_text, entry_lines, listing_text, Fits, answer_text};
ghost use Rattle.sheet_form.specs.Form.{line_bytes, zeros};
ghost use Rattle.sheet_write.specs.Write.{written_of};
ghost use Rattle.view.specs.Check.{as_field, store_of};
ghost use Rattle.listing.specs.Match.{brought, matched_of, request_of};
ghost use Rattle.sheet_job.specs.Parts.{node_words, name_words, blank_slots, Candidates, listed_text, built_text};

use listing::Matched;
use view::Field;
use words::refusal::Refusal;

// "It lends 65 nodes, 1,024 terms and 16 slots"
const NODES: usize = 65;

const TERMS: usize = 1024;

const SLOTS: usize = 16;

// Their words, and those of a pattern and of runs up to the sheet's limits. A slot has a run for each name of the pattern.
const NODE_WORDS: usize = NODES * words::NODE_WIDTH;

const TERM_WORDS: usize = TERMS * words::TERM_WIDTH;

const NAME_WORDS: usize = SLOTS * words::RUN_WIDTH;

const SLOT_WORDS: usize = NAME_WORDS * items::NAME_LIMIT;

const PATTERN_WORDS: usize = sheet_form::MOST_ITEMS * items::ITEM_WIDTH;

const RUN_WORDS: usize = sheet_form::MOST_RUNS * words::RUN_WIDTH;

// The bytes of the longest sheet, whose name bytes a newline ends, and of the longest answer.
pub const LONGEST_SHEET: usize = sheet_form::LINE
    + sheet_form::TERM_LINE * sheet_form::MOST_TERMS
    + sheet_form::MOST_NAMES
    + 1
    + sheet_form::ITEM_LINE * sheet_form::MOST_ITEMS
    + sheet_form::RUN_LINE * sheet_form::MOST_RUNS;

pub const LONGEST_ANSWER: usize = sheet_form::LINE + sheet_form::LINE * SLOTS * items::NAME_LIMIT;

// ---- the lines of an answer ----

// A refusal's line.
fn print_refusal(number: usize, out: &mut [u8]) -> Result<usize, Refusal>
    ensures { (written_of result, out.new) ≡ written (refusal_text number) out.old }
{
    if out.len() < sheet_form::LINE {
        return Err(Refusal::WorkShort);
    }
    sheet_write::write_line(out, 0, number, 0, 0, 0);
    Ok(sheet_form::LINE)
}

// The lines of n entries, k to a candidate, after the first line.
fn write_entries(slots: &[u32], k: usize, n: usize, out: &mut [u8])
    requires { (n ≤ listing_slots * k) × (2 * n ≤ length slots.now) × (line_bytes + line_bytes * n ≤ length out.old) }
    ensures { out.new ≡ laid_at out.old line_bytes (entry_lines k slots.now 0 n) }
{
    for i in 0..n {
        let start = words::word(slots, words::RUN_WIDTH * i);
        let len = words::word(slots, words::RUN_WIDTH * i + 1);
        let at = sheet_form::LINE + sheet_form::LINE * i;
        sheet_write::write_line(out, at, i / k + 1, i % k + 1, start, len);
    }
}

// The line of a listing, then its c candidates of k entries.
#[tactic(auto, using(crate::specs::JobLaws::entries_few))]
fn print_candidates(
    number: usize,
    c: usize,
    k: usize,
    slots: &[u32],
    out: &mut [u8],
) -> Result<usize, Refusal>
    requires { Candidates c k (length slots.now) }
    ensures { let text = line (number ∷ c ∷ k ∷ 0 ∷ []) ++ entry_lines k slots.now 0 (c * k) in
        (written_of result, out.new) ≡ written text out.old }
{
    let n = c * k;
    let all = sheet_form::LINE + sheet_form::LINE * n;
    if out.len() < all {
        return Err(Refusal::WorkShort);
    }
    sheet_write::write_line(out, 0, number, c, k, 0);
    write_entries(slots, k, n, out);
    Ok(all)
}

// What a listing brings.
fn print_brought(m: Matched, slots: &[u32], out: &mut [u8]) -> Result<usize, Refusal>
    requires { Fits (brought m) (length slots.now) }
    ensures { let text = listing_text (brought m) slots.now in
        (written_of result, out.new) ≡ written text out.old }
{
    match m {
        Matched::Listed { count, entries } => print_candidates(0, count, entries, slots, out),
        Matched::More { count, entries } => {
            print_candidates(Refusal::MoreThanFit.number(), count, entries, slots, out)
        }
    }
}

// What a listing prints.
fn print_listing(
    m: Result<Matched, Refusal>,
    slots: &[u32],
    out: &mut [u8],
) -> Result<usize, Refusal>
    requires { Fits (matched_of m) (length slots.now) }
    ensures { let text = listing_text (matched_of m) slots.now in
        (written_of result, out.new) ≡ written text out.old }
{
    match m {
        Ok(b) => print_brought(b, slots, out),
        Err(r) => print_refusal(r.number(), out),
    }
}

// ---- the calls ----

// Lists into the slots and prints that.
fn list_into(
    names: &[u8],
    terms: &mut [u32],
    terms_used: usize,
    nodes: &[u32],
    nodes_used: usize,
    f: Field,
    pattern: &[u32],
    slots: &mut [u32],
    out: &mut [u8],
) -> Result<usize, Refusal>
    requires { length slots.old ≡ name_words * spec_name_count names.now pattern.now [] }
    ensures { let store = store_of names.now terms.old terms_used nodes.now nodes_used in
        let request = request_of (as_field f) pattern.now [] slots.old in
        let text = listed_text (step store (call_match allOfThem request)) in
        (written_of result, out.new) ≡ written text out.old }
{
    let mut used = terms_used;
    let m = listing::match_pattern_with_bindings_candidates(
        names,
        terms,
        &mut used,
        nodes,
        nodes_used,
        f,
        pattern,
        &pattern[0..0],
        slots,
    );
    print_listing(m, slots, out)
}

// "16 slots", of as many entries as the pattern has names.
#[tactic(auto, using(crate::specs::JobLaws::slot_rules))]
fn list_field(
    names: &[u8],
    terms: &mut [u32],
    terms_used: usize,
    nodes: &[u32],
    nodes_used: usize,
    f: Field,
    pattern: &[u32],
    out: &mut [u8],
) -> Result<usize, Refusal>
    ensures { let store = store_of names.now terms.old terms_used nodes.now nodes_used in
        let blank = blank_slots names.now pattern.now in
        let text = listed_text (step store (call_match allOfThem (request_of (as_field f) pattern.now [] blank))) in
        (written_of result, out.new) ≡ written text out.old }
{
    let entries = listing::name_count(names, pattern, &pattern[0..0]);
    let mut slots = [0u32; SLOT_WORDS];
    list_into(
        names,
        terms,
        terms_used,
        nodes,
        nodes_used,
        f,
        pattern,
        &mut slots[..NAME_WORDS * entries],
        out,
    )
}

// "65 nodes": the field of the runs, then the listing on it.
fn list_runs(
    names: &[u8],
    terms: &mut [u32],
    terms_used: usize,
    runs: &[u32],
    pattern: &[u32],
    out: &mut [u8],
) -> Result<usize, Refusal>
    ensures { let store = store_of names.now terms.old terms_used (zeros node_words) 1 in
        let made = step store (call_from_runs runs.now) in
        let text = built_text names.now pattern.now made in
        (written_of result, out.new) ≡ written text out.old }
{
    let mut nodes = [0u32; NODE_WORDS];
    let mut made = 1;
    match view::from_runs(names, terms, terms_used, &mut nodes, &mut made, runs) {
        Err(r) => print_refusal(r.number(), out),
        Ok(f) => list_field(names, terms, terms_used, &nodes, made, f, pattern, out),
    }
}

// What the program `sheet` prints for a text, into the first bytes of `out`. 14 if `out` is short; 42,025 bytes are always enough.
pub fn run_sheet(text: &[u8], out: &mut [u8]) -> Result<usize, Refusal>
    ensures { (written_of result, out.new) ≡ written (answer_text text.now) out.old }
{
    let mut terms = [0u32; TERM_WORDS];
    let mut pattern = [0u32; PATTERN_WORDS];
    let mut runs = [0u32; RUN_WORDS];
    match sheet_read::read_sheet(text, &mut terms, &mut pattern, &mut runs) {
        Err(r) => print_refusal(r.number(), out),
        Ok(c) => {
            let names = sheet_read::names_part(text, c);
            list_runs(
                names,
                &mut terms,
                c.terms,
                &runs[..sheet_form::RUN_COLUMNS * c.runs],
                &pattern[..sheet_form::ITEM_COLUMNS * c.pattern],
                out,
            )
        }
    }
}
