// Answers as document 01's numbers, with their values in out parameters. An out parameter is written where the answer has a value for it, and
// left alone by a refusal.
#![tactic(auto)]

ghost use Rattle.std.specs.Prelude.{◌≡◌, ℕ};
ghost use Rattle.sheet_spec.specs.Sheet.{counts_at, spec_read_sheet};
ghost use Rattle.sheet_spec.specs.Job.{read_into};
ghost use Rattle.words.specs.Refusals.{spec_number};
ghost use Rattle.view_read.specs.Read.{flat_by};
ghost use Rattle.outputs.specs.Outputs.{answer_by, verdict_by, matched_by, compared_by};
ghost use Rattle.outputs.specs.Outputs.{field_out, truth_out, flat_out, list_out, compared_out};
ghost use Rattle.outputs.specs.SheetOutputs.{written_by, written_out, read_outs, after_read};

use listing::Matched;
use view::Field;
use view_read::Flat;
use words::refusal::Refusal;

// What a refusal is told by: its number.
pub trait HasNumber: Copy {
    ghost number_of: { Self → ℕ };

    fn number(self) -> usize
        ensures { result ≡ number_of self };
}

impl HasNumber for Refusal {
    ghost number_of = { spec_number };

    fn number(self) -> usize {
        Refusal::number(self)
    }
}

// A caller's own number is told as it is.
impl HasNumber for usize {
    ghost number_of = { λ n. n };

    fn number(self) -> usize {
        self
    }
}

// ---- calls on fields ----

// Of a call that hands back a field.
pub fn put_field<R: HasNumber>(a: Result<Field, R>, node: &mut usize, len: &mut usize) -> usize
    ensures { let told = field_out (answer_by R.number_of a) node.old len.old in
        (result, node.new, len.new) ≡ told }
{
    match a {
        Ok(f) => {
            *node = f.node;
            *len = f.len;
            0
        }
        Err(r) => r.number(),
    }
}

// Of a call that compares fields or runs.
pub fn put_truth<R: HasNumber>(v: Result<bool, R>, yes: &mut usize) -> usize
    ensures fields { (result, yes.new) ≡ truth_out (verdict_by R.number_of v) yes.old }
    ensures runs { (result, yes.new) ≡ compared_out (compared_by R.number_of v) yes.old }
{
    match v {
        Ok(b) => {
            *yes = usize::from(b);
            0
        }
        Err(refused) => refused.number(),
    }
}

// Of flatten.
pub fn put_flat<R: HasNumber>(
    f: Result<Flat, R>,
    in_work: &mut usize,
    start: &mut usize,
    count: &mut usize,
) -> usize
    ensures { let told = flat_out (flat_by R.number_of f) in_work.old start.old count.old in
        (result, in_work.new, start.new, count.new) ≡ told }
{
    match f {
        Ok(Flat::InStore(r)) => {
            *in_work = 0;
            *start = r.start;
            *count = r.len;
            0
        }
        Ok(Flat::InWork(n)) => {
            *in_work = 1;
            *start = 0;
            *count = n;
            0
        }
        Err(r) => r.number(),
    }
}

// Of a listing.
pub fn put_list<R: HasNumber>(
    m: Result<Matched, R>,
    count: &mut usize,
    entries: &mut usize,
) -> usize
    ensures { let told = list_out (matched_by R.number_of m) count.old entries.old in
        (result, count.new, entries.new) ≡ told }
{
    match m {
        Ok(
            Matched::Listed {
                count: c,
                entries: k,
            },
        ) => {
            *count = c;
            *entries = k;
            0
        }
        Ok(
            Matched::More {
                count: c,
                entries: k,
            },
        ) => {
            *count = c;
            *entries = k;
            Refusal::MoreThanFit.number()
        }
        Err(r) => r.number(),
    }
}

// ---- sheets ----

// Of a call that writes a text.
#[tactic(auto, unfolding(crate::specs::Numbers::told_by, crate::specs::SheetOutputs::written_out))]
pub fn put_written<R: HasNumber>(w: Result<usize, R>, written: &mut usize) -> usize
    ensures { (result, written.new) ≡ written_out (written_by R.number_of w) written.old }
{
    match w {
        Ok(n) => {
            *written = n;
            0
        }
        Err(r) => r.number(),
    }
}

// Reads a sheet. The names stay in the text.
pub fn read_sheet(
    text: &[u8],
    terms: &mut [u32],
    pattern: &mut [u32],
    runs: &mut [u32],
    term_count: &mut usize,
    name_start: &mut usize,
    name_count: &mut usize,
    pattern_count: &mut usize,
    run_count: &mut usize,
) -> usize
    ensures { let before = read_outs term_count.old name_start.old name_count.old pattern_count.old run_count.old in
        let after = read_outs term_count.new name_start.new name_count.new pattern_count.new run_count.new in
        let read = read_into (spec_read_sheet text.now) (counts_at text.now) terms.old pattern.old runs.old in
        ((result, after), terms.new, pattern.new, runs.new) ≡ after_read read before }
{
    match sheet_read::read_sheet(text, terms, pattern, runs) {
        Ok(c) => {
            *term_count = c.terms;
            *name_start = c.names_start();
            *name_count = c.names;
            *pattern_count = c.pattern;
            *run_count = c.runs;
            0
        }
        Err(r) => r.number(),
    }
}
