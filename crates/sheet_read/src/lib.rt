// Reading a sheet from its text (01, "The sheet"): numbers in columns, lines, the whole. 16 for anything else.
#![tactic(auto)]

ghost use Rattle.std.specs.Prelude.{◌≡◌, ◌&&◌, T, length, MatchOption, ◌+◌, ◌*◌, ◌<◌, ◌≤◌};
ghost use Rattle.sheet_spec.specs.Sheet.{byte, column_width, beyond, number_at, numbers_ok, spec_line_ok, line_width, spec_lines_ok, numbers_at, words_at};
ghost use Rattle.sheet_spec.specs.Sheet.{terms_start, counts_at, head_rule, body_rule, sheet_at, spec_read_sheet};
ghost use Rattle.sheet_spec.specs.Job.{laid, laid_at, spec_names_part, read_into};
ghost use Rattle.sheet_form.specs.Form.{Short, as_counts, in_limits};
ghost use Rattle.sheet_read.specs.Read.{as_columns, value_of, number_of, Headless, spec_numbers_below, InForm, Holds, held, filled, read_of, leaves_sheet};

use sheet_form::{Counts, LineForm};
use words::refusal::Refusal;

// Columns read from the left: spaces only, a number so far, or not in form.
#[derive(Clone, Copy)]
pub enum Columns {
    Blank,
    Number(usize),
    Unfit,
}

// ---- numbers ----

// One byte more: no space may follow a digit, and nothing a leading zero.
#[tactic(auto, using(crate::specs::NumberLaws::bytes), unfolding(sheet_spec::specs::Sheet::digit, sheet_spec::specs::Sheet::space))]
fn next(c: Columns, b: u8) -> Columns
    requires { value_of c < 10000000000 }
    ensures { (as_columns result ≡ byte (as_columns c) b) × (value_of result < 10 * value_of c + 10) }
{
    match c {
        Columns::Blank if b == b' ' => c,
        Columns::Blank if b.is_ascii_digit() => Columns::Number(usize::from(b - b'0')),
        Columns::Number(v) if v != 0 && b.is_ascii_digit() => {
            Columns::Number(10 * v + usize::from(b - b'0'))
        }
        _ => Columns::Unfit,
    }
}

// The number in the ten columns at p, if there is one in form.
fn number_at(text: &[u8], p: usize) -> Option<usize>
    requires { p + column_width ≤ length text.now }
    ensures { number_of result ≡ number_at text.now p }
{
    let mut c = Columns::Blank;
    for b in &text[p..p + sheet_form::COLUMN] {
        c = next(c, *b);
    }
    let Columns::Number(v) = c else {
        return None;
    };
    if v < sheet_form::BEYOND {
        Some(v)
    } else {
        None
    }
}

// So many numbers in form and below the bound from p on.
fn numbers_below(text: &[u8], p: usize, bound: usize, n: usize) -> bool
    requires { (p + column_width * n ≤ length text.now) × (bound ≤ beyond) }
    ensures { result ≡ spec_numbers_below text.now bound p n }
{
    (0..n).all(|i| number_at(text, p + sheet_form::COLUMN * i).is_some_and(|x| x < bound))
}

// ---- lines ----

// A line at p: its numbers, its zeros, its newline.
#[tactic(auto, using(crate::specs::LineLaws::below_rules), unfolding(sheet_spec::specs::Sheet::spec_line_ok))]
fn line_ok(text: &[u8], p: usize, form: LineForm) -> bool
    requires { (p + line_width form.kept form.zeros ≤ length text.now) × Short form }
    ensures { result ≡ spec_line_ok text.now p form.kept form.zeros }
{
    numbers_below(text, p, sheet_form::BEYOND, form.kept)
        && numbers_below(text, p + sheet_form::COLUMN * form.kept, 1, form.zeros)
        && text[p + form.end()] == sheet_form::NEWLINE
}

// n such lines.
// A loop, as `all` was tried and left open what its closure asks: that line i lies in the text, a bound of a product of two variables.
fn lines_ok(text: &[u8], p: usize, form: LineForm, n: usize) -> bool
    requires { (p + line_width form.kept form.zeros * n ≤ length text.now) × Short form }
    ensures { result ≡ spec_lines_ok text.now p form.kept form.zeros n }
{
    let width = form.width();
    for i in 0..n {
        if !line_ok(text, p + width * i, form) {
            return false;
        }
    }
    true
}

// The numbers of a line go to the words from w on.
fn read_numbers(text: &[u8], p: usize, kept: usize, out: &mut [u32], w: usize)
    requires fits { (p + column_width * kept ≤ length text.now) × (w + kept ≤ length out.old) }
    requires in_form { T (numbers_ok text.now p kept) }
    ensures { out.new ≡ laid_at out.old w (numbers_at text.now p kept) }
{
    for i in 0..kept {
        let x = number_at(text, p + sheet_form::COLUMN * i).unwrap();
        words::set_word(out, w + i, x);
    }
}

// The numbers of n lines go to the first words.
fn read_lines(text: &[u8], p: usize, form: LineForm, n: usize, out: &mut [u32])
    requires fits { (p + line_width form.kept form.zeros * n ≤ length text.now) × Short form × (form.kept * n ≤ length out.old) }
    requires in_form { T (spec_lines_ok text.now p form.kept form.zeros n) }
    ensures { let shown = words_at text.now p form.kept form.zeros n in
        out.new ≡ laid shown out.old }
{
    let width = form.width();
    for i in 0..n {
        read_numbers(text, p + width * i, form.kept, out, form.kept * i);
    }
}

// ---- the sheet ----

// The counts of the first line, if it has four numbers in form.
fn counts_of(text: &[u8]) -> Option<Counts>
    requires { terms_start ≤ length text.now }
    ensures { MatchOption result (Headless text.now) (λ c. as_counts c ≡ counts_at text.now) }
{
    Some(Counts {
        terms: number_at(text, 0)?,
        names: number_at(text, sheet_form::SECOND)?,
        pattern: number_at(text, sheet_form::THIRD)?,
        runs: number_at(text, sheet_form::FOURTH)?,
    })
}

// The first line is in form, its counts are within the limits, and the text ends where they say.
#[tactic(auto, unfolding(sheet_spec::specs::Sheet::head_rule))]
fn head_ok(text: &[u8], c: Counts) -> bool
    requires { terms_start ≤ length text.now }
    ensures { result ≡ head_rule text.now (as_counts c) }
{
    line_ok(text, 0, LineForm::COUNTS) && c.within_limits() && text.len() == c.end()
}

// The lines after it are in form, and the name bytes have their newline.
#[tactic(auto, using(crate::specs::SheetLaws::head_rules), unfolding(sheet_spec::specs::Sheet::body_rule))]
fn body_ok(text: &[u8], c: Counts) -> bool
    requires { T (head_rule text.now (as_counts c)) }
    ensures { result ≡ body_rule text.now (as_counts c) }
{
    lines_ok(text, sheet_form::LINE, LineForm::TERM, c.terms)
        && text[c.names_end()] == sheet_form::NEWLINE
        && lines_ok(text, c.pattern_start(), LineForm::ITEM, c.pattern)
        && lines_ok(text, c.runs_start(), LineForm::RUN, c.runs)
}

// The whole text is in form.
fn form_ok(text: &[u8], c: Counts) -> bool
    requires { terms_start ≤ length text.now }
    ensures { result ≡ (head_rule text.now (as_counts c) && body_rule text.now (as_counts c)) }
{
    head_ok(text, c) && body_ok(text, c)
}

// The words of a sheet with these counts fit three slices.
#[tactic(auto, using(sheet_spec::proofs::SheetLaws::limits_facts))]
fn fits(c: Counts, terms: &[u32], pattern: &[u32], runs: &[u32]) -> bool
    requires { T (in_limits (as_counts c)) }
    ensures { result ≡ held (as_counts c) terms.now pattern.now runs.now }
{
    sheet_form::TERM_COLUMNS * c.terms <= terms.len()
        && sheet_form::ITEM_COLUMNS * c.pattern <= pattern.len()
        && sheet_form::RUN_COLUMNS * c.runs <= runs.len()
}

// The lines of a sheet in form go to the first words of three slices.
// They are lent for writing and go to this function alone: a struct of them would be made for one call and taken apart at once.
#[tactic(auto, using(crate::specs::SheetLaws::body_rules))]
fn read_body(text: &[u8], c: Counts, terms: &mut [u32], pattern: &mut [u32], runs: &mut [u32])
    requires in_form { InForm text.now (as_counts c) }
    requires room { Holds (as_counts c) terms.old pattern.old runs.old }
    ensures { let sheet = sheet_at text.now (as_counts c) in
        let words = filled sheet terms.old pattern.old runs.old in
        (terms.new, pattern.new, runs.new) ≡ words }
{
    read_lines(text, sheet_form::LINE, LineForm::TERM, c.terms, terms);
    read_lines(text, c.pattern_start(), LineForm::ITEM, c.pattern, pattern);
    read_lines(text, c.runs_start(), LineForm::RUN, c.runs, runs);
}

// Reads a sheet: its terms, pattern records and runs go to the first words of three slices, its names stay in the text (`names_part`). 16 if
// the text is no sheet, 14 if a slice is short.
pub fn read_sheet(
    text: &[u8],
    terms: &mut [u32],
    pattern: &mut [u32],
    runs: &mut [u32],
) -> Result<Counts, Refusal>
    ensures { let sheet = spec_read_sheet text.now in
        let counts = counts_at text.now in
        let after = leaves_sheet (read_of result) terms.new pattern.new runs.new in
        after ≡ read_into sheet counts terms.old pattern.old runs.old }
{
    if text.len() < sheet_form::LINE {
        return Err(Refusal::BadSheet);
    }
    let Some(c) = counts_of(text) else {
        return Err(Refusal::BadSheet);
    };
    if !form_ok(text, c) {
        return Err(Refusal::BadSheet);
    }
    if !fits(c, terms, pattern, runs) {
        return Err(Refusal::WorkShort);
    }
    read_body(text, c, terms, pattern, runs);
    Ok(c)
}

// The name bytes of a sheet that was read; nothing where the counts are not of that text.
#[tactic(auto, using(sheet_spec::proofs::SheetLaws::limits_facts), unfolding(sheet_spec::specs::Job::spec_names_part))]
pub fn names_part<'a>(text: &'a [u8], c: Counts) -> &'a [u8]
    ensures { result.now ≡ spec_names_part text.now (as_counts c) }
{
    if !c.within_limits() || text.len() < c.names_end() {
        return b"";
    }
    &text[c.names_start()..c.names_end()]
}
