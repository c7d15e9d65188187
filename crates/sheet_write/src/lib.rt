// Writing a sheet's text (01, "The sheet"): numbers in columns, lines, the whole. The lines of an answer are written by the same functions.
#![tactic(auto)]

ghost use Rattle.std.specs.Prelude.{◌≡◌, [], ◌∷◌, ◌++◌, true, false, T, eqb, length, replicate, ◌+◌, ◌*◌, ◌%◌, ◌≤◌};
ghost use Rattle.sheet_spec.specs.Sheet.{column_width, column, columns, line, line_width, lines, sheet_text, sheet_rule};
ghost use Rattle.sheet_spec.specs.Job.{laid, laid_at, written_sheet};
ghost use Rattle.sheet_form.specs.Form.{line_bytes, Short, as_counts, in_limits};
ghost use Rattle.sheet_write.specs.Write.{written_of, sheet_of, as_sheet, counts_in, Fitting};

use sheet_form::{Counts, LineForm};
use words::refusal::Refusal;

// Where the last digit of a number stands.
const LAST: usize = sheet_form::COLUMN - 1;

// ---- numbers and lines ----

// The last digit.
fn digit(v: usize) -> u8
    ensures { result ≡ 48 + v % 10 }
{
    b'0' + (v % 10) as u8
}

// That, or a space where no digit is left.
fn digit_of(v: usize) -> u8
    ensures { result ≡ elim (eqb v 0) [ true ↦ 32 | false ↦ 48 + v % 10 ] }
{
    if v == 0 { b' ' } else { digit(v) }
}

// v right-justified in the ten columns at p.
fn write_column(out: &mut [u8], p: usize, v: usize)
    requires { p + column_width ≤ length out.old }
    ensures { out.new ≡ laid_at out.old p (column v) }
{
    out[p + LAST] = digit(v);
    let mut left = v / 10;
    for k in (0..LAST).rev() {
        out[p + k] = digit_of(left);
        left /= 10;
    }
}

// A line of four numbers at p.
pub fn write_line(out: &mut [u8], p: usize, a: usize, b: usize, c: usize, d: usize)
    requires { p + line_bytes ≤ length out.old }
    ensures { out.new ≡ laid_at out.old p (line (a ∷ b ∷ c ∷ d ∷ [])) }
{
    write_column(out, p, a);
    write_column(out, p + sheet_form::SECOND, b);
    write_column(out, p + sheet_form::THIRD, c);
    write_column(out, p + sheet_form::FOURTH, d);
    out[p + sheet_form::LINE_END] = sheet_form::NEWLINE;
}

// The columns of some words.
fn write_words(out: &mut [u8], p: usize, words: &[u32])
    requires { p + column_width * length words.now ≤ length out.old }
    ensures { out.new ≡ laid_at out.old p (columns words.now) }
{
    for i in 0..words.len() {
        write_column(out, p + sheet_form::COLUMN * i, words::word(words, i));
    }
}

// A record's line: its words, then zeros.
fn write_record(out: &mut [u8], p: usize, words: &[u32], form: LineForm)
    requires { (p + line_width form.kept form.zeros ≤ length out.old) × Short form × (length words.now ≡ form.kept) }
    ensures { let numbers = words.now ++ replicate form.zeros 0 in
        out.new ≡ laid_at out.old p (line numbers) }
{
    let none = [0u32; sheet_form::MOST_COLUMNS];
    write_words(out, p, words);
    write_words(out, p + sheet_form::COLUMN * form.kept, &none[..form.zeros]);
    out[p + form.end()] = sheet_form::NEWLINE;
}

// The lines of n records.
fn write_lines(out: &mut [u8], p: usize, words: &[u32], form: LineForm, n: usize)
    requires { (p + line_width form.kept form.zeros * n ≤ length out.old) × (form.kept * n ≤ length words.now) × Short form }
    ensures { let text = lines form.kept form.zeros n words.now in
        out.new ≡ laid_at out.old p text }
{
    let width = form.width();
    for i in 0..n {
        let w = form.kept * i;
        write_record(out, p + width * i, &words[w..w + form.kept], form);
    }
}

// Bytes go to the bytes from p on.
fn copy_bytes(out: &mut [u8], p: usize, bytes: &[u8])
    requires { p + length bytes.now ≤ length out.old }
    ensures { out.new ≡ laid_at out.old p bytes.now }
{
    // A loop, and not copy_from_slice: the archive for C is to need nothing but memset from outside.
    for i in 0..bytes.len() {
        out[p + i] = bytes[i];
    }
}

// ---- the sheet ----

// What a sheet holds.
#[derive(Clone, Copy)]
struct Sheet<'a> {
    terms: &'a [u32],
    names: &'a [u8],
    pattern: &'a [u32],
    runs: &'a [u32],
}

impl Sheet<'_> {
    // Its counts.
    #[tactic(auto, unfolding(term_spec::specs::Words::count))]
    fn counts(&self) -> Counts
        ensures { as_counts result ≡ counts_in (as_sheet self.now) }
    {
        Counts {
            terms: self.terms.len() / words::TERM_WIDTH,
            names: self.names.len(),
            pattern: self.pattern.len() / items::ITEM_WIDTH,
            runs: self.runs.len() / words::RUN_WIDTH,
        }
    }

    // Whole records, and counts within the sheet's limits.
    #[tactic(auto, unfolding(sheet_spec::specs::Sheet::sheet_rule, term_spec::specs::Words::whole))]
    fn fits(&self) -> bool
        ensures { result ≡ sheet_rule (as_sheet self.now) }
    {
        self.terms.len() % words::TERM_WIDTH == 0
            && self.pattern.len() % items::ITEM_WIDTH == 0
            && self.runs.len() % words::RUN_WIDTH == 0
            && self.counts().within_limits()
    }

    // Its text, part by part, to the first bytes of `out`.
    fn write_to(&self, c: Counts, out: &mut [u8])
        requires counts { as_counts c ≡ counts_in (as_sheet self.now) }
        requires limits { T (in_limits (as_counts c)) }
        requires room { Fitting (as_sheet self.now) (as_counts c) out.old }
        ensures { out.new ≡ laid (sheet_text (as_sheet self.now)) out.old }
    {
        write_line(out, 0, c.terms, c.names, c.pattern, c.runs);
        write_lines(out, sheet_form::LINE, self.terms, LineForm::TERM, c.terms);
        copy_bytes(out, c.names_start(), self.names);
        out[c.names_end()] = sheet_form::NEWLINE;
        write_lines(
            out,
            c.pattern_start(),
            self.pattern,
            LineForm::ITEM,
            c.pattern,
        );
        write_lines(out, c.runs_start(), self.runs, LineForm::RUN, c.runs);
    }
}

// Writes the text of a sheet to the first bytes of `out`. 1 if the records are not whole or exceed the sheet's limits, 14 if `out` is short.
pub fn write_sheet(
    terms: &[u32],
    names: &[u8],
    pattern: &[u32],
    runs: &[u32],
    out: &mut [u8],
) -> Result<usize, Refusal>
    ensures { let sheet = sheet_of terms.now names.now pattern.now runs.now in
        (written_of result, out.new) ≡ written_sheet sheet out.old }
{
    let sheet = Sheet {
        terms,
        names,
        pattern,
        runs,
    };
    if !sheet.fits() {
        return Err(Refusal::Uneven);
    }
    let c = sheet.counts();
    let all = c.end();
    if out.len() < all {
        return Err(Refusal::WorkShort);
    }
    sheet.write_to(c, out);
    Ok(all)
}
