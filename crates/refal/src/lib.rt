// The library for C and Rust: each public call with its answer as document 01's number, and its values in out parameters.
#![tactic(auto, using(crate::specs::ExportLaws::exports), unfolding(outputs::specs::SheetOutputs::after_write))]

ghost use Rattle.std.specs.Prelude.{◌≡◌};
ghost use Rattle.match_spec.specs.Answer.{allOfThem, headOnly};
ghost use Rattle.calls_spec.specs.Step.{call_from_runs, call_join, call_take, call_rest, call_range};
ghost use Rattle.calls_spec.specs.Step.{call_starts_with, call_equal, call_flatten, call_match, step, spec_name_count};
ghost use Rattle.equality.specs.Compare.{compared_runs};
ghost use Rattle.view.specs.Check.{store_of};
ghost use Rattle.listing.specs.Match.{request_of};
ghost use Rattle.sheet_spec.specs.Sheet.{counts_at, spec_read_sheet};
ghost use Rattle.sheet_spec.specs.Job.{written as writtenText, written_sheet, read_into, answer_text};
ghost use Rattle.sheet_write.specs.Write.{sheet_of};
ghost use Rattle.outputs.specs.Outputs.{compared_out};
ghost use Rattle.outputs.specs.SheetOutputs.{read_outs, after_write, after_read};
ghost use Rattle.refal.specs.Export.{field_of, after_field, after_truth, after_flat, after_list};

use view::Field;

// ---- calls that build a field ----

// The terms of runs, in order.
#[unsafe(no_mangle)]
pub extern "C" fn naldrev_from_runs(
    names: &[u8],
    terms: &[u32],
    terms_used: usize,
    nodes: &mut [u32],
    nodes_used: &mut usize,
    runs: &[u32],
    node: &mut usize,
    len: &mut usize,
) -> usize
    ensures { let before = store_of names.now terms.now terms_used nodes.old nodes_used.old in
        let after = store_of names.now terms.now terms_used nodes.new nodes_used.new in
        let did = step before (call_from_runs runs.now) in
        ((result, node.new, len.new), after) ≡ after_field did node.old len.old }
{
    let chained = view::from_runs(names, terms, terms_used, nodes, nodes_used, runs);
    outputs::put_field(chained, node, len)
}

// Two fields as one: the left's terms, then the right's.
#[unsafe(no_mangle)]
pub extern "C" fn naldrev_join(
    names: &[u8],
    terms: &[u32],
    terms_used: usize,
    nodes: &mut [u32],
    nodes_used: &mut usize,
    left_node: usize,
    left_len: usize,
    right_node: usize,
    right_len: usize,
    node: &mut usize,
    len: &mut usize,
) -> usize
    ensures { let before = store_of names.now terms.now terms_used nodes.old nodes_used.old in
        let after = store_of names.now terms.now terms_used nodes.new nodes_used.new in
        let did = step before (call_join (field_of left_node left_len) (field_of right_node right_len)) in
        ((result, node.new, len.new), after) ≡ after_field did node.old len.old }
{
    let left = Field::new(left_node, left_len);
    let right = Field::new(right_node, right_len);
    let joined = view::join(names, terms, terms_used, nodes, nodes_used, left, right);
    outputs::put_field(joined, node, len)
}

// The first count terms of a field.
#[unsafe(no_mangle)]
pub extern "C" fn naldrev_take(
    names: &[u8],
    terms: &[u32],
    terms_used: usize,
    nodes: &[u32],
    nodes_used: usize,
    field_node: usize,
    field_len: usize,
    count: usize,
    node: &mut usize,
    len: &mut usize,
) -> usize
    ensures { let before = store_of names.now terms.now terms_used nodes.now nodes_used in
        let did = step before (call_take (field_of field_node field_len) count) in
        ((result, node.new, len.new), before) ≡ after_field did node.old len.old }
{
    let f = Field::new(field_node, field_len);
    let taken = view::take(names, terms, terms_used, nodes, nodes_used, f, count);
    outputs::put_field(taken, node, len)
}

// A field without its first count terms.
#[unsafe(no_mangle)]
pub extern "C" fn naldrev_rest(
    names: &[u8],
    terms: &[u32],
    terms_used: usize,
    nodes: &mut [u32],
    nodes_used: &mut usize,
    field_node: usize,
    field_len: usize,
    count: usize,
    node: &mut usize,
    len: &mut usize,
) -> usize
    ensures { let before = store_of names.now terms.now terms_used nodes.old nodes_used.old in
        let after = store_of names.now terms.now terms_used nodes.new nodes_used.new in
        let did = step before (call_rest (field_of field_node field_len) count) in
        ((result, node.new, len.new), after) ≡ after_field did node.old len.old }
{
    let f = Field::new(field_node, field_len);
    let dropped = view::rest(names, terms, terms_used, nodes, nodes_used, f, count);
    outputs::put_field(dropped, node, len)
}

// count terms of a field after its first start.
#[unsafe(no_mangle)]
pub extern "C" fn naldrev_range(
    names: &[u8],
    terms: &[u32],
    terms_used: usize,
    nodes: &mut [u32],
    nodes_used: &mut usize,
    field_node: usize,
    field_len: usize,
    start: usize,
    count: usize,
    node: &mut usize,
    len: &mut usize,
) -> usize
    ensures { let before = store_of names.now terms.now terms_used nodes.old nodes_used.old in
        let after = store_of names.now terms.now terms_used nodes.new nodes_used.new in
        let did = step before (call_range (field_of field_node field_len) start count) in
        ((result, node.new, len.new), after) ≡ after_field did node.old len.old }
{
    let f = Field::new(field_node, field_len);
    let ranged = view::range(names, terms, terms_used, nodes, nodes_used, f, start, count);
    outputs::put_field(ranged, node, len)
}

// ---- calls that read ----

// Whether a field starts with another's terms: yes is 1 or 0.
#[unsafe(no_mangle)]
pub extern "C" fn naldrev_starts_with(
    names: &[u8],
    terms: &[u32],
    terms_used: usize,
    nodes: &[u32],
    nodes_used: usize,
    field_node: usize,
    field_len: usize,
    front_node: usize,
    front_len: usize,
    yes: &mut usize,
) -> usize
    ensures { let before = store_of names.now terms.now terms_used nodes.now nodes_used in
        let did = step before (call_starts_with (field_of field_node field_len) (field_of front_node front_len)) in
        ((result, yes.new), before) ≡ after_truth did yes.old }
{
    let f = Field::new(field_node, field_len);
    let front = Field::new(front_node, front_len);
    let starts = view_read::starts_with(names, terms, terms_used, nodes, nodes_used, f, front);
    outputs::put_truth(starts, yes)
}

// Whether two fields hold equal terms: yes is 1 or 0.
#[unsafe(no_mangle)]
pub extern "C" fn naldrev_equal(
    names: &[u8],
    terms: &[u32],
    terms_used: usize,
    nodes: &[u32],
    nodes_used: usize,
    left_node: usize,
    left_len: usize,
    right_node: usize,
    right_len: usize,
    yes: &mut usize,
) -> usize
    ensures { let before = store_of names.now terms.now terms_used nodes.now nodes_used in
        let did = step before (call_equal (field_of left_node left_len) (field_of right_node right_len)) in
        ((result, yes.new), before) ≡ after_truth did yes.old }
{
    let left = Field::new(left_node, left_len);
    let right = Field::new(right_node, right_len);
    let same = view_read::equal(names, terms, terms_used, nodes, nodes_used, left, right);
    outputs::put_truth(same, yes)
}

// A field's terms as one run: of the term store (in_work 0), or the first count records of the work buffer (in_work 1, start 0).
#[unsafe(no_mangle)]
pub extern "C" fn naldrev_flatten(
    names: &[u8],
    terms: &[u32],
    terms_used: usize,
    nodes: &[u32],
    nodes_used: usize,
    field_node: usize,
    field_len: usize,
    work: &mut [u32],
    in_work: &mut usize,
    start: &mut usize,
    count: &mut usize,
) -> usize
    ensures { let before = store_of names.now terms.now terms_used nodes.now nodes_used in
        let did = step before (call_flatten (field_of field_node field_len) work.old) in
        let told = after_flat did in_work.old start.old count.old in
        ((result, in_work.new, start.new, count.new), before, work.new) ≡ told }
{
    let f = Field::new(field_node, field_len);
    let flat = view_read::flatten(names, terms, terms_used, nodes, nodes_used, f, work);
    outputs::put_flat(flat, in_work, start, count)
}

// Whether two runs of the term store hold equal terms: yes is 1 or 0.
#[unsafe(no_mangle)]
pub extern "C" fn naldrev_compare_runs(
    names: &[u8],
    terms: &[u32],
    terms_used: usize,
    first_start: usize,
    first_len: usize,
    second_start: usize,
    second_len: usize,
    yes: &mut usize,
) -> usize
    ensures { let compared = compared_runs names.now terms.now terms_used first_start first_len second_start second_len in
        (result, yes.new) ≡ compared_out compared yes.old }
{
    let compared = equality::compare_runs(
        names,
        terms,
        terms_used,
        first_start,
        first_len,
        second_start,
        second_len,
    );
    outputs::put_truth(compared, yes)
}

// ---- matching ----

// The names of pattern and bindings together: a slot has twice as many words. 0 where they are refused.
#[unsafe(no_mangle)]
pub extern "C" fn naldrev_name_count(names: &[u8], pattern: &[u32], bindings: &[u32]) -> usize
    ensures { result ≡ spec_name_count names.now pattern.now bindings.now }
{
    listing::name_count(names, pattern, bindings)
}

// Lists the candidates of a pattern over a field, from starting bindings, into slots.
#[unsafe(no_mangle)]
pub extern "C" fn naldrev_match_pattern_with_bindings_candidates(
    names: &[u8],
    terms: &mut [u32],
    terms_used: &mut usize,
    nodes: &[u32],
    nodes_used: usize,
    field_node: usize,
    field_len: usize,
    pattern: &[u32],
    bindings: &[u32],
    slots: &mut [u32],
    count: &mut usize,
    entries: &mut usize,
) -> usize
    ensures { let before = store_of names.now terms.old terms_used.old nodes.now nodes_used in
        let after = store_of names.now terms.new terms_used.new nodes.now nodes_used in
        let request = request_of (field_of field_node field_len) pattern.now bindings.now slots.old in
        let did = step before (call_match allOfThem request) in
        ((result, count.new, entries.new), after, slots.new) ≡ after_list did count.old entries.old }
{
    let f = Field::new(field_node, field_len);
    let listed = listing::match_pattern_with_bindings_candidates(
        names, terms, terms_used, nodes, nodes_used, f, pattern, bindings, slots,
    );
    outputs::put_list(listed, count, entries)
}

// The first candidate alone: the head of that list.
#[unsafe(no_mangle)]
pub extern "C" fn naldrev_match_pattern_first(
    names: &[u8],
    terms: &mut [u32],
    terms_used: &mut usize,
    nodes: &[u32],
    nodes_used: usize,
    field_node: usize,
    field_len: usize,
    pattern: &[u32],
    bindings: &[u32],
    slots: &mut [u32],
    count: &mut usize,
    entries: &mut usize,
) -> usize
    ensures { let before = store_of names.now terms.old terms_used.old nodes.now nodes_used in
        let after = store_of names.now terms.new terms_used.new nodes.now nodes_used in
        let request = request_of (field_of field_node field_len) pattern.now bindings.now slots.old in
        let did = step before (call_match headOnly request) in
        ((result, count.new, entries.new), after, slots.new) ≡ after_list did count.old entries.old }
{
    let f = Field::new(field_node, field_len);
    let head = listing::match_pattern_first(
        names, terms, terms_used, nodes, nodes_used, f, pattern, bindings, slots,
    );
    outputs::put_list(head, count, entries)
}

// ---- sheets ----

// Reads a sheet: its words, its counts, and where its name bytes start in the text.
#[unsafe(no_mangle)]
pub extern "C" fn naldrev_read_sheet(
    text: &[u8],
    terms: &mut [u32],
    pattern: &mut [u32],
    runs: &mut [u32],
    term_count: &mut usize,
    name_start: &mut usize,
    name_count: &mut usize,
    pattern_count: &mut usize,
    run_count: &mut usize,
) -> usize
    ensures { let before = read_outs term_count.old name_start.old name_count.old pattern_count.old run_count.old in
        let after = read_outs term_count.new name_start.new name_count.new pattern_count.new run_count.new in
        let read = read_into (spec_read_sheet text.now) (counts_at text.now) terms.old pattern.old runs.old in
        ((result, after), terms.new, pattern.new, runs.new) ≡ after_read read before }
{
    outputs::read_sheet(
        text,
        terms,
        pattern,
        runs,
        term_count,
        name_start,
        name_count,
        pattern_count,
        run_count,
    )
}

// Writes a sheet's text.
#[unsafe(no_mangle)]
pub extern "C" fn naldrev_write_sheet(
    terms: &[u32],
    names: &[u8],
    pattern: &[u32],
    runs: &[u32],
    out: &mut [u8],
    written: &mut usize,
) -> usize
    ensures { let sheet = sheet_of terms.now names.now pattern.now runs.now in
        ((result, written.new), out.new) ≡ after_write (written_sheet sheet out.old) written.old }
{
    let wrote = sheet_write::write_sheet(terms, names, pattern, runs, out);
    outputs::put_written(wrote, written)
}

// What the program `sheet` prints for a text.
#[unsafe(no_mangle)]
pub extern "C" fn naldrev_run_sheet(text: &[u8], out: &mut [u8], written: &mut usize) -> usize
    ensures { let printed = writtenText (answer_text text.now) out.old in
        ((result, written.new), out.new) ≡ after_write printed written.old }
{
    let ran = sheet_job::run_sheet(text, out);
    outputs::put_written(ran, written)
}
