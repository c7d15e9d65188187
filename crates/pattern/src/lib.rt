// Patterns and starting bindings in code: their rules (7 and 8), and the numbers of their names. From matcher.rs (`VariableKey`,
// `Bindings`); records and their rules are the port's.
#![tactic(auto)]

mod apart;

ghost use Rattle.std.specs.Prelude.{◌≡◌, IfSome, IsSome, unwrap_or, List, [], ◌&&◌, ℕ, ◌+◌, ◌<◌, ◌≤◌, min, T, eqb, length, take};
ghost use Rattle.term_spec.specs.Words.{Lies, AtMost, record_at, decode, records, count};
ghost use Rattle.match_spec.specs.Pattern.{item_layout, call_kind, pattern_limit, name_limit, elements, item_rule_k, pattern_rule};
ghost use Rattle.match_spec.specs.Pattern.{binding_layout, binding_names, names_after, binding_rule, bindings_rule};
ghost use Rattle.items.specs.Records.{as_item, as_binding};
ghost use Rattle.pattern.specs.Records.{bindings_in, numbers_of, variable, same_name, item_name, as_name, FoundAmong, first_names, table_at};
ghost use Rattle.pattern.specs.Records.{BindingTexts, ItemTexts};
ghost use Rattle.pattern.specs.Apart.{Told, EachRight, OneWrong};

use arrayvec::ArrayVec;
use items::kind::ItemKind;
use items::{Binding, Item};
use text::TextKind;

// ---- the rule of a pattern (7 BadPattern) ----

// A record by itself, its bracket partner apart. A Call or Block has no words besides its kind.
#[tactic(auto, using(crate::specs::PatternLaws::item_kinds))]
fn item_ok(names: &[u8], t: Item) -> bool
    ensures { result ≡ item_rule_k t.kind names.now (as_item t) }
{
    match ItemKind::try_from(t.kind) {
        Ok(ItemKind::Char | ItemKind::Identifier | ItemKind::Number) => {
            value::symbol_ok(names, items::literal(t))
        }
        Ok(ItemKind::Open | ItemKind::Close) => t.b == 0 && t.c == 0,
        Ok(ItemKind::SVariable | ItemKind::TVariable | ItemKind::EVariable) => {
            text::text_ok(names, TextKind::Name.number(), t.a, t.b) && t.c == 0
        }
        Ok(ItemKind::Call | ItemKind::Block) => t.a == 0 && t.b == 0 && t.c == 0,
        Err(_) => false,
    }
}

// Whether a Close at i with this a is the partner of the bracket opened at o: each has the other's number.
fn closes(pattern: &[u32], a: usize, i: usize, o: usize) -> bool
    requires { Lies item_layout pattern.now (o + 1) }
    ensures { result ≡ (eqb a o && eqb (record_at item_layout pattern.now o).a i) }
{
    a == o && words::get::<Item>(pattern, o).a == i
}

// The rule of a pattern of at most 256 records. `opened` has the numbers of the brackets open before record i, innermost last.
pub fn pattern_ok(names: &[u8], pattern: &[u32]) -> bool
    requires { AtMost item_layout pattern.now pattern_limit }
    ensures { result ≡ pattern_rule names.now (records item_layout pattern.now) }
{
    let n = pattern.len() / items::ITEM_WIDTH;
    let mut opened: ArrayVec<usize, { items::NESTING_LIMIT }> = ArrayVec::new();
    for i in 0..n {
        let t = words::get::<Item>(pattern, i);
        if !item_ok(names, t) {
            return false;
        }
        if t.is(ItemKind::Open) {
            if opened.is_full() {
                return false;
            }
            opened.push(i);
        } else if t.is(ItemKind::Close) {
            let Some(o) = opened.pop() else {
                return false;
            };
            if !closes(pattern, t.a, i, o) {
                return false;
            }
        }
    }
    opened.is_empty()
}

// ---- the rules of starting bindings (8 BadBinding) ----

// The kinds of variables.
pub fn is_variable(kind: usize) -> bool
    ensures { result ≡ variable kind }
{
    matches!(
        ItemKind::try_from(kind),
        Ok(ItemKind::SVariable | ItemKind::TVariable | ItemKind::EVariable)
    )
}

// A name: its kind, and where its text begins in the names and how long it is.
#[derive(Clone, Copy)]
struct Name {
    kind: usize,
    offset: usize,
    size: usize,
}

impl Name {
    // The name of a binding.
    fn of_binding(b: Binding) -> Self
        ensures { result ≡ record { kind = b.kind; offset = b.offset; size = b.size } }
    {
        Name {
            kind: b.kind,
            offset: b.offset,
            size: b.size,
        }
    }

    // The name of a variable in a pattern.
    fn of_item(t: Item) -> Self
        ensures { result ≡ record { kind = t.kind; offset = t.a; size = t.b } }
    {
        Name {
            kind: t.kind,
            offset: t.a,
            size: t.b,
        }
    }
}

// Whether two names are one.
#[tactic(auto, using(term_spec::proofs::ListLaws::part_slice, crate::specs::NameLaws::kinds_apart, crate::specs::NameLaws::same_kinds))]
fn same_name(names: &[u8], x: Name, y: Name) -> bool
    requires { (x.offset + x.size ≤ length names.now) × (y.offset + y.size ≤ length names.now) }
    ensures { result ≡ same_name (as_name names.now x) (as_name names.now y) }
{
    x.kind == y.kind
        && text::same_identifiers(
            &names[x.offset..x.offset + x.size],
            &names[y.offset..y.offset + y.size],
        )
}

// The place of a name among the first `count` bindings, if it is there.
fn find_binding(names: &[u8], bindings: &[u32], count: usize, x: Name) -> Option<usize>
    requires { (Lies binding_layout bindings.now count) × (x.offset + x.size ≤ length names.now) × BindingTexts names.now bindings.now count }
    ensures { let text = names.now in
        FoundAmong (as_name text x) (binding_names text (decode binding_layout count bindings.now)) count result }
{
    for i in 0..count {
        let b = words::get::<Binding>(bindings, i);
        if same_name(names, x, Name::of_binding(b)) {
            return Some(i);
        }
    }
    None
}

// The rule of a binding by itself.
fn binding_ok(names: &[u8], b: Binding) -> bool
    ensures { result ≡ binding_rule names.now (as_binding b) }
{
    is_variable(b.kind) && text::text_ok(names, TextKind::Name.number(), b.offset, b.size)
}

// The rule of few bindings: each one's name is looked for among all before it.
fn few_bindings_ok(names: &[u8], bindings: &[u32]) -> bool
    ensures { result ≡ bindings_rule names.now (records binding_layout bindings.now) [] }
{
    let n = bindings.len() / items::BINDING_WIDTH;
    for i in 0..n {
        let b = words::get::<Binding>(bindings, i);
        if !binding_ok(names, b) {
            return false;
        }
        let x = Name::of_binding(b);
        if find_binding(names, bindings, i, x).is_some() {
            return false;
        }
    }
    true
}

// Whether every binding by itself is right.
fn each_binding_ok(names: &[u8], bindings: &[u32]) -> bool
    ensures { let text = names.now in
        let words = bindings.now in
        Told (EachRight text words (bindings_in words)) (OneWrong text words) result }
{
    let n = bindings.len() / items::BINDING_WIDTH;
    for i in 0..n {
        let b = words::get::<Binding>(bindings, i);
        if !binding_ok(names, b) {
            return false;
        }
    }
    true
}

// Each binding has a variable's kind and name, and no name is repeated. No table is cleared for few bindings.
pub fn bindings_ok(names: &[u8], bindings: &[u32]) -> bool
    ensures { result ≡ bindings_rule names.now (records binding_layout bindings.now) [] }
{
    if bindings.len() / items::BINDING_WIDTH <= items::NAME_LIMIT {
        return few_bindings_ok(names, bindings);
    }
    each_binding_ok(names, bindings) && apart::names_apart(names, bindings)
}

// ---- the numbers of names ----

// The place of a variable's name among those of the records that `firsts` number, if it is there.
fn find_first(names: &[u8], pattern: &[u32], firsts: &[usize], t: Item) -> Option<usize>
    requires { (t.a + t.b ≤ length names.now) × ItemTexts names.now pattern.now firsts.now (length firsts.now) }
    ensures { let text = names.now in
        FoundAmong (item_name text (as_item t)) (first_names text pattern.now firsts.now) (length firsts.now) result }
{
    for (i, first) in firsts.iter().enumerate() {
        let u = words::get::<Item>(pattern, *first);
        if same_name(names, Name::of_item(t), Name::of_item(u)) {
            return Some(i);
        }
    }
    None
}

// The place of a variable's name among the bindings' names and then those of the records that `firsts` number, if it is there.
fn find_name(
    names: &[u8],
    pattern: &[u32],
    bindings: &[u32],
    firsts: &[usize],
    t: Item,
) -> Option<usize>
    requires known_firsts { (t.a + t.b ≤ length names.now) × ItemTexts names.now pattern.now firsts.now (length firsts.now) }
    requires known_bindings { (AtMost binding_layout bindings.now name_limit) × (length firsts.now ≤ name_limit)
        × BindingTexts names.now bindings.now (count binding_layout bindings.now) }
    ensures { let text = names.now in
        let table = table_at text pattern.now bindings.now firsts.now in
        FoundAmong (item_name text (as_item t)) table (count binding_layout bindings.now + length firsts.now) result }
{
    let start = bindings.len() / items::BINDING_WIDTH;
    if let Some(at) = find_binding(names, bindings, start, Name::of_item(t)) {
        return Some(at);
    }
    match find_first(names, pattern, firsts, t) {
        Some(i) => Some(start + i),
        None => None,
    }
}

// Numbers each variable of the pattern: the start's names first, then first occurrence; other records get 0. Hands back how many names there
// are, if they are at most 64 (otherwise the numbers mean nothing). `firsts` has the numbers of the records that brought the new names.
pub fn number_names(
    names: &[u8],
    pattern: &[u32],
    bindings: &[u32],
    numbers: &mut [u32],
) -> Option<usize>
    requires room { (AtMost item_layout pattern.now pattern_limit) × (AtMost binding_layout bindings.now name_limit)
        × (pattern_limit ≤ length numbers.old) }
    requires rules { T (pattern_rule names.now (records item_layout pattern.now))
        × T (bindings_rule names.now (records binding_layout bindings.now) []) }
    ensures counted { let parts = elements names.now (records item_layout pattern.now) in
        let start = binding_names names.now (records binding_layout bindings.now) in
        unwrap_or result (name_limit + 1) ≡ min (name_limit + 1) (length (names_after parts start)) }
    ensures few { IfSome result (λ n. n ≤ name_limit) }
    ensures numbers { let parts = elements names.now (records item_layout pattern.now) in
        let start = binding_names names.now (records binding_layout bindings.now) in
        IsSome result → take (count item_layout pattern.now) numbers.new ≡ numbers_of parts start }
{
    let n = pattern.len() / items::ITEM_WIDTH;
    let start = bindings.len() / items::BINDING_WIDTH;
    let mut firsts: ArrayVec<usize, { items::NAME_LIMIT }> = ArrayVec::new();
    for i in 0..n {
        let t = words::get::<Item>(pattern, i);
        if !is_variable(t.kind) {
            words::set_word(numbers, i, 0);
            continue;
        }
        let found = find_name(names, pattern, bindings, firsts.as_slice(), t);
        let at = found.unwrap_or(start + firsts.len());
        if items::NAME_LIMIT <= at {
            return None;
        }
        words::set_word(numbers, i, at);
        if found.is_none() {
            firsts.push(i);
        }
    }
    Some(start + firsts.len())
}
