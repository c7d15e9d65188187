// The number of each used term: equal terms have the same one, others have different ones. With it two runs are compared by reading a table,
// however deep their brackets are and however many share contents. A term gets the number of the first term that is equal to it; that one is
// looked for among the terms of its bucket, which its digest gives. A store can be made so that many terms are in one bucket; what looking in vain takes
// is counted, and where it is too much, the terms are numbered anew with another digest.
#![tactic(auto)]

pub mod digests;

ghost use Rattle.std.specs.Prelude.{◌≡◌, List, true, ℕ, ◌+◌, ◌*◌, ◌/◌, ◌<◌, ◌≤◌, length, get_or, set, drop, replicate};
ghost use Rattle.std.specs.Prelude.{Option, None, IfSome, is_none};
ghost use Rattle.term_spec.specs.Term.{limit, bracket_kind};
ghost use Rattle.value.specs.Equal.{spec_equal_runs};
ghost use Rattle.value.specs.Store.{terms_equal};
ghost use Rattle.words.specs.Records.{as_term};
ghost use Rattle.numbers.specs.Digest.{prime, stride, Marked};
ghost use Rattle.numbers.specs.Buckets.{buckets, entry};
ghost use Rattle.numbers.specs.Numbers.{Numbers, Same, Agree, Readable, key_of, symbol_key, term_key};
ghost use Rattle.numbers.specs.Stores.{Numbered, TablesOf, Sought, PlacedIn};

use value::store::Store;
use words::kind::TermKind;
use words::{Run, Term};

// ---- buckets ----

// How many buckets there are.
pub const BUCKETS: usize = 8192;

// The places of a bucket are a chain. `heads` has for each bucket the place entered last, plus one, and `earlier` for each place the one entered
// before it; 0 where there is none. It is large: it is made once, and lent.
#[derive(Drop)]
pub struct Chains {
    heads: [u32; BUCKETS],
    earlier: [u16; words::LIMIT],
}

impl Chains {
    // No place is entered.
    pub fn new() -> Self
        ensures { (result.heads ≡ replicate buckets 0) × (result.earlier ≡ replicate limit 0) }
    {
        Chains {
            heads: [0; BUCKETS],
            earlier: [0; words::LIMIT],
        }
    }

    // The place of bucket b that was entered last.
    pub fn last(&self, b: usize) -> Option<usize>
        requires { b < buckets }
        ensures { entry result ≡ get_or self.now.heads b 0 }
    {
        words::word(&self.heads, b).checked_sub(1)
    }

    // The place that was entered before place c in its bucket.
    pub fn before(&self, c: usize) -> Option<usize>
        requires { c < limit }
        ensures { entry result ≡ get_or self.now.earlier c 0 }
    {
        digests::number(&self.earlier, c).checked_sub(1)
    }

    // Place k becomes the last of bucket b.
    pub fn enter(&mut self, b: usize, k: usize)
        requires room { (b < buckets) × (k < limit) }
        requires low { get_or self.old.heads b 0 ≤ k }
        ensures { (self.new.heads ≡ set self.old.heads b (k + 1))
            × (self.new.earlier ≡ set self.old.earlier k (get_or self.old.heads b 0)) }
    {
        enter(&mut self.heads, &mut self.earlier, b, k);
    }
}

// The same on the two tables: `heads` has for each bucket the place entered last, plus one, and `earlier` for each place the one entered before it,
// plus one; 0 where there is none.
pub fn enter(heads: &mut [u32], earlier: &mut [u16], b: usize, k: usize)
    requires room { (b < length heads.old) × (k < length earlier.old) × (k < limit) }
    requires low { get_or heads.old b 0 ≤ k }
    ensures { (heads.new ≡ set heads.old b (k + 1))
        × (earlier.new ≡ set earlier.old k (get_or heads.old b 0)) }
{
    earlier[k] = heads[b] as u16;
    heads[b] = (k + 1) as u32;
}

// ---- keys ----

// The digest of a term that is no bracket.
#[tactic(auto, using(crate::specs::KeyLaws::symbol_keys), unfolding(crate::specs::Digest::more, crate::specs::Digest::digest_from))]
fn symbol_digest(names: &[u8], base: usize, t: Term) -> usize
    requires { (base < prime) × Readable names.now t }
    ensures { result ≡ symbol_key base t.kind names.now (as_term t) }
{
    match TermKind::try_from(t.kind) {
        Ok(TermKind::Identifier) => digests::digest_text(&names[t.a..t.a + t.b], base, false),
        Ok(TermKind::Number) => digests::digest_text(&names[t.a..t.a + t.b], base, true),
        _ => digests::mix(
            base,
            digests::mix(
                base,
                digests::mix(base, digests::mix(base, 0, t.a), t.b),
                t.c,
            ),
            t.d,
        ),
    }
}

// The digest of a term, the terms below it having their numbers.
#[tactic(auto, using(crate::specs::KeyLaws::key_bracket, crate::specs::KeyLaws::key_symbol, crate::specs::StoreLaws::digests_below))]
fn term_digest(names: &[u8], numbers: &[u16], marks: &[u32], base: usize, t: Term) -> usize
    requires readable { (base < prime) × Readable names.now t }
    requires below { let end = t.a + t.b in
        (t.kind ≡ bracket_kind → (end ≤ length numbers.now) × (end ≤ limit) × Marked base numbers.now marks.now end) }
    ensures { result ≡ term_key base t.kind names.now numbers.now (as_term t) }
{
    if t.is(TermKind::Bracket) {
        return digests::mix(
            base,
            digests::digest_part(numbers, marks, base, t.a, t.b),
            t.b,
        );
    }
    symbol_digest(names, base, t)
}

// The bucket of a term, the terms below it having their numbers. Equal terms have one bucket. The last number of a digest counts for itself alone, so
// one more is added: terms that differ in the upper bits of their last word would all have one bucket.
fn bucket_of(names: &[u8], numbers: &[u16], marks: &[u32], base: usize, t: Term) -> usize
    requires readable { (base < prime) × Readable names.now t }
    requires below { let end = t.a + t.b in
        (t.kind ≡ bracket_kind → (end ≤ length numbers.now) × (end ≤ limit) × Marked base numbers.now marks.now end) }
    ensures { result ≡ key_of base names.now numbers.now (as_term t) }
{
    digests::mix(base, term_digest(names, numbers, marks, base, t), 0) % BUCKETS
}

// ---- comparing by numbers ----

// How many numbers are compared at a time.
const BLOCK: usize = 64;

// Whether the n numbers from s on are those from p on. All are read, whatever is found: so the compiler compares several at once, in half the time that
// comparing two slices by == takes here.
fn all_same(numbers: &[u16], s: usize, p: usize, n: usize) -> bool
    requires { (s + n ≤ length numbers.now) × (p + n ≤ length numbers.now) }
    ensures { result ≡ true → Same numbers.now s p n }
{
    let mut same = true;
    for i in 0..n {
        if numbers[s + i] != numbers[p + i] {
            same = false;
        }
    }
    same
}

// How many of the n numbers from s on are those from p on, the first `from` of them being so.
fn agree_from(numbers: &[u16], s: usize, p: usize, n: usize, from: usize) -> usize
    requires room { (s + n ≤ length numbers.now) × (p + n ≤ length numbers.now) }
    requires begun { (from ≤ n) × Same numbers.now s p from }
    ensures { Agree numbers.now s p n result }
{
    for k in from..n {
        if numbers[s + k] != numbers[p + k] {
            return k;
        }
    }
    n
}

// How many of the n numbers from s on are those from p on, up to the first that is not.
pub fn agree(numbers: &[u16], s: usize, p: usize, n: usize) -> usize
    requires { (s + n ≤ length numbers.now) × (p + n ≤ length numbers.now) }
    ensures { Agree numbers.now s p n result }
{
    let blocks = n / BLOCK;
    for block in 0..blocks {
        let k = block * BLOCK;
        if !all_same(numbers, s + k, p + k, BLOCK) {
            return agree_from(numbers, s, p, n, k);
        }
    }
    agree_from(numbers, s, p, n, blocks * BLOCK)
}

// So many numbers read before two runs differ cost as much as a look at one more place. Windows of a text can have long beginnings in common at any base,
// so numbering anew would not help there.
const READ: usize = 1024;

// What it took to tell two runs apart, by the numbers of their terms; none if they are equal.
fn runs_apart(numbers: &[u16], first: Run, second: Run) -> Option<usize>
    requires { (first.start + first.len ≤ length numbers.now) × (second.start + second.len ≤ length numbers.now) }
    ensures { (IfSome result (λ cost. cost ≤ 1 + first.len))
        × ((names w : List ℕ) (used k : ℕ) → Numbers names w used k numbers.now
        → first.start + first.len ≤ k → second.start + second.len ≤ k → k ≤ used
        → is_none result ≡ spec_equal_runs names w used first.start first.len second.start second.len) }
{
    if first.len != second.len {
        return Some(1);
    }
    if first.start == second.start {
        return None;
    }
    let same = agree(numbers, first.start, second.start, first.len);
    if same == first.len {
        return None;
    }
    Some(1 + same / READ)
}

// Whether two runs are equal, by the numbers of their terms.
pub fn equal_numbered(numbers: &[u16], first: Run, second: Run) -> bool
    requires { (first.start + first.len ≤ length numbers.now) × (second.start + second.len ≤ length numbers.now) }
    ensures { (names w : List ℕ) (used k : ℕ) → Numbers names w used k numbers.now
        → first.start + first.len ≤ k → second.start + second.len ≤ k → k ≤ used
        → result ≡ spec_equal_runs names w used first.start first.len second.start second.len }
{
    runs_apart(numbers, first, second).is_none()
}

// What it took to tell terms c and k apart, the terms below them having their numbers; none if they are equal.
#[tactic(auto, using(crate::specs::StoreLaws::two_terms))]
fn apart_above(store: &Store, numbers: &[u16], c: usize, k: usize) -> Option<usize>
    requires { (c < k) × (k < store.now.used) × Numbered store.now k numbers.now }
    ensures { (IfSome result (λ cost. cost ≤ limit)) × (is_none result ≡ terms_equal store.now c k) }
{
    let t = words::get::<Term>(store.terms, c);
    let u = words::get::<Term>(store.terms, k);
    if t.kind != u.kind {
        return Some(1);
    }
    if t.is(TermKind::Bracket) {
        return runs_apart(numbers, t.contents(), u.contents());
    }
    if value::equal_symbols(store.names, t, u) {
        return None;
    }
    Some(1)
}

// ---- numbering ----

// The place where an equal term was found, if there is one, and what looking at others took.
#[derive(Clone, Copy)]
struct Found {
    place: Option<usize>,
    cost: usize,
}

// A term that is equal to term k, which belongs to bucket b.
fn find_equal(store: &Store, numbers: &[u16], chains: &Chains, b: usize, k: usize) -> Found
    requires { (base : ℕ) × (b < buckets) × Sought base store.now numbers.now chains.now k (get_or chains.now.heads b 0) }
    ensures { (result.cost ≤ k * limit) × PlacedIn store.now numbers.now k (entry result.place) }
{
    let mut cost = 0;
    let mut at = chains.last(b);
    while let Some(c) = at {
        match apart_above(store, numbers, c, k) {
            None => {
                return Found {
                    place: Some(c),
                    cost,
                };
            }
            Some(took) => {
                cost += took;
            }
        }
        at = chains.before(c);
    }
    Found { place: None, cost }
}

// A term's number, and what looking for it took in vain.
#[derive(Clone, Copy)]
struct Number {
    number: usize,
    cost: usize,
}

// The number of term k, the terms below it having theirs. A term that no other is equal to is entered.
#[tactic(auto, using(crate::specs::StoreLaws::two_terms, crate::proofs::TablesLaws::key_low))]
fn number_of(
    store: &Store,
    numbers: &[u16],
    marks: &[u32],
    chains: &mut Chains,
    base: usize,
    k: usize,
) -> Number
    requires marked { (base < prime) × Marked base numbers.now marks.now k }
    requires tables { (k < store.now.used) × TablesOf base store.now k numbers.now chains.old }
    ensures { (result.number ≤ k)
        × (result.cost ≤ limit * limit)
        × TablesOf base store.now (k + 1) (set numbers.now k result.number) chains.new }
{
    let t = words::get::<Term>(store.terms, k);
    let b = bucket_of(store.names, numbers, marks, base, t);
    let found = find_equal(store, numbers, chains, b, k);
    match found.place {
        Some(c) => Number {
            number: c,
            cost: found.cost,
        },
        None => {
            chains.enter(b, k);
            Number {
                number: k,
                cost: found.cost,
            }
        }
    }
}

// How terms are numbered: by digests at this base, and up to this cost of looking in vain, or at any cost.
#[derive(Clone, Copy)]
struct Way {
    base: usize,
    most: Option<usize>,
}

// Every used term gets its number, with tables that are lent empty. The answer is whether all have theirs: it ends before where the cost is too much.
fn number_with(
    store: &Store,
    way: Way,
    numbers: &mut [u16],
    marks: &mut [u32],
    chains: &mut Chains,
) -> bool
    requires room { (store.now.used ≤ length numbers.old) × (way.base < prime) }
    requires marks { (limit / stride < length marks.old) × Marked way.base numbers.old marks.old 0 }
    requires tables { TablesOf way.base store.now 0 numbers.old chains.old }
    ensures { let used = store.now.used in
        (result ≡ true → Numbered store.now used numbers.new)
        × (way.most ≡ None → result ≡ true)
        × (drop used numbers.new ≡ drop used numbers.old)
        × (length numbers.new ≡ length numbers.old) }
{
    let mut sum = 0;
    let mut cost = 0;
    for k in 0..store.used {
        let got = number_of(store, numbers, marks, chains, way.base, k);
        numbers[k] = got.number as u16;
        sum = digests::mix(way.base, sum, got.number);
        cost += got.cost;
        if let Some(most) = way.most {
            if most < cost {
                return false;
            }
        }
        if (k + 1) % digests::STRIDE == 0 {
            words::set_word(marks, (k + 1) / digests::STRIDE, sum);
        }
    }
    true
}

// Every used term gets its number, or the answer is no. The tables take 168 KB of stack.
fn number_within(store: &Store, way: Way, numbers: &mut [u16]) -> bool
    requires { (store.now.used ≤ length numbers.old) × (way.base < prime) }
    ensures { let used = store.now.used in
        (result ≡ true → Numbered store.now used numbers.new)
        × (way.most ≡ None → result ≡ true)
        × (drop used numbers.new ≡ drop used numbers.old)
        × (length numbers.new ≡ length numbers.old) }
{
    let mut marks = [0u32; digests::MARKS];
    let mut chains = Chains::new();
    number_with(store, way, numbers, &mut marks, &mut chains)
}

// How many bases are tried before any cost is allowed. A store can be made slow for one base and for some more: an unknown has 98 bits, and each base at
// which it is to be in one bucket with others takes 13 of them.
const TRIES: usize = 8;

// The cost up to which a base is kept: eight times that of terms that all differ and are spread over the buckets.
const MOST: usize = 32 * words::LIMIT;

// Every used term gets its number.
pub fn number_terms(store: &Store, numbers: &mut [u16])
    requires { store.now.used ≤ length numbers.old }
    ensures { let used = store.now.used in
        Numbered store.now used numbers.new
        × (drop used numbers.new ≡ drop used numbers.old)
        × (length numbers.new ≡ length numbers.old) }
{
    let mut base = digests::BASE;
    for _ in 0..TRIES {
        let way = Way {
            base,
            most: Some(MOST),
        };
        if number_within(store, way, numbers) {
            return;
        }
        base = base * digests::BASE % digests::PRIME;
    }
    number_within(store, Way { base, most: None }, numbers);
}
