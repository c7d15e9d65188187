// Whether no two of many bindings have one name. A name is looked for among those of its bucket, which its digest gives. Names can be chosen so that
// many are in one bucket; what looking in vain takes is counted, and where it is too much, all are looked up anew with another digest.
ghost use Rattle.std.specs.Prelude.{◌≡◌, ℕ, ◌+◌, ◌<◌, ◌≤◌, IfSome, is_some, length};
ghost use Rattle.term_spec.specs.Term.{limit};
ghost use Rattle.numbers.specs.Digest.{prime};
ghost use Rattle.pattern.specs.Records.{bindings_in, BindingTexts};
ghost use Rattle.pattern.specs.Apart.{Told, Tells, spec_bucket_of, bucket_in, NameTables, NameBefore, NameNew, Apart, Repeats};

use crate::Name;
use items::Binding;
use numbers::Chains;

// ---- looking up one name ----

// The bucket of a name, by its text's digest at a base. Names that are one have one bucket.
#[tactic(auto, using(term_spec::proofs::ListLaws::part_slice), unfolding(crate::specs::Apart::spec_bucket_of))]
fn bucket_of(names: &[u8], base: usize, o: usize, n: usize) -> usize
    requires { (base < prime) × (o + n ≤ length names.now) }
    ensures { result ≡ spec_bucket_of base names.now o n }
{
    numbers::digests::digest_text(&names[o..o + n], base, false) % numbers::BUCKETS
}

// What it took to tell binding k's name from all those that are entered in the chain of its bucket: how many these are; none if it is one of them.
fn name_apart(
    names: &[u8],
    bindings: &[u32],
    chains: &Chains,
    bucket: usize,
    k: usize,
) -> Option<usize>
    requires here { k < bindings_in bindings.now }
    requires tables { (base : ℕ) × (bucket ≡ bucket_in base names.now bindings.now k)
        × NameTables base names.now bindings.now k chains.now.heads chains.now.earlier }
    ensures { let text = names.now in
        let words = bindings.now in
        (IfSome result (λ cost. cost ≤ limit)) × Told (NameNew text words k) (NameBefore text words k) (is_some result) }
{
    let b = words::get::<Binding>(bindings, k);
    let mut cost = 0;
    let mut at = chains.last(bucket);
    while let Some(i) = at {
        let c = words::get::<Binding>(bindings, i);
        if crate::same_name(names, Name::of_binding(b), Name::of_binding(c)) {
            return None;
        }
        cost += 1;
        at = chains.before(i);
    }
    Some(cost)
}

// ---- looking up all of them ----

// How names are looked up: by digests at this base, and free to take any cost or not.
#[derive(Clone, Copy)]
struct Way {
    base: usize,
    free: bool,
}

// What looking up all bindings tells: none has the name of one before it that is entered, or one has; nothing where it was given up.
#[derive(Clone, Copy)]
enum Outcome {
    NoneRepeats,
    OneRepeats,
    GivenUp,
}

// The cost up to which a base is kept, and what each binding that was looked up adds to it. Where the names are spread over the buckets, a chain has
// at most some 8 places, 65,536 being entered.
const MOST: usize = 8 * words::LIMIT;

const MOST_EACH: usize = 16;

// Whether no binding has the name of one before it that is among the first 65,536, with tables that are lent empty. Those are entered.
fn first_apart_with(names: &[u8], bindings: &[u32], way: Way, chains: &mut Chains) -> Outcome
    requires { (way.base < prime) × NameTables way.base names.now bindings.now 0 chains.old.heads chains.old.earlier }
    ensures { let text = names.now in
        let words = bindings.now in
        Tells (Apart text words limit (bindings_in words)) (Repeats text words) way.free result }
{
    let n = bindings.len() / items::BINDING_WIDTH;
    let mut cost = 0;
    for k in 0..n {
        let b = words::get::<Binding>(bindings, k);
        let bucket = bucket_of(names, way.base, b.offset, b.size);
        let Some(took) = name_apart(names, bindings, chains, bucket, k) else {
            return Outcome::OneRepeats;
        };
        if !way.free {
            cost += took;
            if MOST + MOST_EACH * k < cost {
                return Outcome::GivenUp;
            }
        }
        if k < words::LIMIT {
            chains.enter(bucket, k);
        }
    }
    Outcome::NoneRepeats
}

// Whether no binding has the name of one before it that is among the first 65,536. The tables take 160 KB of stack, which
// callers that never come here do not need.
#[inline(never)]
fn first_apart(names: &[u8], bindings: &[u32], way: Way) -> Outcome
    requires { (way.base < prime) × BindingTexts names.now bindings.now (bindings_in bindings.now) }
    ensures { let text = names.now in
        let words = bindings.now in
        Tells (Apart text words limit (bindings_in words)) (Repeats text words) way.free result }
{
    let mut chains = Chains::new();
    first_apart_with(names, bindings, way, &mut chains)
}

// How many bases are tried before any cost is allowed. Names can be chosen for some bases more, but each takes 13 bits of every name: for five of them a
// name needs bytes of its own, and as many as 65,536 bytes have room for are compared with each other in a tenth of a second.
const TRIES: usize = 4;

// Whether no binding has the name of one before it that is among the first 65,536, at the first base that tells it.
fn first_told(names: &[u8], bindings: &[u32]) -> bool
    requires { BindingTexts names.now bindings.now (bindings_in bindings.now) }
    ensures { let text = names.now in
        let words = bindings.now in
        Told (Apart text words limit (bindings_in words)) (Repeats text words) result }
{
    let mut base = numbers::digests::BASE;
    for _ in 0..TRIES {
        match first_apart(names, bindings, Way { base, free: false }) {
            Outcome::NoneRepeats => {
                return true;
            }
            Outcome::OneRepeats => {
                return false;
            }
            Outcome::GivenUp => {
                base = base * numbers::digests::BASE % numbers::digests::PRIME;
            }
        }
    }
    matches!(
        first_apart(names, bindings, Way { base, free: true }),
        Outcome::NoneRepeats
    )
}

// Whether no two bindings have one name. The tables have room for 65,536 of them, so each pass enters as many, and looks for all that follow.
pub fn names_apart(names: &[u8], bindings: &[u32]) -> bool
    requires { BindingTexts names.now bindings.now (bindings_in bindings.now) }
    ensures { let text = names.now in
        let words = bindings.now in
        Told (Apart text words (bindings_in words) (bindings_in words)) (Repeats text words) result }
{
    let n = bindings.len() / items::BINDING_WIDTH;
    for pass in 0..n.div_ceil(words::LIMIT) {
        let from = pass * words::LIMIT;
        let start = from * items::BINDING_WIDTH;
        if !first_told(names, &bindings[start..]) {
            return false;
        }
    }
    true
}
