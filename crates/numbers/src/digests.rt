// Digests of lists of numbers: polynomials modulo a prime. They say where to look for what is equal.
ghost use Rattle.std.specs.Prelude.{◌≡◌, map, ◌+◌, ◌%◌, ◌^◌, ◌<◌, ◌≤◌, length, get_or, take, drop};
ghost use Rattle.term_spec.specs.Text.{lower};
ghost use Rattle.term_spec.specs.Term.{limit};
ghost use Rattle.numbers.specs.Digest.{prime, more, digest, digit, counts, Marked};

// A digest is a polynomial of the numbers of a list, modulo a prime: that of a part is had from those of two beginnings.
pub const PRIME: usize = 2147483647;

// The base that is tried first.
pub const BASE: usize = 1103515245;

// The digest of a list with one number more, h being its digest without it.
#[tactic(auto, unfolding(crate::specs::Digest::more))]
pub fn mix(base: usize, h: usize, x: usize) -> usize
    requires { (base < prime) × (h < prime) }
    ensures { result ≡ more base h x }
{
    (h * base + x % PRIME) % PRIME
}

// A byte as identifiers are compared.
#[tactic(auto, unfolding(term_spec::specs::Text::lower))]
fn lowered(b: u8) -> usize
    ensures { result ≡ lower b }
{
    usize::from(b.to_ascii_lowercase())
}

// What a digit counts for: nothing for the digit 0, so that leading zeros change no digest.
fn digit_of(b: u8) -> usize
    ensures { result ≡ digit b }
{
    usize::from(b.saturating_sub(b'0'))
}

// What a byte of a number or of an identifier counts for.
fn counted(digits: bool, b: u8) -> usize
    ensures { result ≡ counts digits b }
{
    if digits { digit_of(b) } else { lowered(b) }
}

// The digest of a text: digits, or the bytes of an identifier, with ASCII case ignored.
pub fn digest_text(text: &[u8], base: usize, digits: bool) -> usize
    requires { base < prime }
    ensures { result ≡ digest base (map (counts digits) text.now) }
{
    let mut h = 0;
    for &b in text {
        h = mix(base, h, counted(digits, b));
    }
    h
}

// A power of the base.
fn power(base: usize, n: usize) -> usize
    requires { base < prime }
    ensures { result ≡ (base ^ n) % prime }
{
    if n == 0 {
        return 1;
    }
    let half = power(base, n / 2);
    let square = half * half % PRIME;
    if n % 2 == 0 {
        return square;
    }
    square * base % PRIME
}

// The digest of every so many first numbers is kept as a mark.
pub const STRIDE: usize = 32;

pub const MARKS: usize = words::LIMIT / STRIDE + 1;

// Number i.
pub fn number(numbers: &[u16], i: usize) -> usize
    requires { i < length numbers.now }
    ensures { result ≡ get_or numbers.now i 0 }
{
    usize::from(numbers[i])
}

// The digest of the first i numbers. Numbers, marks and base are lent one by one: the numbering writes to both arrays between two digests, so a struct
// of the three would be made anew for each and be no plainer.
fn digest_front(numbers: &[u16], marks: &[u32], base: usize, i: usize) -> usize
    requires { (base < prime) × (i ≤ length numbers.now) × Marked base numbers.now marks.now i }
    ensures { result ≡ digest base (take i numbers.now) }
{
    let mark = i / STRIDE;
    let mut h = words::word(marks, mark);
    for j in mark * STRIDE..i {
        h = mix(base, h, number(numbers, j));
    }
    h
}

// The digest of the n numbers from s on.
pub fn digest_part(numbers: &[u16], marks: &[u32], base: usize, s: usize, n: usize) -> usize
    requires { (base < prime) × (s + n ≤ length numbers.now) × (s + n ≤ limit) × Marked base numbers.now marks.now (s + n) }
    ensures { result ≡ digest base (take n (drop s numbers.now)) }
{
    let whole = digest_front(numbers, marks, base, s + n);
    let front = digest_front(numbers, marks, base, s);
    let moved = front * power(base, n) % PRIME;
    (whole + (PRIME - moved)) % PRIME
}
