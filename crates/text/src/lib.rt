// Texts: what the bytes of a name spell, and comparing them. `lower` and `same_numbers` alone know how a letter is lowered and how two numbers compare.
#![tactic(auto)]

ghost use Rattle.std.specs.Prelude.{◌≡◌, true, false, ◌+◌, ◌<◌, ◌≤◌, length};
ghost use Rattle.std.specs.List.{list_all};
ghost use Rattle.term_spec.specs.Text.{spec_is_name_byte, spec_is_digit, is_zero, lower as lowered, text_rule};
ghost use Rattle.text.specs.Kinds.{text_kind, SpellsAs};
ghost use Rattle.text.specs.Texts.{spelling, texts_equal, identifiers_equal, numbers_equal};

// A letter, a digit, `-` or `_`.
#[tactic(auto, unfolding(term_spec::specs::Text::spec_is_name_byte, term_spec::specs::Text::spec_is_letter, term_spec::specs::Text::spec_is_digit))]
fn is_name_byte(c: u8) -> bool
    ensures { result ≡ spec_is_name_byte c }
{
    c.is_ascii_alphanumeric() || matches!(c, b'-' | b'_')
}

// Whether the bytes are all of names.
fn all_name_bytes(text: &[u8]) -> bool
    ensures { result ≡ list_all spec_is_name_byte text.now }
{
    text.iter().all(|&c| is_name_byte(c))
}

// Whether the bytes are all digits.
#[tactic(auto, unfolding(term_spec::specs::Text::spec_is_digit))]
fn all_digits(text: &[u8]) -> bool
    ensures { result ≡ list_all spec_is_digit text.now }
{
    text.iter().all(|c| c.is_ascii_digit())
}

// What a text spells: an identifier, a number, or a variable's name. The first two have the numbers of the terms with such texts.
#[derive(Clone, Copy, Debug, PartialEq, Eq)]
pub enum TextKind {
    Identifier = 1,
    Number = 2,
    Name = 3,
}

impl TextKind {
    // Its number.
    pub fn number(self) -> usize
        ensures { result ≡ text_kind self }
    {
        self as usize
    }
}

// Any other number means a variable's name.
impl From<usize> for TextKind {
    ghost from_gives = { SpellsAs };

    #[tactic(auto, using(crate::specs::TextLaws::spells_other))]
    fn from(number: usize) -> Self {
        match number {
            1 => TextKind::Identifier,
            2 => TextKind::Number,
            _ => TextKind::Name,
        }
    }
}

// The most bytes of a text.
const TEXT_LIMIT: usize = 255;

// Whether a text spells what its kind asks.
#[tactic(auto, using(crate::specs::TextLaws::spellings), unfolding(term_spec::specs::Text::spec_is_letter))]
fn spells(text: &[u8], kind: TextKind) -> bool
    ensures { result ≡ spelling (text_kind kind) text.now }
{
    match kind {
        TextKind::Identifier => match text {
            [first, rest @ ..] => first.is_ascii_alphabetic() && all_name_bytes(rest),
            [] => false,
        },
        TextKind::Number => all_digits(text),
        TextKind::Name => all_name_bytes(text),
    }
}

// The rule of a text: 1 to 255 bytes of the names, spelled as its kind asks.
#[tactic(auto, using(crate::specs::TextLaws::rule_tests))]
pub fn text_ok(names: &[u8], kind: usize, o: usize, n: usize) -> bool
    ensures { result ≡ text_rule (spelling kind) names.now o n }
{
    matches!(n, 1..=TEXT_LIMIT)
        && n <= names.len()
        && o <= names.len() - n
        && spells(&names[o..o + n], TextKind::from(kind))
}

// How many bytes there are.
const BYTES: usize = 256;

// The printed character chart with its capitals lowered: sixteen bytes to a line, each at its own place.
static LOWERED: [u8; BYTES] = *b"\
    \x00\x01\x02\x03\x04\x05\x06\x07\x08\x09\x0a\x0b\x0c\x0d\x0e\x0f\
    \x10\x11\x12\x13\x14\x15\x16\x17\x18\x19\x1a\x1b\x1c\x1d\x1e\x1f\
    \x20!\"#$%&'()*+,-./\
    0123456789:;<=>?\
    @abcdefghijklmno\
    pqrstuvwxyz[\\]^_\
    `abcdefghijklmno\
    pqrstuvwxyz{|}~\x7f\
    \x80\x81\x82\x83\x84\x85\x86\x87\x88\x89\x8a\x8b\x8c\x8d\x8e\x8f\
    \x90\x91\x92\x93\x94\x95\x96\x97\x98\x99\x9a\x9b\x9c\x9d\x9e\x9f\
    \xa0\xa1\xa2\xa3\xa4\xa5\xa6\xa7\xa8\xa9\xaa\xab\xac\xad\xae\xaf\
    \xb0\xb1\xb2\xb3\xb4\xb5\xb6\xb7\xb8\xb9\xba\xbb\xbc\xbd\xbe\xbf\
    \xc0\xc1\xc2\xc3\xc4\xc5\xc6\xc7\xc8\xc9\xca\xcb\xcc\xcd\xce\xcf\
    \xd0\xd1\xd2\xd3\xd4\xd5\xd6\xd7\xd8\xd9\xda\xdb\xdc\xdd\xde\xdf\
    \xe0\xe1\xe2\xe3\xe4\xe5\xe6\xe7\xe8\xe9\xea\xeb\xec\xed\xee\xef\
    \xf0\xf1\xf2\xf3\xf4\xf5\xf6\xf7\xf8\xf9\xfa\xfb\xfc\xfd\xfe\xff";

// A byte with an ASCII capital lowered, as the chart has it.
fn lower(c: u8) -> u8
    ensures { result ≡ lowered c }
{
    LOWERED[c as usize]
}

// Whether two texts of one length are alike with ASCII case ignored.
fn equal_lowered(a: &[u8], b: &[u8]) -> bool
    requires { length a.now ≡ length b.now }
    ensures { result ≡ texts_equal true a.now b.now }
{
    a.iter().zip(b).all(|(&c, &d)| lower(c) == lower(d))
}

// Whether two identifiers are equal: ASCII case is ignored. Copied into the comparison of symbols, it would have registers saved for chars too.
#[inline(never)]
#[tactic(auto, using(crate::specs::TextLaws::identifier_tests))]
pub fn same_identifiers(a: &[u8], b: &[u8]) -> bool
    ensures { result ≡ identifiers_equal a.now b.now }
{
    // Most that are equal are spelled alike, and need no chart.
    a.len() == b.len() && (a == b || equal_lowered(a, b))
}

// Whether the bytes are all zeros.
fn all_zeros(text: &[u8]) -> bool
    ensures { result ≡ list_all is_zero text.now }
{
    text.iter().all(|&c| c == b'0')
}

// Whether two numbers of different lengths are equal: the longer has zeros, and then the other's digits. A last digit is no leading zero, so no text is
// equal to an empty one. It stays out of the loops that compare, and they copy only `same_numbers`.
#[inline(never)]
#[tactic(auto, using(crate::specs::NumberLaws::numbers_stripped, crate::specs::TextLaws::bytes_same, std::proofs::lemmas::List::take_all))]
fn same_stripped(long: &[u8], short: &[u8]) -> bool
    requires { length short.now < length long.now }
    ensures { result ≡ numbers_equal long.now short.now }
{
    let (surplus, rest) = long.split_at(long.len() - short.len());
    !short.is_empty() && all_zeros(surplus) && rest == short
}

// Whether two numbers are equal: leading zeros do not count. Not copied into the comparison of symbols either.
#[inline(never)]
#[tactic(auto, using(crate::specs::NumberLaws::numbers_alike, crate::specs::NumberLaws::numbers_sym, crate::specs::TextLaws::bytes_same))]
pub fn same_numbers(a: &[u8], b: &[u8]) -> bool
    ensures { result ≡ numbers_equal a.now b.now }
{
    if a.len() == b.len() {
        a == b
    } else if b.len() < a.len() {
        same_stripped(a, b)
    } else {
        same_stripped(b, a)
    }
}
