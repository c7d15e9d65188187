// Texts of lines and tokens, for the programs that read their cases, and the files and arguments that they come from.
#![tactic(auto)]

ghost use Rattle.std.specs.Prelude.{◌≡◌, ◌<◌, ◌≤◌, IfOk, IfSome, MatchOption, IsUtf8, length, take};
ghost use Rattle.std.specs.Iterator.{at_most};
ghost use Rattle.lines.specs.Decimal.{decimal_of};
ghost use Rattle.lines.specs.Tokens.{TokenOf};

use std::io::Read;
use std::rt::{Env, Files};
use std::{fs, io, str};

// The first n items; all where there are fewer.
pub fn first<T>(items: &[T], n: usize) -> &[T]
    ensures { result.now ≡ take n items.now }
{
    items.get(..n).unwrap_or(items)
}

// The tokens of a line: quoted texts, and what stands between spaces. What follows a # at the start of a token is a comment.
#[derive(Drop)]
pub struct Tokens<'a> {
    rest: &'a [u8],
}

impl<'a> Tokens<'a> {
    pub fn new(line: &'a [u8]) -> Tokens<'a>
        ensures { result.rest.now ≡ line.now }
    {
        Tokens { rest: line }
    }
}

impl<'a> Iterator for Tokens<'a> {
    type Item = &'a [u8];

    // A token is not empty and stands in what was left; what is left then begins where it ends.
    ghost next_gives = { λ old result new.
        MatchOption result (new.rest.now ≡ old.rest.now) (λ token. TokenOf old.rest.now token.now new.rest.now) };

    ghost remaining = { λ tokens. at_most (length tokens.rest.now) };

    fn next(&mut self) -> Option<&'a [u8]> {
        let start = self
            .rest
            .iter()
            .position(|byte| *byte != b' ' && *byte != b'\n')?;
        if self.rest[start] == b'#' {
            return None;
        }
        let end = token_end(self.rest, start);
        let token = &self.rest[start..end];
        self.rest = &self.rest[end..];
        Some(token)
    }
}

// Where the token that starts at `at` ends: past its second quote, or before a space. A space and an end of line are tokens of their own, and so is a
// comment; any other token ends with its line.
pub fn token_end(line: &[u8], at: usize) -> usize
    requires { at < length line.now }
    ensures { (at < result) × (result ≤ length line.now) }
{
    let first = line[at];
    if first == b' ' || first == b'\n' {
        return at + 1;
    }
    if first == b'#' {
        return line.len();
    }
    let quoted = first == b'\'' || first == b'"';
    let last = if quoted { first } else { b' ' };
    match line[at + 1..]
        .iter()
        .position(|byte| *byte == last || *byte == b'\n')
    {
        None => line.len(),
        Some(i) => if quoted && line[at + 1 + i] == last {
            at + i + 2
        } else {
            at + i + 1
        },
    }
}

// A number that goes on past this is too large.
const LARGEST: usize = 100_000_000_000;

// A decimal number, if the text is one and not too large. An empty text is 0.
#[tactic(auto, using(crate::specs::Digits::digit_read, crate::specs::Digits::no_digit, crate::specs::Digits::too_large, crate::specs::Digits::all_read))]
pub fn decimal(text: &[u8]) -> Option<usize>
    ensures { result ≡ decimal_of text.now }
{
    let mut number: usize = 0;
    for byte in text {
        if !byte.is_ascii_digit() || LARGEST < number {
            return None;
        }
        number = number * 10 + usize::from(*byte - b'0');
    }
    Some(number)
}

// The bytes of argument i, at the start of the buffer; none where there is no such argument, or no room for it.
pub fn arg<'a>(rt: &impl Env, i: usize, buffer: &'a mut [u8]) -> &'a [u8]
    ensures { length result.now ≤ length buffer.old }
{
    match rt.arg(i, buffer) {
        Ok(n) => &buffer[..n],
        Err(_) => &[],
    }
}

// None where the file cannot be opened, or where its path is no text.
pub fn open<R: Files>(rt: &R, path: &[u8]) -> Option<R::File>
    ensures { IfSome result (λ _. IsUtf8 path.now) }
{
    fs::open(rt, str::from_utf8(path).ok()?).ok()
}

// Reads until the buffer is full or nothing is left, and says how many bytes were read.
pub fn read_full(file: &mut impl Read, buffer: &mut [u8]) -> io::Result<usize>
    ensures { IfOk result (λ n. n ≤ length buffer.new) }
{
    let mut filled = 0;
    while filled < buffer.len() {
        let n = file.read(&mut buffer[filled..])?;
        if n == 0 {
            break;
        }
        filled += n;
    }
    Ok(filled)
}
