// Reads numbers and lines at an index of some bytes. Each answer says where reading goes on, or that what was looked for is not there.
ghost use Rattle.std.specs.Prelude.{[], ◌∷◌, ◌≡◌, ◌-◌, ◌≤◌, length};
ghost use Rattle.lines.specs.LineAt.{KeyAt, LineAt};
ghost use Rattle.lines.specs.NumberAt.{DigitsAt, NumberAt};
ghost use Rattle.model.specs.Text.Lines.{line_end};
ghost use Rattle.model.specs.Text.Numbers.{most, zero_byte};

use names::text;

// A number and the index after it. A reader answers None where what it looks for is not there.
#[derive(Clone, Copy, Debug, PartialEq, Eq)]
pub struct Number {
    pub v: u32,
    pub next: usize,
}

// What digits make of a number, and the index after them. Where it is too large, they were read until it was.
struct Digits {
    v: u64,
    end: usize,
}

// At least so many bytes follow a key: a digit and LF.
const REST_LEAST: usize = 2;

// The digit that a byte is.
fn digit(b: u8) -> u64
    requires { zero_byte ≤ b }
    ensures { result ≡ b - zero_byte }
{
    u64::from(b) - u64::from(text::DIGIT_0)
}

// The answer for a number that fits.
fn fitting(v: u64, next: usize) -> Number
    requires { v ≤ most }
    ensures { result ≡ record { v = v; next = next } }
{
    Number { v: v as u32, next }
}

// Reads on from an index, where a number has begun: as far as its digits go, or until it is too large. Both ways out answer alike, and the caller tells them
// apart: where one of them answered `None`, the compiler would make that ready at every digit.
fn read_digits(s: &[u8], at: usize, begun: u64) -> Digits
    requires { (at ≤ length s.now) × (begun ≤ most) }
    ensures { DigitsAt s.now at begun result }
{
    let mut v = begun;
    for i in at..s.len() {
        let b = s[i];
        if !b.is_ascii_digit() {
            return Digits { v, end: i };
        }
        v = v * 10 + digit(b);
        if text::NUMBER_MOST < v {
            return Digits { v, end: i };
        }
    }
    Digits { v, end: s.len() }
}

// The number at an index: 0 alone, or digits of which the first is not 0. It is read as far as its digits go, and must fit in 32 bits.
pub fn read_number(s: &[u8], at: usize) -> Option<Number>
    requires { at ≤ length s.now }
    ensures { NumberAt s.now at result }
{
    let &first = s.get(at)?;
    if !first.is_ascii_digit() {
        return None;
    }
    if first == text::DIGIT_0 {
        return Some(fitting(0, at + 1));
    }
    let Digits { v, end } = read_digits(s, at + 1, digit(first));
    if text::NUMBER_MOST < v {
        return None;
    }
    Some(fitting(v, end))
}

// The index after a key that stands at an index. All its bytes are compared, with no way out between them.
pub fn read_key(s: &[u8], at: usize, key: &[u8]) -> Option<usize>
    requires { at ≤ length s.now }
    ensures { KeyAt s.now at key.now result }
{
    if s.len() - at < key.len() {
        return None;
    }
    let mut same = true;
    for i in 0..key.len() {
        same = same & (s[at + i] == key[i]);
    }
    if !same {
        return None;
    }
    Some(at + key.len())
}

// The index after an LF that stands at an index.
pub fn read_end(s: &[u8], at: usize) -> Option<usize>
    requires { at ≤ length s.now }
    ensures { KeyAt s.now at (line_end ∷ []) result }
{
    let &b = s.get(at)?;
    if b != text::LINE_END {
        return None;
    }
    Some(at + 1)
}

// The rest of a line whose key was read already: a number of any length, and LF.
fn read_rest(s: &[u8], at: usize) -> Option<Number>
    requires { at ≤ length s.now }
    ensures { LineAt s.now at [] result }
{
    let Number { v, next } = read_number(s, at)?;
    let next = read_end(s, next)?;
    Some(Number { v, next })
}

// The line at an index: the key, a number and LF. The answer's index is that after the line. Most numbers have one digit, and are read here.
pub fn read_line(s: &[u8], at: usize, key: &[u8]) -> Option<Number>
    requires { at ≤ length s.now }
    ensures { LineAt s.now at key.now result }
{
    if s.len() - at < key.len() + REST_LEAST {
        return None;
    }
    let i = read_key(s, at, key)?;
    let b = s[i];
    if !b.is_ascii_digit() {
        return None;
    }
    if s[i + 1] != text::LINE_END {
        return read_rest(s, i);
    }
    Some(fitting(digit(b), i + REST_LEAST))
}
