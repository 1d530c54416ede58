// Reads seven lines at an index of some bytes, or the whole text of a request (rule 11.4). Words are read into a room of the reader's own first. The
// words that it is lent change only where all is well.
#![tactic(auto)]

ghost use Rattle.std.specs.Prelude.{[], ◌≡◌, ◌≤◌, drop, length};
ghost use Rattle.lines.specs.LineAt.{LineAt};
ghost use Rattle.model.specs.Request.Words.{name_count, request_words};
ghost use Rattle.model.specs.Text.Reading.{Reads};
ghost use Rattle.model.specs.Text.References.{name_and, reference};
ghost use Rattle.model.specs.Text.Wording.{c_key, ref2_key, ref_key};
ghost use Rattle.names.specs.Refusals.{refused_no, told_bare};
ghost use Rattle.names.specs.declared.refusal.Refusal.TheVariants.{NotARequest};
ghost use Rattle.request_reader.specs.NamesAt.{NamesIs, further_most};
ghost use Rattle.request_reader.specs.RefAt.{RefAt};
ghost use Rattle.request_reader.specs.Seven.{SevenAt, fresh};

use lines::copying::copy_words;
use lines::reading::{Number, read_end, read_key, read_line, read_number};
use names::refusal::{Refusal, Refused};
use names::{size, text, word};

// How many names there are, and the index after them.
#[derive(Clone, Copy, Debug, PartialEq, Eq)]
pub struct Names {
    pub n: usize,
    pub end: usize,
}

// The first of seven lines that is bad or missing.
#[derive(Clone, Copy, Debug, PartialEq, Eq)]
pub struct BadLine(pub u32);

impl From<BadLine> for Refused {
    ghost from_gives = { λ line x. x ≡ record { by = NotARequest; number = line.0 } };

    fn from(line: BadLine) -> Refused {
        Refused {
            by: Refusal::NotARequest,
            number: line.0,
        }
    }
}

// How many names a reference has at most, and the index of the last of so many.
const NAME_COUNT: usize = size::NAMES as usize;

const LAST_NAME: usize = NAME_COUNT - 1;

// Reads one to four names into the front of the room.
fn first_names(s: &[u8], at: usize, out: &mut [u32]) -> Option<Names>
    requires { (at ≤ length s.now) × (name_count ≤ length out.old) }
    ensures { NamesIs s.now (name_and further_most (drop at s.now)) name_count out.old out.new result }
{
    let mut i = at;
    for k in 0..LAST_NAME {
        let Number { v, next } = read_number(s, i)?;
        out[k] = v;
        match s.get(next) {
            Some(&b) if b == text::DOT => i = next + 1,
            _ => return Some(Names {
                n: k + 1,
                end: next,
            }),
        }
    }
    let Number { v, next } = read_number(s, i)?;
    out[LAST_NAME] = v;
    Some(Names {
        n: NAME_COUNT,
        end: next,
    })
}

// Reads a reference, none to four names, into the front of the room.
fn read_names(s: &[u8], at: usize, out: &mut [u32]) -> Option<Names>
    requires { (at ≤ length s.now) × (name_count ≤ length out.old) }
    ensures { NamesIs s.now (reference (drop at s.now)) name_count out.old out.new result }
{
    match s.get(at) {
        Some(b) if b.is_ascii_digit() => first_names(s, at, out),
        _ => Some(Names { n: 0, end: at }),
    }
}

// Reads the rest of a line whose key was read already: the names and LF. The answer's index is that after the line.
fn read_ref(s: &[u8], at: usize, out: &mut [u32]) -> Option<Names>
    requires { (at ≤ length s.now) × (name_count ≤ length out.old) }
    ensures { RefAt s.now at [] out.old out.new result }
{
    let Names { n, end } = read_names(s, at, out)?;
    let end = read_end(s, end)?;
    Some(Names { n, end })
}

// Reads the line of the first reference. Each key has a function of its own, so that it is compared in place.
fn first_ref(s: &[u8], at: usize, out: &mut [u32]) -> Option<Names>
    requires { (at ≤ length s.now) × (name_count ≤ length out.old) }
    ensures { RefAt s.now at ref_key out.old out.new result }
{
    let i = read_key(s, at, b"ref=")?;
    read_ref(s, i, out)
}

// Reads the line of the second reference.
fn second_ref(s: &[u8], at: usize, out: &mut [u32]) -> Option<Names>
    requires { (at ≤ length s.now) × (name_count ≤ length out.old) }
    ensures { RefAt s.now at ref2_key out.old out.new result }
{
    let i = read_key(s, at, b"ref2=")?;
    read_ref(s, i, out)
}

// Reads the last line.
fn last_line(s: &[u8], at: usize) -> Option<Number>
    requires { at ≤ length s.now }
    ensures { LineAt s.now at c_key result }
{
    read_line(s, at, b"c=")
}

// Reads seven lines at an index into sixteen words that are all zero, and answers the index after them. At a bad line the words are left somehow.
fn fill(s: &[u8], at: usize, w: &mut [u32]) -> Result<usize, BadLine>
    requires { (at ≤ length s.now) × (w.old ≡ fresh) }
    ensures { SevenAt s.now at w.new w.new result }
{
    let Some(Number { v: user, next: s1 }) = read_line(s, at, b"user=") else {
        return Err(BadLine(text::USER_LINE));
    };
    let Some(Number { v: op, next: s2 }) = read_line(s, s1, b"op=") else {
        return Err(BadLine(text::OPERATION_LINE));
    };
    let Some(Names { n, end: s3 }) = first_ref(s, s2, &mut w[word::FIRST_NAMES..word::SECOND])
    else {
        return Err(BadLine(text::FIRST_LINE));
    };
    let Some(Names { n: m, end: s4 }) = second_ref(s, s3, &mut w[word::SECOND_NAMES..word::A])
    else {
        return Err(BadLine(text::SECOND_LINE));
    };
    let Some(Number { v: a, next: s5 }) = read_line(s, s4, b"a=") else {
        return Err(BadLine(text::A_LINE));
    };
    let Some(Number { v: b, next: s6 }) = read_line(s, s5, b"b=") else {
        return Err(BadLine(text::B_LINE));
    };
    let Some(Number { v: c, next: s7 }) = last_line(s, s6) else {
        return Err(BadLine(text::C_LINE));
    };
    w[word::REQUESTER] = user;
    w[word::OPERATION] = op;
    w[word::FIRST] = n as u32;
    w[word::SECOND] = m as u32;
    w[word::A] = a;
    w[word::B] = b;
    w[word::C] = c;
    Ok(s7)
}

// Reads the next seven lines, from an index on, into sixteen words, and answers the index after them. At a bad line the words stay as they were.
pub fn read_seven(s: &[u8], at: usize, w: &mut [u32]) -> Result<usize, BadLine>
    requires { (at ≤ length s.now) × (length w.old ≡ request_words) }
    ensures { SevenAt s.now at w.old w.new result }
{
    let mut room = [0u32; size::REQUEST_WORDS];
    let next = fill(s, at, &mut room)?;
    copy_words(w, &room);
    Ok(next)
}

// Reads the whole text of a request, from any bytes into any room. The room must be sixteen words. A text that is no request is refused with
// the first line that is bad or missing; what follows the seventh line counts as a line more.
pub fn read(text: &[u8], request: &mut [u32]) -> Result<(), Refused>
    ensures { Reads text.now request.old (refused_no result) (told_bare result) request.new }
{
    if request.len() != size::REQUEST_WORDS {
        return Err(Refused::from(Refusal::BadLength));
    }
    let mut room = [0u32; size::REQUEST_WORDS];
    let i = fill(text, 0, &mut room)?;
    if i < text.len() {
        return Err(Refused::from(BadLine(text::LINE_AFTER)));
    }
    copy_words(request, &room);
    Ok(())
}
