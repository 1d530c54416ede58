// Writes the text of a request, seven lines for sixteen words (rule 11.3), at the front of the room that is lent. What stands after the text stays.
#![tactic(auto)]

ghost use Rattle.std.specs.Prelude.{◌≡◌, ◌≤◌, length};
ghost use Rattle.lines.specs.Adds.{Adds, Room};
ghost use Rattle.lines.specs.Onto.{Wrote};
ghost use Rattle.model.specs.Request.Words.{name_count, request_of, request_words};
ghost use Rattle.model.specs.Text.Lines.{line};
ghost use Rattle.model.specs.Text.References.{joined};
ghost use Rattle.model.specs.Text.Writing.{Writes, has_text, text_of_words};
ghost use Rattle.names.specs.Refusals.{refused_no, told};
ghost use Rattle.request_writer.specs.Sixteen.{Sixteen};

use lines::putting::Output;
use lines::writing::number_len;
use names::refusal::{Refusal, Refused};
use names::{size, text, word};

// Writes names, joined by dots: the first, and each other after a dot.
fn put_names(out: &mut Output, names: &[u32])
    requires { Room (joined names.now) out.old }
    ensures { Adds (joined names.now) out.old out.new }
{
    let Some((first, others)) = names.split_first() else {
        return;
    };
    out.put_number(*first);
    for name in others {
        out.put_part(*name);
    }
}

// Writes a line: a key with its equals sign, names directly after it in the same bytes, and LF.
fn put_ref(out: &mut Output, key: &[u8], names: &[u32])
    requires { Room (line key.now (joined names.now)) out.old }
    ensures { Adds (line key.now (joined names.now)) out.old out.new }
{
    out.put_bytes(key);
    put_names(out, names);
    out.put_byte(text::LINE_END);
}

// Writes the text of sixteen words, its seven lines one after another.
fn put_text(out: &mut Output, words: &[u32])
    requires { Sixteen words.now × Room (text_of_words words.now) out.old }
    ensures { Adds (text_of_words words.now) out.old out.new }
{
    out.put_line(b"user=", request::requester(words));
    out.put_line(b"op=", request::operation(words));
    put_ref(out, b"ref=", request::first_names(words));
    put_ref(out, b"ref2=", request::second_names(words));
    out.put_line(b"a=", request::a(words));
    out.put_line(b"b=", request::b(words));
    out.put_line(b"c=", request::c(words));
}

// Writes that text at the front of a room, and answers how many bytes it has.
fn write_text(room: &mut [u8], words: &[u32]) -> usize
    requires { Sixteen words.now × (length (text_of_words words.now) ≤ length room.old) }
    ensures { Wrote (text_of_words words.now) room.old room.new result }
{
    let mut out = Output { room, at: 0 };
    put_text(&mut out, words);
    out.at
}

// How many bytes names take, joined by dots: a number and a dot for each, but for one dot.
fn names_len(names: &[u32]) -> usize
    requires { length names.now ≤ name_count }
    ensures { result ≡ length (joined names.now) }
{
    let mut n: usize = 0;
    for name in names {
        n += number_len(*name) + 1;
    }
    n.saturating_sub(1)
}

// How many bytes the text of sixteen words takes: keys and line ends are the same in every text, and values differ.
fn need(words: &[u32]) -> usize
    requires { Sixteen words.now }
    ensures { result ≡ length (text_of_words words.now) }
{
    let names = names_len(request::first_names(words)) + names_len(request::second_names(words));
    let first = number_len(request::requester(words)) + number_len(request::operation(words));
    let last = number_len(request::a(words))
        + (number_len(request::b(words)) + number_len(request::c(words)));
    text::KEY_BYTES + (names + (first + last))
}

// Whether some text has these sixteen words.
fn has_text(words: &[u32]) -> bool
    requires { length words.now ≡ request_words }
    ensures { result ≡ has_text (request_of words.now) }
{
    (request::first_length(words) <= size::NAMES)
        & ((request::second_length(words) <= size::NAMES)
            & (request::names_fit(words, word::FIRST)
                & (request::names_fit(words, word::SECOND) & (request::spare(words) == 0))))
}

// Writes the text of any words at the front of any room and answers how many bytes it has, or refuses and writes nothing. A room for the longest
// text is enough for every text, and then nothing is counted before.
pub fn write(request: &[u32], room: &mut [u8]) -> Result<u32, Refused>
    ensures { Writes request.now room.old (refused_no result) (told result) room.new }
{
    if request.len() != size::REQUEST_WORDS {
        return Err(Refusal::BadLength.into());
    }
    if !has_text(request) {
        return Err(Refusal::BadRequest.into());
    }
    if room.len() < text::TEXT_MOST {
        let n = need(request);
        if room.len() < n {
            return Err(Refused {
                by: Refusal::TooShort,
                number: n as u32,
            });
        }
    }
    let n = write_text(room, request);
    Ok(n as u32)
}
