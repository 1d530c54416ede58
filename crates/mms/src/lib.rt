// The desk's public calls, and the same in the form for C, which `mms_c` exports. Each takes any words or bytes, and asks nothing of them. An answer
// is a pair: document 01's number, and a count, a need or a line that goes with some of these. The check, the step and the run have no second
// number, and give 0.
#![tactic(auto)]

ghost use Rattle.std.specs.Prelude.{◌≡◌};
ghost use Rattle.names.specs.Refusals.{answer_number, refused_no, told, told_bare};
ghost use Rattle.mms.specs.declared.Answer.{Answer};
ghost use Rattle.mms.specs.Contract.{Exports, Listing, Reading, ReadingTables, Running, Stepping, Writing, WritingTables, checking, exported};

use names::refusal::{Refusal, Refused};
use names::{refusal, text};

// A call's answer: document 01's number, and what goes with it.
#[derive(Clone, Copy, Debug, PartialEq, Eq)]
pub struct Answer {
    pub no: u32,
    pub number: u32,
}

// The answer of a call that tells no number.
impl From<Result<(), Refusal>> for Answer {
    ghost from_gives = { λ r a. a ≡ record { no = answer_number r; number = 0 } };

    fn from(answer: Result<(), Refusal>) -> Answer {
        Answer {
            no: refusal::number(answer),
            number: 0,
        }
    }
}

// The answer of a call that tells a count, or what goes with its refusal.
impl From<Result<u32, Refused>> for Answer {
    ghost from_gives = { λ r a. a ≡ record { no = refused_no r; number = told r } };

    fn from(answer: Result<u32, Refused>) -> Answer {
        match answer {
            Ok(number) => Answer {
                no: refusal::ACCEPTED,
                number,
            },
            Err(refused) => Answer {
                no: u32::from(refused.by),
                number: refused.number,
            },
        }
    }
}

// The answer of a call that tells only what goes with its refusal.
impl From<Result<(), Refused>> for Answer {
    ghost from_gives = { λ r a. a ≡ record { no = refused_no r; number = told_bare r } };

    fn from(answer: Result<(), Refused>) -> Answer {
        match answer {
            Ok(()) => Answer {
                no: refusal::ACCEPTED,
                number: 0,
            },
            Err(refused) => Answer {
                no: u32::from(refused.by),
                number: refused.number,
            },
        }
    }
}

// The answer in one word: document 01's number in the upper half, and what goes with it in the lower.
impl From<Answer> for u64 {
    ghost from_gives = { λ a n. n ≡ exported a };

    fn from(a: Answer) -> u64 {
        u64::from(a.no) * text::NUMBERS + u64::from(a.number)
    }
}

// The state check. Well-formed, secure tables are accepted; others have a bad length, are not well-formed or are not secure.
pub fn check(tables: &[u32]) -> Answer
    ensures { result ≡ checking tables.now }
{
    state::checked(tables).into()
}

// The step settles one request: it answers, and leaves the request's effect on the tables, or its notice, or nothing at all.
pub fn step(tables: &mut [u32], request: &[u32]) -> Answer
    ensures { Stepping tables.old request.now result tables.new }
{
    step::step(tables, request).into()
}

// The run settles many requests in one call: the tables are checked once, and each request is put to what the requests before it left. Its answer
// goes to its own place; places behind the last request's stay. A refused request is followed by the next. Where a size does not fit, nothing changes.
pub fn run(tables: &mut [u32], requests: &[u32], answers: &mut [u32]) -> Answer
    ensures { Running tables.old requests.now answers.old result tables.new answers.new }
{
    run::run(tables, requests, answers).into()
}

// The disclosure list puts entries at the front of the room: every reference by which this user's request to show would be accepted, or refused
// for a full screen only. Where the room is too short, it answers how many entries there are, and the room stays.
pub fn list(tables: &[u32], user: u32, room: &mut [u32]) -> Answer
    ensures { Listing tables.now user room.old result room.new }
{
    disclosure::list(tables, user, room).into()
}

// The reader gives the sixteen words of a text. Where the text is no request, it answers the first line that is bad or missing, and the words
// stay; what follows the seventh line counts as a line more.
pub fn read(text: &[u8], request: &mut [u32]) -> Answer
    ensures { Reading text.now request.old result request.new }
{
    request_reader::read(text, request).into()
}

// The writer puts the text of a request at the front of the room, and answers its bytes. Where no text has these words, they are a bad request.
// Where the room is too short, it answers the bytes that the text needs, and the room stays.
pub fn write(request: &[u32], room: &mut [u8]) -> Answer
    ensures { Writing request.now room.old result room.new }
{
    request_writer::write(request, room).into()
}

// The writer of tables puts their text at the front of the room, and answers its bytes. Tables that are not well-formed have no text; those that are not
// secure are written like others. Where the room is too short, it answers the bytes that the text needs, and the room stays.
pub fn write_tables(tables: &[u32], room: &mut [u8]) -> Answer
    ensures { WritingTables tables.now room.old result room.new }
{
    tables_writer::write_tables(tables, room).into()
}

// The reader of tables gives the words of a text. Where the text breaks a line rule, it answers the first line that is bad or missing; where its tables are
// not well-formed, it says so. The words change only where neither is.
pub fn read_tables(text: &[u8], tables: &mut [u32]) -> Answer
    ensures { ReadingTables text.now tables.old result tables.new }
{
    tables_reader::read_tables(text, tables).into()
}

// `check` for C.
#[unsafe(no_mangle)]
pub extern "C" fn mms_check(tables: &[u32]) -> u64
    ensures { result ≡ exported (checking tables.now) }
{
    u64::from(check(tables))
}

// `step` for C.
#[unsafe(no_mangle)]
pub extern "C" fn mms_step(tables: &mut [u32], request: &[u32]) -> u64
    ensures { Exports (Stepping tables.old request.now) result tables.new }
{
    u64::from(step(tables, request))
}

// `run` for C.
#[unsafe(no_mangle)]
pub extern "C" fn mms_run(tables: &mut [u32], requests: &[u32], answers: &mut [u32]) -> u64
    ensures { Exports (λ a u. Running tables.old requests.now answers.old a u answers.new) result
        tables.new }
{
    u64::from(run(tables, requests, answers))
}

// `list` for C.
#[unsafe(no_mangle)]
pub extern "C" fn mms_list(tables: &[u32], user: u32, room: &mut [u32]) -> u64
    ensures { Exports (Listing tables.now user room.old) result room.new }
{
    u64::from(list(tables, user, room))
}

// `read` for C.
#[unsafe(no_mangle)]
pub extern "C" fn mms_read(text: &[u8], request: &mut [u32]) -> u64
    ensures { Exports (Reading text.now request.old) result request.new }
{
    u64::from(read(text, request))
}

// `write` for C.
#[unsafe(no_mangle)]
pub extern "C" fn mms_write(request: &[u32], room: &mut [u8]) -> u64
    ensures { Exports (Writing request.now room.old) result room.new }
{
    u64::from(write(request, room))
}

// `write_tables` for C.
#[unsafe(no_mangle)]
pub extern "C" fn mms_write_tables(tables: &[u32], room: &mut [u8]) -> u64
    ensures { Exports (WritingTables tables.now room.old) result room.new }
{
    u64::from(write_tables(tables, room))
}

// `read_tables` for C.
#[unsafe(no_mangle)]
pub extern "C" fn mms_read_tables(text: &[u8], tables: &mut [u32]) -> u64
    ensures { Exports (ReadingTables text.now tables.old) result tables.new }
{
    u64::from(read_tables(text, tables))
}
