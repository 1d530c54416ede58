// Takes one turn of the script: the request at its place is settled, and the place goes on (rules 12.2 to 12.4). First by value, where all the
// work is done; then on a place that is lent and changed where it stands. In each, c is what the check has said of the tables. No request makes that
// untrue, so no turn checks them.
ghost use Rattle.std.specs.Prelude.{◌≡◌};
ghost use Rattle.names.specs.Refusals.{answer_number};
ghost use Rattle.model.specs.Script.Reports.{unread};
ghost use Rattle.script.specs.Reported.{in_code};
ghost use Rattle.script.specs.Turn.{SettledTo, TurnReady, Turns, TurnsLent};
ghost use Rattle.step.specs.Contract.{Checked};

use crate::reports::Report;
use names::refusal::Refusal;
use names::size;
use request_reader::BadLine;

// How far a script has been read: the index of its next byte, and the line at which a request could not be read, 0 while all could.
#[derive(Clone, Copy)]
pub struct Place {
    pub at: usize,
    pub line: u32,
}

// What a turn gives: the place after the request, and the report of it.
#[derive(Clone, Copy)]
pub struct Turned {
    pub place: Place,
    pub report: Report,
}

// The turn at a request that cannot be read: the place stays, and says at which line.
fn stuck(at: usize, line: u32) -> Turned
    ensures { result ≡ record { place = record { at = at; line = line }; report = in_code unread } }
{
    Turned {
        place: Place { at, line },
        report: crate::reports::bare(u32::from(Refusal::NotARequest)),
    }
}

// The turn at a request whose words were read, up to the index next.
fn settled(tables: &mut [u32], words: &[u32], next: usize, c: Result<(), Refusal>) -> Turned
    requires { Checked tables.old words.now (answer_number c) }
    ensures { SettledTo tables.old words.now next result tables.new }
{
    let report = crate::reports::settle(tables, words, c);
    Turned {
        place: Place { at: next, line: 0 },
        report,
    }
}

// The turn by value: the next seven lines of the script are read, and the step answers them. Its caller has seen that bytes are left and that
// all requests before could be read. The turn does not ask for these two, and reads from the index on.
pub fn turn_at(tables: &mut [u32], script: &[u8], p: Place, c: Result<(), Refusal>) -> Turned
    requires { TurnReady tables.old script.now p (answer_number c) }
    ensures { Turns tables.old script.now p result tables.new }
{
    let at = p.at;
    let mut words = [0u32; size::REQUEST_WORDS];
    match request_reader::read_seven(script, at, &mut words) {
        Err(BadLine(k)) => stuck(at, k),
        Ok(next) => settled(tables, &words, next, c),
    }
}

// The same turn on a place that is lent, and changed where it stands.
pub fn turn(tables: &mut [u32], script: &[u8], p: &mut Place, c: Result<(), Refusal>) -> Report
    requires { TurnReady tables.old script.now p.old (answer_number c) }
    ensures { TurnsLent tables.old script.now p.old result p.new tables.new }
{
    let t = turn_at(tables, script, *p, c);
    *p = t.place;
    t.report
}

// From a place by value to one that is lent, and back: a loop calls this one, since its contract speaks of no reference to a place.
pub fn one_turn(tables: &mut [u32], script: &[u8], p: Place, c: Result<(), Refusal>) -> Turned
    requires { TurnReady tables.old script.now p (answer_number c) }
    ensures { Turns tables.old script.now p result tables.new }
{
    let mut q = p;
    let report = turn(tables, script, &mut q, c);
    Turned { place: q, report }
}
