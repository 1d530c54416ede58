// Runs what has arrived of the script: request after request is settled, and its report is put after those before it (rules 12.2 to 12.4).
ghost use Rattle.std.specs.Prelude.{◌≡◌, ◌+◌, ◌≤◌, eqb, drop, length};
ghost use Rattle.lines.specs.Onto.{Puts};
ghost use Rattle.model.specs.Basics.Choice.{pick};
ghost use Rattle.model.specs.Script.Reports.{report_text};
ghost use Rattle.model.specs.Script.Windows.{report_bytes};
ghost use Rattle.model.specs.State.Check.{check};
ghost use Rattle.model.specs.Text.Lines.{line_end};
ghost use Rattle.model.specs.Text.Unfinished.{ends, unfinished};
ghost use Rattle.names.specs.Refusals.{answer_number};
ghost use Rattle.script.specs.Reported.{from_code};
ghost use Rattle.script.specs.Running.{Halts, RunsOn};

use crate::turns::{Place, Turned};
use names::refusal::Refusal;
use names::text;

// What a run gives: how far it came, and how many bytes of reports there are.
#[derive(Clone, Copy)]
pub struct Ran {
    pub place: Place,
    pub bytes: usize,
}

// How many lines end with a byte: one, or none.
fn ends_line(b: u8) -> usize
    ensures { result ≡ pick (eqb b line_end) 1 0 }
{
    if b == text::LINE_END {
        return 1;
    }
    0
}

// How many lines end in s from an index on.
fn line_ends(s: &[u8], at: usize) -> usize
    requires { at ≤ length s.now }
    ensures { result ≡ ends (drop at s.now) }
{
    let mut n: usize = 0;
    for i in at..s.len() {
        n += ends_line(s[i]);
    }
    n
}

// Whether more bytes may make a request of those from an index on: they are fewer than the longest has, and fewer lines end in them.
fn is_unfinished(s: &[u8], at: usize) -> bool
    requires { at ≤ length s.now }
    ensures { result ≡ unfinished (drop at s.now) }
{
    if text::TEXT_MOST <= s.len() - at {
        return false;
    }
    line_ends(s, at) < text::LINES
}

// Ends a run with the report of a turn after n bytes of reports.
fn reported(out: &mut [u8], n: usize, t: Turned) -> Ran
    requires { n + report_bytes ≤ length out.old }
    ensures { (result.place ≡ t.place) × Puts (report_text (from_code t.report)) out.old n out.new result.bytes }
{
    let report = t.report;
    let bytes = crate::reports::put_report(out, n, report);
    let place = t.place;
    Ran { place, bytes }
}

// Ends a run at a request that could not be read. That is reported, unless the request may be unfinished.
fn halt(script: &[u8], last: bool, out: &mut [u8], n: usize, at: usize, t: Turned) -> Ran
    requires { (at ≤ length script.now) × (n + report_bytes ≤ length out.old) }
    ensures { Halts script.now last out.old n at t result out.new }
{
    if last {
        return reported(out, n, t);
    }
    if is_unfinished(script, at) {
        return Ran {
            place: Place { at, line: 0 },
            bytes: n,
        };
    }
    reported(out, n, t)
}

// Settles the requests of script from its front on, each on the tables that the one before it left, and puts their reports at the front of out.
// Where out has no room left for the longest report, no further request is begun. `last` says that nothing will follow script, and c is what the
// check has said of the tables, which it would say of what every request leaves.
pub fn run(
    tables: &mut [u32],
    script: &[u8],
    last: bool,
    out: &mut [u8],
    c: Result<(), Refusal>,
) -> Ran
    requires { answer_number c ≡ check tables.old }
    ensures { RunsOn tables.old script.now last out.old result tables.new out.new }
{
    let mut at: usize = 0;
    let mut n: usize = 0;
    while at < script.len() {
        if out.len() - n < text::REPORT_MOST {
            return Ran {
                place: Place { at, line: 0 },
                bytes: n,
            };
        }
        let t = crate::turns::one_turn(tables, script, Place { at, line: 0 }, c);
        let next = t.place;
        if next.line != 0 {
            return halt(script, last, out, n, at, t);
        }
        let report = t.report;
        n = crate::reports::put_report(out, n, report);
        at = next.at;
    }
    Ran {
        place: Place { at, line: 0 },
        bytes: n,
    }
}
