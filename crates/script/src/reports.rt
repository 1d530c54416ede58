// Reports a request: its answer, and what its requester holds afterwards (rule 12.3).
ghost use Rattle.std.specs.Prelude.{◌≡◌, ◌+◌, ◌≤◌, length};
ghost use Rattle.lines.specs.Onto.{Puts, Wrote};
ghost use Rattle.model.specs.Script.Reports.{report_text};
ghost use Rattle.model.specs.Script.Windows.{report_bytes};
ghost use Rattle.names.specs.Refusals.{answer_number};
ghost use Rattle.script.specs.Reported.{Settled, from_code, holding};
ghost use Rattle.step.specs.Contract.{Checked};
ghost use Rattle.tables.specs.Singles.{UserIn};

use names::range;
use names::refusal::{ACCEPTED, Refusal, number};
use tables::User;

// What is told of a request: its answer, the refusal that its requester holds, and how many were missed.
#[derive(Clone, Copy)]
pub struct Report {
    pub answer: u32,
    pub held: u32,
    pub missed: u32,
}

// The report of an answer alone.
pub fn bare(answer: u32) -> Report
    ensures { result ≡ record { answer = answer; held = 0; missed = 0 } }
{
    Report {
        answer,
        held: 0,
        missed: 0,
    }
}

// The report of an answer and of what a user holds in the tables.
fn full(tables: &[u32], user: u32, answer: u32) -> Report
    requires { UserIn tables.now user }
    ensures { result ≡ holding tables.now user answer }
{
    let u = User(user);
    Report {
        answer,
        held: tables::held(tables, u),
        missed: tables::missed(tables, u),
    }
}

// Settles one request on the tables, of which the check has said c, and reports it: the step's answer, and, where the request was accepted or
// leaves a notice, what the requester holds.
pub fn settle(tables: &mut [u32], request: &[u32], c: Result<(), Refusal>) -> Report
    requires { Checked tables.old request.now (answer_number c) }
    ensures { Settled tables.old request.now result tables.new }
{
    let answer = number(step::on_checked(tables, request, c));
    if answer == ACCEPTED {
        return full(tables, request::requester(request), answer);
    }
    if answer < range::FIRST_NOTICED {
        return bare(answer);
    }
    full(tables, request::requester(request), answer)
}

// Writes the three lines of a report at the front of out, and answers how many bytes they have.
fn write_report(out: &mut [u8], r: Report) -> usize
    requires { report_bytes ≤ length out.old }
    ensures { Wrote (report_text (from_code r)) out.old out.new result }
{
    let a = lines::writing::write_line(out, b"answer=", r.answer);
    let h = lines::writing::put_line(out, a, b"held=", r.held);
    lines::writing::put_line(out, h, b"missed=", r.missed)
}

// Writes the three lines of a report at an index of out, and answers the index after them.
pub fn put_report(out: &mut [u8], at: usize, r: Report) -> usize
    requires { at + report_bytes ≤ length out.old }
    ensures { Puts (report_text (from_code r)) out.old at out.new result }
{
    let n = write_report(&mut out[at..], r);
    at + n
}
