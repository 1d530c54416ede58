// The step: the state check and the request's length (1 to 3), then the ladder from rung 4 on, the effect and the notice.
#![tactic(auto)]

use ladder::operands::{one_operand, two_operands};
use names::op::Op;
use names::refusal::Refusal;
use names::{op, size};
use tables::{Entity, User};

mod notice;

ghost use Rattle.std.specs.Prelude.{◌≡◌, MatchResult, length, not};
ghost use Rattle.ladder.specs.Contract.{First, Judged, PastLogon, PastRequester, Ready, Second, Stepped, Taking};
ghost use Rattle.model.specs.Request.After.{noticed_op};
ghost use Rattle.model.specs.Request.Form.{taken};
ghost use Rattle.model.specs.Request.Operations.{number_of, open_logged_off, to_copy, to_move};
ghost use Rattle.model.specs.Request.Words.{request_of, request_words};
ghost use Rattle.names.specs.Operations.{meant};
ghost use Rattle.names.specs.Refusals as refused;
ghost use Rattle.names.specs.Refusals.{answer_number};
ghost use Rattle.step.specs.Contract.{Checked, Settled};

// The operand of a request for operation o, which takes one, or the refusal 7, 8 or 9.
fn operand(t: &[u32], q: &[u32], u: User, o: Op) -> Result<Entity, Refusal>
    requires { PastLogon t.now q.now u.0 × ((request_of q.now).operation ≡ number_of (meant o)) × (taken (meant o) ≡ 1) }
    ensures { MatchResult result (λ e. Taking (meant o) t.now q.now u.0 × First t.now q.now e.0) (λ r. Judged t.now q.now (refused.number_of r) t.now) }
{
    one_operand(t, q, u, u32::from(o))
}

// The operands of a request for operation o, which takes two, or the refusal 7, 8 or 9.
fn operands(t: &[u32], q: &[u32], u: User, o: Op) -> Result<(Entity, Entity), Refusal>
    requires { PastLogon t.now q.now u.0 × ((request_of q.now).operation ≡ number_of (meant o)) × (taken (meant o) ≡ 2) }
    ensures { MatchResult result (λ p. Taking (meant o) t.now q.now u.0 × First t.now q.now p.0.0 × Second t.now q.now p.1.0)
        (λ r. Judged t.now q.now (refused.number_of r) t.now) }
{
    two_operands(t, q, u, u32::from(o))
}

// Judges rungs 7 to 16 of operation 3, and does it. It is a function of its own, as that of operation 5 is: within the choice below, every operation would
// pay for the room of two operands.
fn relocate(t: &mut [u32], q: &[u32], u: User) -> Result<(), Refusal>
    requires { PastLogon t.old q.now u.0 × ((request_of q.now).operation ≡ number_of to_move) }
    ensures { Judged t.old q.now (answer_number result) t.new }
{
    let (e, c) = operands(t, q, u, Op::Move)?;
    op_places::relocate(t, q, u, e, c)
}

// Judges rungs 7 to 16 of operation 5, and does it.
fn copy(t: &mut [u32], q: &[u32], u: User) -> Result<(), Refusal>
    requires { PastLogon t.old q.now u.0 × ((request_of q.now).operation ≡ number_of to_copy) }
    ensures { Judged t.old q.now (answer_number result) t.new }
{
    let (e, c) = operands(t, q, u, Op::Copy)?;
    op_entities::copy(t, q, u, e, c)
}

// Judges rungs 7 to 16, and does what is asked. The operation chooses how many operands there are to read, and who judges and does it.
fn serve(t: &mut [u32], q: &[u32], u: User, o: Op) -> Result<(), Refusal>
    requires { PastLogon t.old q.now u.0 × ((request_of q.now).operation ≡ number_of (meant o)) }
    ensures { Judged t.old q.now (answer_number result) t.new }
{
    match o {
        Op::Create => op_places::create(t, q, u, operand(t, q, u, o)?),
        Op::Delete => op_places::delete(t, q, u, operand(t, q, u, o)?),
        Op::Move => relocate(t, q, u),
        Op::Edit => op_entities::edit(t, q, u, operand(t, q, u, o)?),
        Op::Copy => copy(t, q, u),
        Op::SetLevel => op_entities::level(t, q, u, operand(t, q, u, o)?),
        Op::SetMark => op_entities::mark(t, q, u, operand(t, q, u, o)?),
        Op::Grant => op_triples::grant(t, q, u, operand(t, q, u, o)?),
        Op::Revoke => op_triples::revoke(t, q, u, operand(t, q, u, o)?),
        Op::Show => op_devices::show(t, q, u, operand(t, q, u, o)?),
        Op::Clear => op_devices::clear(t, q, u),
        Op::Login => op_devices::login(t, q, u, operand(t, q, u, o)?),
        Op::Logout => op_devices::logout(t, q, u),
        Op::CurrentRoles => op_users::current_roles(t, q, u),
        Op::Clearance => op_users::clearance(t, q, u),
        Op::AuthorisedRoles => op_users::authorised_roles(t, q, u),
        Op::Maximum => op_devices::maximum(t, q, u, operand(t, q, u, o)?),
        Op::DeviceLevel => op_devices::device_level(t, q, u, operand(t, q, u, o)?),
        Op::Release => op_entities::release(t, q, u, operand(t, q, u, o)?),
        Op::Acknowledge => op_users::acknowledge(t, q, u),
    }
}

// The operation that a notice keeps: none where the number is no operation's.
fn noticed(q: &[u32]) -> u32
    requires { length q.now ≡ request_words }
    ensures { result ≡ noticed_op (request_of q.now) }
{
    match Op::try_from(request::operation(q)) {
        Ok(o) => u32::from(o),
        Err(_) => op::NONE,
    }
}

// Whether the operation is only for those who are on a device: login and acknowledge are not (rule 7.6).
fn wants_device(o: Op) -> bool
    ensures { result ≡ not (open_logged_off (meant o)) }
{
    !matches!(o, Op::Login | Op::Acknowledge)
}

// Judges rungs 5 to 16, and does what is asked.
fn attend(t: &mut [u32], q: &[u32], u: User) -> Result<(), Refusal>
    requires { PastRequester t.old q.now u.0 }
    ensures { Judged t.old q.now (answer_number result) t.new }
{
    let Some(o) = ladder::form::well_made(q) else {
        return Err(Refusal::BadRequest);
    };
    if wants_device(o) & (tables::device(t, u).0 == 0) {
        return Err(Refusal::NotLoggedOn);
    }
    serve(t, q, u, o)
}

// Judges rungs 4 to 16 on tables that are well-formed and secure, does what is asked, and leaves the notice of a refusal. Nothing else does.
pub fn advance(t: &mut [u32], q: &[u32]) -> Result<(), Refusal>
    requires { Ready t.old q.now }
    ensures { Stepped t.old q.now (answer_number result) t.new }
{
    let n = request::requester(q);
    if !tables::is_known(t, n) {
        return Err(Refusal::UnknownRequester);
    }
    let answer = attend(t, q, User(n));
    if let Err(refusal) = answer {
        notice::leave(t, User(n), u32::from(refusal), noticed(q));
    }
    answer
}

// The step on words of which the check has said c: those that failed are refused with c, and the others go up the ladder. So a run of many
// requests need check its tables once only. It is inlined, so that a run of requests to tables that have failed the check goes through without a call.
#[inline(always)]
pub fn on_checked(t: &mut [u32], q: &[u32], c: Result<(), Refusal>) -> Result<(), Refusal>
    requires { Checked t.old q.now (answer_number c) }
    ensures { Settled t.old q.now (answer_number result) t.new }
{
    c?;
    advance(t, q)
}

// The step on any words: the answer and the words afterwards are the model's.
pub fn step(t: &mut [u32], q: &[u32]) -> Result<(), Refusal>
    ensures { Settled t.old q.now (answer_number result) t.new }
{
    if q.len() != size::REQUEST_WORDS {
        return Err(Refusal::BadLength);
    }
    let c = state::checked(t);
    on_checked(t, q, c)
}
