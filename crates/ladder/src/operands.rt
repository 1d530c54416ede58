// Rungs 7 to 9: where the references lead, whether the operands' triples permit the request, and whether the ways are open.
ghost use Rattle.std.specs.Prelude.{◌≡◌, IfOk};
ghost use Rattle.ladder.specs.Contract.{PastLogon};
ghost use Rattle.ladder.specs.Path.{arity_of, path_answer};
ghost use Rattle.model.specs.Request.Asked.{asked};
ghost use Rattle.model.specs.Request.Words.{request_of};
ghost use Rattle.model.specs.Tables.Layout.{tables_of};
ghost use Rattle.names.specs.Refusals.{answer_number};

use names::op::Position;
use names::refusal::Refusal;
use reference::Found;
use tables::{Entity, User};

// The operand that a request of one operand names, or the refusal 7, 8 or 9: the reference is read once.
pub fn one_operand(t: &[u32], q: &[u32], u: User, o: u32) -> Result<Entity, Refusal>
    requires { PastLogon t.now q.now u.0 × ((request_of q.now).operation ≡ o) × (arity_of (request_of q.now) ≡ 1) }
    ensures answer { answer_number result ≡ path_answer (tables_of t.now) (request_of q.now) }
    ensures operand { IfOk result (λ e. e.0 ≡ (asked (tables_of t.now) (request_of q.now)).first) }
{
    let l = tables::clearance(t, u);
    let Found::At(e, clear) = reference::resolve(t, l, request::first_names(q)) else {
        return Err(Refusal::NoSuchName);
    };
    if !reference::is_permitted(t, e, u, o, Position::First as u32) {
        return Err(Refusal::NoAccess);
    }
    if !clear {
        return Err(Refusal::Marked);
    }
    Ok(e)
}

// The operands that a request of two operands names, or the refusal 7, 8 or 9: each reference is read once.
pub fn two_operands(t: &[u32], q: &[u32], u: User, o: u32) -> Result<(Entity, Entity), Refusal>
    requires { PastLogon t.now q.now u.0 × ((request_of q.now).operation ≡ o) × (arity_of (request_of q.now) ≡ 2) }
    ensures answer { answer_number result ≡ path_answer (tables_of t.now) (request_of q.now) }
    ensures first { IfOk result (λ p. p.0.0 ≡ (asked (tables_of t.now) (request_of q.now)).first) }
    ensures second { IfOk result (λ p. p.1.0 ≡ (asked (tables_of t.now) (request_of q.now)).second) }
{
    let l = tables::clearance(t, u);
    let Found::At(e, clear) = reference::resolve(t, l, request::first_names(q)) else {
        return Err(Refusal::NoSuchName);
    };
    let Found::At(c, free) = reference::resolve(t, l, request::second_names(q)) else {
        return Err(Refusal::NoSuchName);
    };
    if !reference::is_permitted(t, e, u, o, Position::First as u32) {
        return Err(Refusal::NoAccess);
    }
    if !reference::is_permitted(t, c, u, o, Position::Second as u32) {
        return Err(Refusal::NoAccess);
    }
    if !(clear & free) {
        return Err(Refusal::Marked);
    }
    Ok((e, c))
}
