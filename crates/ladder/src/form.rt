// Rung 5: the form of a request. Its operation chooses how many operands it takes and which arguments.
ghost use Rattle.std.specs.Prelude.{◌≡◌, length};
ghost use Rattle.ladder.specs.Shape.{Made, none_form, one_form, spare_form, two_form};
ghost use Rattle.model.specs.Request.Ladder.{fits};
ghost use Rattle.model.specs.Request.Words.{request_of, request_words};
ghost use Rattle.names.specs.Operations.{meant};

use crate::argument::{
    are_roles, is_flag, is_level, is_operation, is_position, is_sort, is_sum, is_unused, is_user,
    is_who,
};
use names::op::Op;
use names::{size, word};
use request::{a, b, c};

// Whether the name words past both references, and the spare word, are zero.
fn spares_fit(q: &[u32]) -> bool
    requires { length q.now ≡ request_words }
    ensures { result ≡ spare_form (request_of q.now) }
{
    request::names_fit(q, word::FIRST)
        & (request::names_fit(q, word::SECOND) & (request::spare(q) == 0))
}

// Whether the request has the form of one without operands, but for its arguments.
fn takes_none(q: &[u32]) -> bool
    requires { length q.now ≡ request_words }
    ensures { result ≡ none_form (request_of q.now) }
{
    (request::first_length(q) == 0) & ((request::second_length(q) == 0) & spares_fit(q))
}

// Whether the request has the form of one with one operand, but for its arguments.
fn takes_one(q: &[u32]) -> bool
    requires { length q.now ≡ request_words }
    ensures { result ≡ one_form (request_of q.now) }
{
    let n = request::first_length(q);
    ((1 <= n) & (n <= size::NAMES)) & ((request::second_length(q) == 0) & spares_fit(q))
}

// Whether the request has the form of one with two operands, but for its arguments.
fn takes_two(q: &[u32]) -> bool
    requires { length q.now ≡ request_words }
    ensures { result ≡ two_form (request_of q.now) }
{
    let n = request::first_length(q);
    let m = request::second_length(q);
    ((1 <= n) & (n <= size::NAMES)) & (((1 <= m) & (m <= size::NAMES)) & spares_fit(q))
}

// Whether the request has the form that operation o asks: how many operands it has, and in which ranges its arguments lie.
fn fits(q: &[u32], o: Op) -> bool
    requires { length q.now ≡ request_words }
    ensures { result ≡ fits (meant o) (request_of q.now) }
{
    match o {
        Op::Create => takes_one(q) & (is_sort(a(q)) & (is_level(b(q)) & is_unused(c(q)))),
        Op::Delete | Op::Login | Op::Release => takes_one(q)
            & (is_unused(a(q)) & (is_unused(b(q)) & is_unused(c(q)))),
        Op::Move | Op::Copy => takes_two(q)
            & (is_unused(a(q)) & (is_unused(b(q)) & is_unused(c(q)))),
        Op::Edit => takes_one(q) & (is_unused(b(q)) & is_unused(c(q))),
        Op::SetLevel | Op::Maximum | Op::DeviceLevel => takes_one(q)
            & (is_level(a(q)) & (is_unused(b(q)) & is_unused(c(q)))),
        Op::SetMark => takes_one(q) & (is_flag(a(q)) & (is_unused(b(q)) & is_unused(c(q)))),
        Op::Grant | Op::Revoke => takes_one(q)
            & (is_who(a(q)) & (is_operation(b(q)) & is_position(c(q)))),
        Op::Show => takes_one(q) & (is_sum(a(q)) & (is_unused(b(q)) & is_unused(c(q)))),
        Op::Clear | Op::Logout => takes_none(q)
            & (is_unused(a(q)) & (is_unused(b(q)) & is_unused(c(q)))),
        Op::CurrentRoles | Op::AuthorisedRoles => takes_none(q)
            & (is_user(a(q)) & (are_roles(b(q)) & is_unused(c(q)))),
        Op::Clearance => takes_none(q) & (is_user(a(q)) & (is_level(b(q)) & is_unused(c(q)))),
        Op::Acknowledge => takes_none(q) & is_unused(c(q)),
    }
}

// The operation of a request that has the form which its operation asks; none where it has another form, or where its number is no operation's.
pub fn well_made(q: &[u32]) -> Option<Op>
    requires { length q.now ≡ request_words }
    ensures { Made (request_of q.now) result }
{
    let Ok(o) = Op::try_from(request::operation(q)) else {
        return None;
    };
    if !fits(q, o) {
        return None;
    }
    Some(o)
}
