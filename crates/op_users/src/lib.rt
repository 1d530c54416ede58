// The operations on a user: 14 current roles, 15 clearance, 16 authorised roles, 20 acknowledge. Each judges its own rungs, from 11 on, in their
// order, and has its effect or answers the rung.
#![tactic(auto)]

use levels::Level;
use names::refusal::Refusal;
use names::{op, role};
use tables::User;

mod trial;

ghost use Rattle.std.specs.Prelude.{MatchResult};
ghost use Rattle.ladder.specs.Contract.{Judged, Taking};
ghost use Rattle.model.specs.Request.Operations.{to_acknowledge, to_authorised, to_clearance, to_current};
ghost use Rattle.names.specs.Refusals.{answer_number, number_of};
ghost use Rattle.op_users.specs.Officers.{OfOfficer, PastOfficer};

// Operation 14 sets the current roles of user a to argument b, if they are authorised. Only an officer sets those of another, and who is off
// has none.
pub fn current_roles(t: &mut [u32], q: &[u32], u: User) -> Result<(), Refusal>
    requires { Taking to_current t.old q.now u.0 }
    ensures { Judged t.old q.now (answer_number result) t.new }
{
    let a = User(request::a(q));
    let b = request::b(q);
    if (tables::present(t, a) == 0) | ((tables::device(t, a).0 == 0) & (b != 0)) {
        return Err(Refusal::NoSuchUser);
    }
    if (a != u) & !tables::has_role(t, u, role::OFFICER) {
        return Err(Refusal::RoleMissing);
    }
    if !levels::roles_within(b, tables::authorised(t, a)) {
        return Err(Refusal::LevelOrRoles);
    }
    tables::set_current(t, a, b);
    Ok(())
}

// The user that an officer's request names. Rung 11 asks that the user is there, and rung 12 that an officer asks.
fn named_user(t: &[u32], q: &[u32], u: User) -> Result<User, Refusal>
    requires { OfOfficer t.now q.now u.0 }
    ensures { MatchResult result (λ a. PastOfficer t.now q.now a.0) (λ r. Judged t.now q.now (number_of r) t.now) }
{
    let a = User(request::a(q));
    if tables::present(t, a) == 0 {
        return Err(Refusal::NoSuchUser);
    }
    if !tables::has_role(t, u, role::OFFICER) {
        return Err(Refusal::RoleMissing);
    }
    Ok(a)
}

// Operation 15 sets the clearance of user a to argument b, if the tables stay secure. Only an officer sets it.
pub fn clearance(t: &mut [u32], q: &[u32], u: User) -> Result<(), Refusal>
    requires { Taking to_clearance t.old q.now u.0 }
    ensures { Judged t.old q.now (answer_number result) t.new }
{
    let a = named_user(t, q, u)?;
    trial::try_clearance(t, a, Level(request::b(q)))
}

// Operation 16 sets the authorised roles of user a to argument b, if the current ones are among them. Only an officer sets them.
pub fn authorised_roles(t: &mut [u32], q: &[u32], u: User) -> Result<(), Refusal>
    requires { Taking to_authorised t.old q.now u.0 }
    ensures { Judged t.old q.now (answer_number result) t.new }
{
    let a = named_user(t, q, u)?;
    let b = request::b(q);
    if !levels::roles_within(tables::current(t, a), b) {
        return Err(Refusal::LevelOrRoles);
    }
    tables::set_authorised(t, a, b);
    Ok(())
}

// Operation 20 empties the notice of the requester, if a is the refusal held and b the number missed.
pub fn acknowledge(t: &mut [u32], q: &[u32], u: User) -> Result<(), Refusal>
    requires { Taking to_acknowledge t.old q.now u.0 }
    ensures { Judged t.old q.now (answer_number result) t.new }
{
    let h = tables::held(t, u);
    if (h == 0) | ((request::a(q) != h) | (request::b(q) != tables::missed(t, u))) {
        return Err(Refusal::NotAcknowledged);
    }
    tables::set_missed(t, u, 0);
    tables::set_held_op(t, u, op::NONE);
    tables::set_held(t, u, 0);
    Ok(())
}
