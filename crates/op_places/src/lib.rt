// The operations on what stands in containers: 1 create, 2 delete, 3 move.
#![tactic(auto)]

use levels::Level;
use names::refusal::Refusal;
use names::{size, types};
use tables::{Entity, User};

mod filling;

ghost use Rattle.ladder.specs.Contract.{First, Judged, Second, Taking};
ghost use Rattle.model.specs.Request.Operations.{to_create, to_delete, to_move};
ghost use Rattle.names.specs.Refusals.{answer_number};

// Operation 1 makes a new entity of sort a and level b, last in c, with the triples of c.
pub fn create(t: &mut [u32], q: &[u32], u: User, c: Entity) -> Result<(), Refusal>
    requires { Taking to_create t.old q.now u.0 × First t.old q.now c.0 }
    ensures { Judged t.old q.now (answer_number result) t.new }
{
    if !ladder::kinds::is_container(t, c) {
        return Err(Refusal::WrongKind);
    }
    let l = Level(request::b(q));
    if !levels::at_most(l, tables::level(t, c)) {
        return Err(Refusal::LevelOrRoles);
    }
    let n = filling::vacant(t);
    if (size::ENTITIES < n.0) | (size::PLACES <= tables::used(t, c)) {
        return Err(Refusal::NoRoom);
    }
    filling::bear(t, n, c, request::a(q), l);
    filling::put_last(t, c, n);
    Ok(())
}

// Operation 2 takes entity e out of its container, and removes it.
pub fn delete(t: &mut [u32], q: &[u32], u: User, e: Entity) -> Result<(), Refusal>
    requires { Taking to_delete t.old q.now u.0 × First t.old q.now e.0 }
    ensures { Judged t.old q.now (answer_number result) t.new }
{
    if !ladder::kinds::is_entity(t, e) {
        return Err(Refusal::WrongKind);
    }
    if (tables::used(t, e) != 0)
        | (standing::on_screen(t, e) | (tables::type_of(t, e) == types::RELEASED))
    {
        return Err(Refusal::Arrangement);
    }
    filling::leave(t, standing::holder(t, e), e);
    filling::erase(t, e);
    Ok(())
}

// Operation 3 takes entity e out of its container, and puts it last in c.
pub fn relocate(t: &mut [u32], q: &[u32], u: User, e: Entity, c: Entity) -> Result<(), Refusal>
    requires { Taking to_move t.old q.now u.0 × First t.old q.now e.0 × Second t.old q.now c.0 }
    ensures { Judged t.old q.now (answer_number result) t.new }
{
    if !(ladder::kinds::is_entity(t, e) & ladder::kinds::is_container(t, c)) {
        return Err(Refusal::WrongKind);
    }
    if !levels::at_most(tables::level(t, e), tables::level(t, c)) {
        return Err(Refusal::LevelOrRoles);
    }
    let h = standing::holder(t, e);
    if (h != c) & (size::PLACES <= tables::used(t, c)) {
        return Err(Refusal::NoRoom);
    }
    if standing::is_inside(t, c, e) {
        return Err(Refusal::Arrangement);
    }
    filling::leave(t, h, e);
    filling::put_last(t, c, e);
    Ok(())
}
