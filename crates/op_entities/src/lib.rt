// The operations on one object or container: 4 edit, 5 copy, 6 level, 7 mark, 19 release. Each is asked once rungs 5 to 9 are passed. It judges
// its own rungs, from 10 on, in their order, and has its effect or answers the rung.
#![tactic(auto)]

use levels::Level;
use names::refusal::Refusal;
use names::{role, types};
use tables::{Entity, User};

mod trial;

ghost use Rattle.std.specs.Prelude.{◌&&◌, not, ◌≡◌};
ghost use Rattle.ladder.specs.Contract.{First, Judged, Second, Taking};
ghost use Rattle.model.specs.Level.{downgrader, drops};
ghost use Rattle.model.specs.Request.Asked.{has_role};
ghost use Rattle.model.specs.Request.Operations.{to_copy, to_edit, to_level, to_mark, to_release};
ghost use Rattle.model.specs.Tables.Layout.{tables_of};
ghost use Rattle.names.specs.Refusals.{answer_number};
ghost use Rattle.tables.specs.Singles.{UserIn};

// Operation 4 sets the value of entity e to argument a.
pub fn edit(t: &mut [u32], q: &[u32], u: User, e: Entity) -> Result<(), Refusal>
    requires { Taking to_edit t.old q.now u.0 × First t.old q.now e.0 }
    ensures { Judged t.old q.now (answer_number result) t.new }
{
    if !ladder::kinds::is_entity(t, e) {
        return Err(Refusal::WrongKind);
    }
    tables::set_value(t, e, request::a(q));
    Ok(())
}

// Operation 5 copies the value of entity e to entity c, if the level of c is at least that of e.
pub fn copy(t: &mut [u32], q: &[u32], u: User, e: Entity, c: Entity) -> Result<(), Refusal>
    requires { Taking to_copy t.old q.now u.0 × First t.old q.now e.0 × Second t.old q.now c.0 }
    ensures { Judged t.old q.now (answer_number result) t.new }
{
    if !(ladder::kinds::is_entity(t, e) & ladder::kinds::is_entity(t, c)) {
        return Err(Refusal::WrongKind);
    }
    if !levels::at_most(tables::level(t, e), tables::level(t, c)) {
        return Err(Refusal::LevelOrRoles);
    }
    let v = tables::value(t, e);
    tables::set_value(t, c, v);
    Ok(())
}

// Whether the level drops from old to a by user u, who is no downgrader.
fn level_dropped(t: &[u32], u: User, old: Level, a: Level) -> bool
    requires { UserIn t.now u.0 }
    ensures { result ≡ (drops a.0 old.0 && not (has_role (tables_of t.now) u.0 downgrader)) }
{
    !levels::at_most(old, a) & !tables::has_role(t, u, role::DOWNGRADER)
}

// Operation 6 sets the level of entity e to argument a, if the tables stay secure. Only a downgrader lets it drop.
pub fn level(t: &mut [u32], q: &[u32], u: User, e: Entity) -> Result<(), Refusal>
    requires { Taking to_level t.old q.now u.0 × First t.old q.now e.0 }
    ensures { Judged t.old q.now (answer_number result) t.new }
{
    if !ladder::kinds::is_entity(t, e) {
        return Err(Refusal::WrongKind);
    }
    let a = Level(request::a(q));
    if level_dropped(t, u, tables::level(t, e), a) {
        return Err(Refusal::RoleMissing);
    }
    trial::try_level(t, e, a)
}

// Operation 7 sets the mark of container e to argument a.
pub fn mark(t: &mut [u32], q: &[u32], u: User, e: Entity) -> Result<(), Refusal>
    requires { Taking to_mark t.old q.now u.0 × First t.old q.now e.0 }
    ensures { Judged t.old q.now (answer_number result) t.new }
{
    if !ladder::kinds::is_container(t, e) {
        return Err(Refusal::WrongKind);
    }
    tables::set_mark(t, e, request::a(q));
    Ok(())
}

// Operation 19 releases the draft e. The requester must act as a releaser, and is recorded as the releaser of e.
pub fn release(t: &mut [u32], q: &[u32], u: User, e: Entity) -> Result<(), Refusal>
    requires { Taking to_release t.old q.now u.0 × First t.old q.now e.0 }
    ensures { Judged t.old q.now (answer_number result) t.new }
{
    if !ladder::kinds::is_draft(t, e) {
        return Err(Refusal::WrongKind);
    }
    if !tables::has_role(t, u, role::RELEASER) {
        return Err(Refusal::RoleMissing);
    }
    tables::set_releaser(t, e, u);
    tables::set_type(t, e, types::RELEASED);
    Ok(())
}
