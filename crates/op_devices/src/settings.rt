// The settings of a device: 17 maximum, 18 device level.
ghost use Rattle.std.specs.Prelude.{◌&&◌, not, ◌≡◌, eqb};
ghost use Rattle.ladder.specs.Contract.{First, Judged, Taking};
ghost use Rattle.model.specs.Level.{downgrader, drops};
ghost use Rattle.model.specs.Request.Asked.{has_role};
ghost use Rattle.model.specs.Request.Operations.{to_device_level, to_maximum};
ghost use Rattle.model.specs.Tables.Layout.{tables_of};
ghost use Rattle.model.specs.Tables.Words.{device};
ghost use Rattle.names.specs.Refusals.{answer_number};
ghost use Rattle.tables.specs.Singles.{UserIn};

use levels::Level;
use names::refusal::Refusal;
use names::role;
use tables::{Entity, User};

// Operation 17 sets the maximum of device e to argument a, if its level is at most that. Only an officer sets it.
pub fn maximum(t: &mut [u32], q: &[u32], u: User, e: Entity) -> Result<(), Refusal>
    requires { Taking to_maximum t.old q.now u.0 × First t.old q.now e.0 }
    ensures { Judged t.old q.now (answer_number result) t.new }
{
    if !ladder::kinds::is_device(t, e) {
        return Err(Refusal::WrongKind);
    }
    if !tables::has_role(t, u, role::OFFICER) {
        return Err(Refusal::RoleMissing);
    }
    let a = Level(request::a(q));
    if !levels::at_most(tables::level(t, e), a) {
        return Err(Refusal::LevelOrRoles);
    }
    tables::set_maximum(t, e, a);
    Ok(())
}

// Whether the level of device e drops from old to a by user u, who is neither on it nor a downgrader.
fn device_dropped(t: &[u32], u: User, e: Entity, old: Level, a: Level) -> bool
    requires { UserIn t.now u.0 }
    ensures { result ≡ (drops a.0 old.0 && (not (eqb e.0 ((tables_of t.now).user u.0 device))
        && not (has_role (tables_of t.now) u.0 downgrader))) }
{
    !levels::at_most(old, a)
        & ((e != tables::device(t, u)) & !tables::has_role(t, u, role::DOWNGRADER))
}

// Operation 18 sets the level of device e to argument a, if the tables stay secure. Only whoever is on it, or a downgrader, lets it drop.
pub fn device_level(t: &mut [u32], q: &[u32], u: User, e: Entity) -> Result<(), Refusal>
    requires { Taking to_device_level t.old q.now u.0 × First t.old q.now e.0 }
    ensures { Judged t.old q.now (answer_number result) t.new }
{
    if !ladder::kinds::is_device(t, e) {
        return Err(Refusal::WrongKind);
    }
    let a = Level(request::a(q));
    if device_dropped(t, u, e, tables::level(t, e), a) {
        return Err(Refusal::RoleMissing);
    }
    crate::trial::try_device_level(t, e, a)
}
