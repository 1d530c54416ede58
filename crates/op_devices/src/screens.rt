// What a screen shows, and who is logged on: 10 show, 11 clear, 12 login, 13 logout.
ghost use Rattle.std.specs.Prelude.{◌≡◌, ◌<◌};
ghost use Rattle.ladder.specs.Contract.{First, Judged, Taking};
ghost use Rattle.model.specs.Effect.Screens.{clear, show, spot};
ghost use Rattle.model.specs.Request.Operations.{to_clear, to_login, to_logout, to_show};
ghost use Rattle.model.specs.Tables.Layout.{tables_of};
ghost use Rattle.model.specs.Tables.Words.{used_places, place_count};
ghost use Rattle.names.specs.Refusals.{answer_number};
ghost use Rattle.tables.specs.Singles.{EntityIn};

use names::refusal::Refusal;
use names::size;
use tables::{Entity, User};

// Shows entity e with the sum a on device v, which uses n places: in its place k, or last where k is n.
fn put_on(t: &mut [u32], v: Entity, e: Entity, a: u32, k: u32, n: u32)
    requires { EntityIn t.old v.0 × (n ≡ used_places (tables_of t.old) v.0) × (k ≡ spot v.0 e.0 (tables_of t.old)) × (k < place_count) }
    ensures { tables_of t.new ≡ show v.0 e.0 a (tables_of t.old) }
{
    tables::set_shown(t, v, k, a);
    if k < n {
        return;
    }
    tables::set_place(t, v, k, e);
    tables::set_used(t, v, n + 1);
}

// Empties the screen of device v.
fn empty(t: &mut [u32], v: Entity)
    requires { EntityIn t.old v.0 }
    ensures { tables_of t.new ≡ clear v.0 (tables_of t.old) }
{
    for i in 0..size::PLACES {
        tables::set_place(t, v, i, Entity(0));
        tables::set_shown(t, v, i, 0);
    }
    tables::set_used(t, v, 0);
}

// Operation 10 shows entity e on the requester's device, with the sum that the request asks.
pub fn show(t: &mut [u32], q: &[u32], u: User, e: Entity) -> Result<(), Refusal>
    requires { Taking to_show t.old q.now u.0 × First t.old q.now e.0 }
    ensures { Judged t.old q.now (answer_number result) t.new }
{
    if !ladder::kinds::is_entity(t, e) {
        return Err(Refusal::WrongKind);
    }
    let v = tables::device(t, u);
    let l = tables::level(t, e);
    if !levels::at_most(l, tables::clearance(t, u)) | !levels::at_most(l, tables::level(t, v)) {
        return Err(Refusal::LevelOrRoles);
    }
    let n = tables::used(t, v);
    let k = rows::place_of(t, v, e, n);
    if (n <= k) & (size::PLACES <= n) {
        return Err(Refusal::NoRoom);
    }
    let a = request::a(q);
    if !tables::sums::is_labelled(a) {
        return Err(Refusal::Arrangement);
    }
    put_on(t, v, e, a, k, n);
    Ok(())
}

// Operation 11 empties the screen of the requester's device.
pub fn clear(t: &mut [u32], q: &[u32], u: User) -> Result<(), Refusal>
    requires { Taking to_clear t.old q.now u.0 }
    ensures { Judged t.old q.now (answer_number result) t.new }
{
    empty(t, tables::device(t, u));
    Ok(())
}

// Operation 12 logs the requester on to device e.
pub fn login(t: &mut [u32], q: &[u32], u: User, e: Entity) -> Result<(), Refusal>
    requires { Taking to_login t.old q.now u.0 × First t.old q.now e.0 }
    ensures { Judged t.old q.now (answer_number result) t.new }
{
    if !ladder::kinds::is_device(t, e) {
        return Err(Refusal::WrongKind);
    }
    if (tables::device(t, u).0 != 0) | !tables::nobody_on(t, e, size::USERS) {
        return Err(Refusal::Arrangement);
    }
    tables::set_device(t, u, e);
    Ok(())
}

// Operation 13 empties the screen of the requester's device, logs the requester off, and takes the current roles away.
pub fn logout(t: &mut [u32], q: &[u32], u: User) -> Result<(), Refusal>
    requires { Taking to_logout t.old q.now u.0 }
    ensures { Judged t.old q.now (answer_number result) t.new }
{
    empty(t, tables::device(t, u));
    tables::set_device(t, u, Entity(0));
    tables::set_current(t, u, 0);
    Ok(())
}
