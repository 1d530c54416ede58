// A level of an object or container is set only where the tables stay secure: what it can break is asked before. That is what the entity holds, and
// what holds it: the screens that show it, with who is on them, and its container.
ghost use Rattle.std.specs.Prelude.{◌≡◌, ◌≤◌, length};
ghost use Rattle.ladder.specs.Trial.{Tried};
ghost use Rattle.model.specs.Effect.Words.{set_level};
ghost use Rattle.model.specs.State.Secure.{Good};
ghost use Rattle.model.specs.State.WellFormed.{Thing, WellFormed};
ghost use Rattle.model.specs.Tables.Layout.{tables_of, word_count};
ghost use Rattle.model.specs.Tables.Words.{level};
ghost use Rattle.names.specs.Refusals.{answer_number};
ghost use Rattle.op_entities.specs.Held.{container_admits, contents_stay, holders_stay, screen_admits, screens_admit};
ghost use Rattle.tables.specs.Singles.{EntityIn, UserIn};

use levels::Level;
use names::refusal::Refusal;
use names::size;
use tables::{Entity, User};

// Whether what entity e, of level old, holds is at most a. The tables were good, so it is at most old.
fn contents_stay(t: &[u32], e: Entity, old: Level, a: Level) -> bool
    requires { EntityIn t.now e.0 × Good (tables_of t.now) × (old.0 ≡ (tables_of t.now).entity e.0 level) }
    ensures { result ≡ contents_stay (tables_of t.now) e.0 a.0 }
{
    if levels::at_most(old, a) {
        return true;
    }
    rows::all_at_most(t, e, a, tables::used(t, e))
}

// Whether user u is on nothing that shows entity e, or both the device and the clearance of u are at least a.
fn screen_admits(t: &[u32], e: Entity, a: Level, u: User) -> bool
    requires { UserIn t.now u.0 × WellFormed (tables_of t.now) × (1 ≤ e.0) }
    ensures { result ≡ screen_admits (tables_of t.now) e.0 a.0 u.0 }
{
    let v = tables::device(t, u);
    if v.0 == 0 {
        return true;
    }
    if !rows::holds(t, v, e) {
        return true;
    }
    levels::at_most(a, tables::level(t, v)) & levels::at_most(a, tables::clearance(t, u))
}

// Whether the screens that show entity e, and who is on them, are at least a. What nobody is on shows nothing, so the users lead to all of them.
fn screens_admit(t: &[u32], e: Entity, a: Level) -> bool
    requires { (length t.now ≡ word_count) × WellFormed (tables_of t.now) × (1 ≤ e.0) }
    ensures { result ≡ screens_admit (tables_of t.now) e.0 a.0 }
{
    for i in 0..size::USERS {
        if !screen_admits(t, e, a, User(i + 1)) {
            return false;
        }
    }
    true
}

// Whether entity e stands in no container, or in one that is at least a.
fn container_admits(t: &[u32], e: Entity, a: Level) -> bool
    requires { (length t.now ≡ word_count) × WellFormed (tables_of t.now) × (1 ≤ e.0) }
    ensures { result ≡ container_admits (tables_of t.now) e.0 a.0 }
{
    let h = standing::holder(t, e);
    if h.0 == 0 {
        return true;
    }
    levels::at_most(a, tables::level(t, h))
}

// Whether what holds entity e, of level old, and who sees it on a screen, is at least a. The tables were good, so all of that is at least old.
fn holders_stay(t: &[u32], e: Entity, old: Level, a: Level) -> bool
    requires { EntityIn t.now e.0 × Good (tables_of t.now) × (old.0 ≡ (tables_of t.now).entity e.0 level) }
    ensures { result ≡ holders_stay (tables_of t.now) e.0 a.0 }
{
    if levels::at_most(a, old) {
        return true;
    }
    if !screens_admit(t, e, a) {
        return false;
    }
    container_admits(t, e, a)
}

// Sets the level of object or container e to a, if the tables are secure then. If they are not, it refuses, and nothing has changed.
pub fn try_level(t: &mut [u32], e: Entity, a: Level) -> Result<(), Refusal>
    requires { EntityIn t.old e.0 × Good (tables_of t.old) × Thing (tables_of t.old) e.0 }
    ensures { Tried (set_level e.0 a.0 (tables_of t.old)) t.old (answer_number result) t.new }
{
    let old = tables::level(t, e);
    if !contents_stay(t, e, old, a) {
        return Err(Refusal::LevelOrRoles);
    }
    if !holders_stay(t, e, old, a) {
        return Err(Refusal::LevelOrRoles);
    }
    tables::set_level(t, e, a);
    Ok(())
}
