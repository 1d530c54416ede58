// The verdict on each entity, found once however many references come by it: whether it may be shown, and how many of its places lead on.
#![tactic(auto)]

ghost use Rattle.std.specs.Prelude.{◌≡◌, ◌≤◌};
ghost use Rattle.verdicts.specs.Verdicts.{Asker, Judged, verdict};
ghost use Rattle.model.specs.Basics.Choice.{pick};
ghost use Rattle.model.specs.List.Admitted.{Admitted};
ghost use Rattle.model.specs.List.Ways.{showable};
ghost use Rattle.model.specs.Tables.Layout.{tables_of};
ghost use Rattle.model.specs.Tables.Words.{entity_count};

use levels::Level;
use names::op::{Op, Position};
use names::size;
use tables::{Entity, User};

// How many places of an entity lead on, which are none where the way is shut, and whether the entity may be shown.
#[derive(Clone, Copy)]
pub struct Verdict {
    pub ways: u32,
    pub shown: bool,
}

// The verdict on no entity.
pub const NONE: Verdict = Verdict {
    ways: 0,
    shown: false,
};

// Whether entity e meets all that show asks of it: an object or a container, of a level at most the clearance and at most the screen's, with
// a triple that permits it.
fn is_showable(t: &[u32], u: User, clearance: Level, screen: Level, e: Entity) -> bool
    requires { Asker t.now u.0 clearance.0 screen.0 × (1 ≤ e.0) × (e.0 ≤ entity_count) }
    ensures { result ≡ showable (tables_of t.now) u.0 e.0 }
{
    if !ladder::kinds::is_entity(t, e) {
        return false;
    }
    let l = tables::level(t, e);
    if !levels::at_most(l, clearance) {
        return false;
    }
    if !levels::at_most(l, screen) {
        return false;
    }
    reference::is_permitted(t, e, u, Op::Show as u32, Position::First as u32)
}

// The verdict on an entity with so many places, where the way on is shut or not, and it may be shown or not.
fn verdict_of(shut: bool, used: u32, shown: bool) -> Verdict
    ensures { result ≡ record { ways = pick shut 0 used; shown = shown } }
{
    let ways = if shut { 0 } else { used };
    Verdict { ways, shown }
}

// The verdict on entity e. A mark shuts the way on to whoever has no clearance for the level of e.
fn judge(t: &[u32], u: User, clearance: Level, screen: Level, e: Entity) -> Verdict
    requires { Asker t.now u.0 clearance.0 screen.0 × (1 ≤ e.0) × (e.0 ≤ entity_count) }
    ensures { result ≡ verdict (tables_of t.now) u.0 e.0 }
{
    let shut = reference::is_bar(t, clearance, e);
    let shown = is_showable(t, u, clearance, screen, e);
    verdict_of(shut, tables::used(t, e), shown)
}

// The verdicts on all entities, each at its number.
pub fn judge_all(t: &[u32], u: User, v: &mut [Verdict; size::ENTITY_NUMBERS])
    requires { Admitted t.now u.0 × Judged (tables_of t.now) u.0 0 v.old }
    ensures { Judged (tables_of t.now) u.0 entity_count v.new }
{
    let clearance = tables::clearance(t, u);
    let screen = tables::level(t, tables::device(t, u));
    for i in 0..size::ENTITIES {
        v[i as usize + 1] = judge(t, u, clearance, screen, Entity(i + 1));
    }
}
