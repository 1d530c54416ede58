// What stands where: the container that an entity is in, the screens that show it, and what lies in what.
#![tactic(auto)]

ghost use Rattle.std.specs.Prelude.{◌≡◌, ◌≤◌, suc, length};
ghost use Rattle.model.specs.Request.Conditions.{on_screen};
ghost use Rattle.model.specs.State.Climb.{climb};
ghost use Rattle.model.specs.State.WellFormed.{WellFormed};
ghost use Rattle.model.specs.Tables.Layout.{tables_of, word_count};
ghost use Rattle.model.specs.Tables.Words.{container_kind, entity_count};
ghost use Rattle.standing.specs.Standing.{parent_in, seeing, standing};
ghost use Rattle.tables.specs.Singles.{EntityIn, UserIn};

use names::{kind, size};
use tables::{Entity, User};

// Whether v is a container that e stands in. The kind is asked last, of the few that hold e: kinds come in no order, and a branch on each
// would be guessed wrong too often.
fn contains(t: &[u32], v: Entity, e: Entity) -> bool
    requires { EntityIn t.now v.0 × WellFormed (tables_of t.now) × (1 ≤ e.0) }
    ensures { result ≡ standing (tables_of t.now) container_kind e.0 v.0 }
{
    if !rows::holds(t, v, e) {
        return false;
    }
    tables::kind(t, v) == kind::CONTAINER
}

// Whether user u is on a screen that shows e.
fn sees(t: &[u32], u: User, e: Entity) -> bool
    requires { UserIn t.now u.0 × WellFormed (tables_of t.now) × (1 ≤ e.0) }
    ensures { result ≡ seeing (tables_of t.now) e.0 u.0 }
{
    let v = tables::device(t, u);
    if v == Entity::NONE {
        return false;
    }
    rows::holds(t, v, e)
}

// The lowest container that entity e stands in, or entity 0.
pub fn holder(t: &[u32], e: Entity) -> Entity
    requires { (length t.now ≡ word_count) × WellFormed (tables_of t.now) × (1 ≤ e.0) }
    ensures { result.0 ≡ parent_in (tables_of t.now) e.0 }
{
    for i in 0..size::ENTITIES {
        if contains(t, Entity(i + 1), e) {
            return Entity(i + 1);
        }
    }
    Entity::NONE
}

// Whether some screen shows entity e. What nobody is on shows nothing, so the users lead to all that show something.
pub fn on_screen(t: &[u32], e: Entity) -> bool
    requires { (length t.now ≡ word_count) × WellFormed (tables_of t.now) × (1 ≤ e.0) }
    ensures { result ≡ on_screen (tables_of t.now) e.0 }
{
    for i in 0..size::USERS {
        if sees(t, User(i + 1), e) {
            return true;
        }
    }
    false
}

// Whether c is e or lies in it, by going up from c.
fn inside(t: &[u32], c: Entity, e: Entity) -> bool
    requires { (length t.now ≡ word_count) × WellFormed (tables_of t.now) × (1 ≤ c.0) }
    ensures { result ≡ climb (parent_in (tables_of t.now)) (suc entity_count) c.0 e.0 }
{
    let mut y = c;
    for i in 0..size::PAST_ENTITIES {
        if y == e {
            return true;
        }
        y = holder(t, y);
        if y == Entity::NONE {
            return false;
        }
    }
    false
}

// Whether c is e or lies in it: what holds nothing has nothing in it.
pub fn is_inside(t: &[u32], c: Entity, e: Entity) -> bool
    requires { EntityIn t.now e.0 × WellFormed (tables_of t.now) × (1 ≤ c.0) }
    ensures { result ≡ climb (parent_in (tables_of t.now)) (suc entity_count) c.0 e.0 }
{
    if tables::used(t, e) == 0 {
        return c == e;
    }
    inside(t, c, e)
}
