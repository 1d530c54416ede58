// Whether any tables are secure (definition 2): what is asked of an entity, and the pass over the users.
#![tactic(auto)]

ghost use Rattle.std.specs.Prelude.{true, ◌≡◌, ◌+◌, ◌<◌, ◌≤◌, suc, length};
ghost use Rattle.model.specs.Basics.Tests.{every};
ghost use Rattle.model.specs.Level.{at_most};
ghost use Rattle.model.specs.Tables.Layout.{tables_of, word_count};
ghost use Rattle.model.specs.Tables.Words.{level, place_count, places, user_count};
ghost use Rattle.secure.specs.Secured.{Graded, all_secure, entity_secure, place_secure, user_secure};
ghost use Rattle.tables.specs.Singles.{EntityIn, UserIn};

use levels::Level;
use names::size;
use tables::{Entity, User};

// Whether place i of entity e, which is of level l and shows its places or not, keeps rules 4.1 and 4.3.
fn place_secure(t: &[u32], e: Entity, l: Level, shows: bool, i: u32) -> bool
    requires { EntityIn t.now e.0 × Graded (tables_of t.now) e.0 l.0 shows × (i < place_count) }
    ensures { result ≡ place_secure (tables_of t.now) e.0 i }
{
    levels::at_most(tables::level_or_zero(t, tables::place(t, e, i)), l)
        & (!shows | tables::sums::is_labelled(tables::shown(t, e, i)))
}

// Whether the first n places of entity e keep rules 4.1 and 4.3. The loop is written out, since the check is faster so than by `all`.
fn places_secure(t: &[u32], e: Entity, l: Level, shows: bool, n: u32) -> bool
    requires { EntityIn t.now e.0 × Graded (tables_of t.now) e.0 l.0 shows × (n ≤ place_count) }
    ensures { result ≡ every n (place_secure (tables_of t.now) e.0) }
{
    for i in 0..n {
        if !place_secure(t, e, l, shows, i) {
            return false;
        }
    }
    true
}

// Whether entity e keeps rules 4.1, 4.3 and 4.5.
pub fn entity_secure(t: &[u32], e: Entity) -> bool
    requires { EntityIn t.now e.0 }
    ensures { result ≡ entity_secure (tables_of t.now) e.0 }
{
    let n = tables::used(t, e).min(size::PLACES);
    let l = tables::level(t, e);
    let shows = tables::is_screen(tables::kind(t, e));
    if !places_secure(t, e, l, shows, n) {
        return false;
    }
    if !shows {
        return true;
    }
    levels::at_most(l, tables::maximum(t, e))
}

// Whether what stands in place i of device v is at most level c.
fn place_below(t: &[u32], v: Entity, c: Level, i: u32) -> bool
    requires { EntityIn t.now v.0 × (i < place_count) }
    ensures { result ≡ at_most ((tables_of t.now).entity (places (tables_of t.now) v.0 i) level) c.0 }
{
    levels::at_most(tables::level_or_zero(t, tables::place(t, v, i)), c)
}

// Whether what stands in the first n places of device v is at most level c.
fn places_below(t: &[u32], v: Entity, c: Level, n: u32) -> bool
    requires { EntityIn t.now v.0 × (n ≤ place_count) }
    ensures { result ≡ every n (λ i. at_most ((tables_of t.now).entity (places (tables_of t.now) v.0 i) level) c.0) }
{
    (0..n).all(|i| place_below(t, v, c, i))
}

// Whether user u keeps rules 4.2 and 4.4, where every entity is secure. What a device shows is at most its own level then (4.1), so it need not be
// looked at where that level is at most the clearance.
fn user_secure(t: &[u32], u: User) -> bool
    requires { UserIn t.now u.0 × (all_secure (tables_of t.now) ≡ true) }
    ensures { result ≡ user_secure (tables_of t.now) u.0 }
{
    if !levels::roles_within(tables::current(t, u), tables::authorised(t, u)) {
        return false;
    }
    let v = tables::device(t, u);
    let n = v.0;
    if n < 1 {
        return true;
    }
    if size::ENTITIES < n {
        return true;
    }
    let c = tables::clearance(t, u);
    if levels::at_most(tables::level(t, v), c) {
        return true;
    }
    places_below(t, v, c, tables::used(t, v).min(size::PLACES))
}

// Whether every user keeps rules 4.2 and 4.4, where every entity is secure.
pub fn users_secure(t: &[u32]) -> bool
    requires { (length t.now ≡ word_count) × (all_secure (tables_of t.now) ≡ true) }
    ensures { result ≡ every user_count (λ u. user_secure (tables_of t.now) (suc u)) }
{
    (0..size::USERS).all(|i| user_secure(t, User(i + 1)))
}
