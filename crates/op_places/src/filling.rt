// What the three operations store: places that are left or filled, and records that appear or go; and the number that is free for a new one.
ghost use Rattle.std.specs.Prelude.{◌≡◌, ◌<◌, ℕ, length};
ghost use Rattle.model.specs.Effect.Places.{erase, fresh, leave, put, sort_kind, sort_type, vacant};
ghost use Rattle.model.specs.State.WellFormed.{WellFormed};
ghost use Rattle.model.specs.Tables.Edits.{on_entity, row};
ghost use Rattle.model.specs.Tables.Layout.{tables_of, word_count};
ghost use Rattle.model.specs.Tables.Words.{used_places, place_count, sums, triple, triples};
ghost use Rattle.standing.specs.Standing.{parent_in};
ghost use Rattle.tables.specs.Singles.{EntityIn};

use levels::Level;
use names::{kind, size, sort, types};
use tables::Entity;

// Takes entity e out of h, the container that it is in. Where h is entity 0 it is in none.
pub fn leave(t: &mut [u32], h: Entity, e: Entity)
    requires { (length t.old ≡ word_count) × WellFormed (tables_of t.old) × (h.0 ≡ parent_in (tables_of t.old) e.0) }
    ensures { tables_of t.new ≡ leave e.0 (tables_of t.old) }
{
    if h.0 == 0 {
        return;
    }
    let n = tables::used(t, h);
    rows::close_places(t, h, rows::place_of(t, h, e, n));
    tables::set_used(t, h, n - 1);
}

// Puts entity e last in c. Nothing is shown of what c holds.
pub fn put_last(t: &mut [u32], c: Entity, e: Entity)
    requires { EntityIn t.old c.0 × (used_places (tables_of t.old) c.0 < place_count) × ((i : ℕ) → sums (tables_of t.old) c.0 i ≡ 0) }
    ensures { tables_of t.new ≡ put c.0 e.0 0 (tables_of t.old) }
{
    let n = tables::used(t, c);
    tables::set_place(t, c, n, e);
    tables::set_used(t, c, n + 1);
}

// The lowest absent entity, or the first number past all entities.
pub fn vacant(t: &[u32]) -> Entity
    requires { length t.now ≡ word_count }
    ensures { result.0 ≡ vacant (tables_of t.now) }
{
    for i in 0..size::ENTITIES {
        if tables::kind(t, Entity(i + 1)) == kind::ABSENT {
            return Entity(i + 1);
        }
    }
    Entity(size::PAST_ENTITIES)
}

// Gives entity e the triples of entity c.
fn copy_triples(t: &mut [u32], e: Entity, c: Entity)
    requires { EntityIn t.old e.0 × EntityIn t.old c.0 }
    ensures { tables_of t.new ≡ on_entity e.0 (row triple (triples (tables_of t.old) c.0)) (tables_of t.old) }
{
    for i in 0..size::TRIPLES {
        let x = tables::triple(t, c, i);
        tables::set_triple(t, e, i, x);
    }
}

// The kind of a sort: an object, or a container.
fn sort_kind(s: u32) -> u32
    ensures { result ≡ sort_kind s }
{
    if s == sort::OBJECT {
        return kind::OBJECT;
    }
    kind::CONTAINER
}

// The type of a sort: a draft, or plain.
fn sort_type(s: u32) -> u32
    ensures { result ≡ sort_type s }
{
    if s == sort::DRAFT {
        return types::DRAFT;
    }
    types::PLAIN
}

// Makes entity e: of sort s and level l, with the triples of c.
pub fn bear(t: &mut [u32], e: Entity, c: Entity, s: u32, l: Level)
    requires { EntityIn t.old e.0 × EntityIn t.old c.0 }
    ensures { tables_of t.new ≡ fresh e.0 c.0 (sort_kind s) (sort_type s) l.0 (tables_of t.old) }
{
    tables::set_kind(t, e, sort_kind(s));
    tables::set_type(t, e, sort_type(s));
    tables::set_level(t, e, l);
    copy_triples(t, e, c);
}

// Sets every word of entity e to zero.
pub fn erase(t: &mut [u32], e: Entity)
    requires { EntityIn t.old e.0 }
    ensures { tables_of t.new ≡ erase e.0 (tables_of t.old) }
{
    for f in 0..size::ENTITY_WORDS {
        tables::set_word_at(t, e, f, 0);
    }
}
