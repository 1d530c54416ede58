// What is done to a row of an entity: a word is sought in it, a word is taken out of it, and what stands in it is compared with a level.
#![tactic(auto)]

ghost use Rattle.std.specs.Prelude.{◌≡◌, ◌<◌, ◌≤◌, ltb};
ghost use Rattle.model.specs.Basics.Tests.{every};
ghost use Rattle.model.specs.State.WellFormed.{WellFormed};
ghost use Rattle.model.specs.Tables.Edits.{on_entity, row};
ghost use Rattle.model.specs.Tables.Layout.{tables_of};
ghost use Rattle.model.specs.Tables.Rows.{close, seek};
ghost use Rattle.model.specs.Tables.Words.{place, place_count, places, triple, triples, used_places};
ghost use Rattle.rows.specs.Rows.{place_at_most, row_in};
ghost use Rattle.tables.specs.Singles.{EntityIn, row_word};

use levels::Level;
use names::row::Row;
use names::size;
use tables::Entity;

// The last word of a row.
const LAST: u32 = size::PLACES - 1;

// The place of x among the first n words of row r of entity e, or n.
fn sought(t: &[u32], e: Entity, r: Row, x: u32, n: u32) -> u32
    requires { EntityIn t.now e.0 × (n ≤ place_count) }
    ensures { result ≡ seek x (row_in (row_word r) (tables_of t.now) e.0) n }
{
    for i in 0..n {
        if tables::row_word(t, e, r, i) == x {
            return i;
        }
    }
    n
}

// The place of entity e among the first n places of v, or n.
pub fn place_of(t: &[u32], v: Entity, e: Entity, n: u32) -> u32
    requires { EntityIn t.now v.0 × (n ≤ place_count) }
    ensures { result ≡ seek e.0 (places (tables_of t.now) v.0) n }
{
    sought(t, v, Row::Places, e.0, n)
}

// The place of x among the triples of entity e, or their number where it is none of them.
pub fn triple_place(t: &[u32], e: Entity, x: u32) -> u32
    requires { EntityIn t.now e.0 }
    ensures { result ≡ seek x (triples (tables_of t.now) e.0) place_count }
{
    sought(t, e, Row::Triples, x, size::TRIPLES)
}

// Whether entity e stands in a place of v. All places are compared, wherever e stands: that is faster than a branch at each.
pub fn holds(t: &[u32], v: Entity, e: Entity) -> bool
    requires { EntityIn t.now v.0 }
    ensures { result ≡ ltb (seek e.0 (places (tables_of t.now) v.0) place_count) place_count }
{
    let mut found = false;
    for i in 0..size::PLACES {
        found = (tables::place(t, v, i) == e) | found;
    }
    found
}

// Takes word k out of row r of entity e, and closes up those after it.
fn close_row(t: &mut [u32], e: Entity, r: Row, k: u32)
    requires { EntityIn t.old e.0 × (k < place_count) }
    ensures { tables_of t.new
        ≡ on_entity e.0 (row (row_word r) (close k (row_in (row_word r) (tables_of t.old) e.0))) (tables_of t.old) }
{
    for i in k..LAST {
        let x = tables::row_word(t, e, r, i + 1);
        tables::set_row_word(t, e, r, i, x);
    }
    tables::set_row_word(t, e, r, LAST, 0);
}

// Takes place k out of entity h, and closes up those after it.
pub fn close_places(t: &mut [u32], h: Entity, k: u32)
    requires { EntityIn t.old h.0 × (k < place_count) }
    ensures { tables_of t.new
        ≡ on_entity h.0 (row place (close k (places (tables_of t.old) h.0))) (tables_of t.old) }
{
    close_row(t, h, Row::Places, k);
}

// Takes triple k out of entity e, and closes up those after it.
pub fn close_triples(t: &mut [u32], e: Entity, k: u32)
    requires { EntityIn t.old e.0 × (k < place_count) }
    ensures { tables_of t.new
        ≡ on_entity e.0 (row triple (close k (triples (tables_of t.old) e.0))) (tables_of t.old) }
{
    close_row(t, e, Row::Triples, k);
}

// Whether what stands in place i of entity v, of well-formed tables, is at most level a.
fn place_at_most(t: &[u32], v: Entity, a: Level, i: u32) -> bool
    requires { EntityIn t.now v.0 × WellFormed (tables_of t.now) × (i < used_places (tables_of t.now) v.0) }
    ensures { result ≡ place_at_most (tables_of t.now) v.0 a.0 i }
{
    levels::at_most(tables::level(t, tables::place(t, v, i)), a)
}

// Whether all that stands in the n places that entity v, of well-formed tables, uses is at most level a.
pub fn all_at_most(t: &[u32], v: Entity, a: Level, n: u32) -> bool
    requires { EntityIn t.now v.0 × WellFormed (tables_of t.now) × (n ≡ used_places (tables_of t.now) v.0) }
    ensures { result ≡ every n (place_at_most (tables_of t.now) v.0 a.0) }
{
    for i in 0..n {
        if !place_at_most(t, v, a, i) {
            return false;
        }
    }
    true
}
