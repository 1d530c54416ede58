// Where a reference leads, whether the way there is open, and whether an entity's triples permit a request.
#![tactic(auto)]

ghost use Rattle.std.specs.Prelude.{◌≡◌, ◌≤◌, length};
ghost use Rattle.model.specs.Request.Ladder.{permits};
ghost use Rattle.model.specs.Tables.Layout.{tables_of, word_count};
ghost use Rattle.model.specs.Tables.Words.{operation_count, position_count};
ghost use Rattle.reference.specs.Ways.{Ranged, admits, bar, found, onward};
ghost use Rattle.tables.specs.Singles.{EntityIn, UserIn};

use levels::Level;
use names::{kind, range, size, weight};
use tables::{Entity, User, triples};

// Where a reference leads, and whether every marked container on the way may be passed; or that it leads nowhere. The two are fields of the variant:
// a struct in an `Option` would be copied as a whole where its parts have just been stored one by one, and the processor would wait for them.
#[derive(Clone, Copy)]
pub enum Found {
    At(Entity, bool),
    Nowhere,
}

// Whether entity e is marked and level l is not at least its level.
pub fn is_bar(t: &[u32], l: Level, e: Entity) -> bool
    requires { EntityIn t.now e.0 }
    ensures { result ≡ bar (tables_of t.now) l.0 e.0 }
{
    if tables::mark(t, e) == 0 {
        return false;
    }
    !levels::at_most(tables::level(t, e), l)
}

// Where the names that are left lead from entity e. `clear` says whether the way so far is open.
fn follow(t: &[u32], l: Level, e: Entity, clear: bool, names: &[u32]) -> Found
    requires { EntityIn t.now e.0 × Ranged (tables_of t.now) }
    ensures { result ≡ onward (tables_of t.now) l.0 e.0 clear names.now }
{
    let [p, rest @ ..] = names else {
        return Found::At(e, clear);
    };
    if !(1..=tables::used(t, e)).contains(p) {
        return Found::Nowhere;
    }
    let c = tables::place(t, e, *p - 1);
    let open = clear & !is_bar(t, l, e);
    follow(t, l, c, open, rest)
}

// Where names lead, for a requester of clearance l.
pub fn resolve(t: &[u32], l: Level, names: &[u32]) -> Found
    requires { (length t.now ≡ word_count) × Ranged (tables_of t.now) × (1 ≤ length names.now) }
    ensures { result ≡ found (tables_of t.now) l.0 names.now }
{
    let n = names[0];
    if !(1..=size::ENTITIES).contains(&n) {
        return Found::Nowhere;
    }
    let e = Entity(n);
    if tables::kind(t, e) == kind::ABSENT {
        return Found::Nowhere;
    }
    if names.len() == 1 {
        return Found::At(e, true);
    }
    follow(t, l, e, true, &names[1..])
}

// Whether the triple x has this key and names user u or one of the roles. A key is an operation and a position.
fn is_admitted(x: u32, u: User, roles: u32, key: u32) -> bool
    ensures { result ≡ admits u.0 roles key x }
{
    if triples::key(x) != key {
        return false;
    }
    let who = triples::who(x);
    if who == u.0 {
        return true;
    }
    if who < weight::FIRST_ROLE {
        return false;
    }
    if range::WHO_MOST < who {
        return false;
    }
    levels::has_bit(who - weight::FIRST_ROLE, roles)
}

// Whether a triple of entity e permits the operation, with e in this position, to user u or to a role that u acts with.
pub fn is_permitted(t: &[u32], e: Entity, u: User, op: u32, position: u32) -> bool
    requires { EntityIn t.now e.0 × UserIn t.now u.0 × (op ≤ operation_count) × (position ≤ position_count) }
    ensures { result ≡ permits (tables_of t.now) u.0 op position e.0 }
{
    let roles = tables::current(t, u);
    let key = triples::key_of(op, position);
    (0..size::TRIPLES).any(|i| is_admitted(tables::triple(t, e, i), u, roles, key))
}
