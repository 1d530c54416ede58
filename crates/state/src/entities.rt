// The records of the entities, each by itself, what stands in their places, and screens that nobody is on; and the one pass over all of them, which notes
// what stands in what and asks what is secure on the way.
ghost use Rattle.std.specs.Prelude.{◌≡◌, not, true, ◌*◌, ◌+◌, ◌-◌, ◌<◌, ◌≤◌, eqb, length};
ghost use Rattle.model.specs.Basics.Tests.{every};
ghost use Rattle.model.specs.State.Tests.{shape_test};
ghost use Rattle.model.specs.Tables.Layout.{entity_width, tables_of, word_count};
ghost use Rattle.model.specs.Tables.WordAt.{entity_word_at};
ghost use Rattle.model.specs.Tables.Words.{kinds, place_count, places, used_places};
ghost use Rattle.state.specs.Holders.{Noted};
ghost use Rattle.state.specs.Judging.{Judging, JudgingAll};
ghost use Rattle.state.specs.Passes.{Counted, bare, entity_blank, holding_test, new_at, object_test, own_test, place_test, shape_at, unlike, used_test};
ghost use Rattle.tables.specs.Singles.{EntityIn};

use crate::{access, tree};
use names::refusal::Refusal;
use names::{kind, range, size, types, word};
use tables::Entity;

// An object has nothing in the words from the releaser to the last that is shown.
const BARE_WORDS: usize = size::ENTITY_WORDS - size::ROW_WORDS - word::RELEASER;

// Whether word f of entity e is zero.
fn word_zero(t: &[u32], e: Entity, f: usize) -> bool
    requires { EntityIn t.now e.0 × (f < entity_width) }
    ensures { result ≡ eqb ((tables_of t.now).entity e.0 (entity_word_at f)) 0 }
{
    tables::word_at(t, e, f) == 0
}

// Whether all words of entity e are zero.
fn entity_blank(t: &[u32], e: Entity) -> bool
    requires { EntityIn t.now e.0 }
    ensures { result ≡ entity_blank (tables_of t.now) e.0 }
{
    let mut blank = true;
    for f in 0..size::ENTITY_WORDS {
        blank = word_zero(t, e, f) & blank;
    }
    blank
}

// Whether the single words of an entity but for the last are in their ranges and fit each other: kind k, type y, level l, mark m, value v,
// releaser b and maximum x.
fn shape_fine(k: u32, y: u32, l: u32, m: u32, v: u32, b: u32, x: u32) -> bool
    ensures { result ≡ shape_test k y l m v b x }
{
    let shows = tables::is_screen(k);
    let container = k == kind::CONTAINER;
    let released = y == types::RELEASED;
    (k <= range::KIND_MOST)
        & ((y <= range::TYPE_MOST)
            & ((l < range::LEVELS)
                & ((m <= range::MARK_MOST)
                    & ((x < range::LEVELS)
                        & (((y == types::PLAIN) | container)
                            & (((m == 0) | container)
                                & ((!released | ((1 <= b) & (b <= size::USERS)))
                                    & ((released | (b == 0))
                                        & ((shows | (x == 0)) & (!shows | (v == 0)))))))))))
}

// Whether the single words of entity e, which is of kind k, but for the last are in order.
fn words_fine(t: &[u32], e: Entity, k: u32) -> bool
    requires { EntityIn t.now e.0 × (k ≡ kinds (tables_of t.now) e.0) }
    ensures { result ≡ shape_at (tables_of t.now) e.0 }
{
    shape_fine(
        k,
        tables::type_of(t, e),
        tables::level(t, e).0,
        tables::mark(t, e),
        tables::value(t, e),
        tables::releaser(t, e).0,
        tables::maximum(t, e).0,
    )
}

// Whether an entity of kind k may use n places.
fn used_fine(k: u32, n: u32) -> bool
    ensures { result ≡ used_test k n }
{
    (n <= size::PLACES) & (!(k == kind::OBJECT) | (n == 0))
}

// Whether place i of entity e, which uses n places and shows them or not, holds what it may, and what is shown of it is what may be.
fn place_fine(t: &[u32], e: Entity, shows: bool, n: u32, i: u32) -> bool
    requires { EntityIn t.now e.0 × Counted (tables_of t.now) e.0 n shows × (i < place_count) }
    ensures { result ≡ place_test (tables_of t.now) e.0 i }
{
    let c = tables::place(t, e, i);
    let x = c.0;
    let v = tables::shown(t, e, i);
    if n <= i {
        return (x == 0) & (v == 0);
    }
    let k = tables::kind_or_zero(t, c);
    (kind::OBJECT <= k)
        & ((k <= kind::CONTAINER)
            & ((!shows | ((1 <= v) & (v <= range::SUM_MOST))) & (shows | (v == 0))))
}

// Whether every place of entity e is in order by itself.
fn places_fine(t: &[u32], e: Entity, shows: bool, n: u32) -> bool
    requires { EntityIn t.now e.0 × Counted (tables_of t.now) e.0 n shows }
    ensures { result ≡ every place_count (place_test (tables_of t.now) e.0) }
{
    (0..size::PLACES).all(|i| place_fine(t, e, shows, n, i))
}

// Whether place j of entity e holds another than x.
fn place_other(t: &[u32], e: Entity, x: u32, j: u32) -> bool
    requires { EntityIn t.now e.0 × (j < place_count) }
    ensures { result ≡ not (eqb (places (tables_of t.now) e.0 j) x) }
{
    !(tables::place(t, e, j).0 == x)
}

// Whether place i of entity e holds nothing, or what none of the places before it holds.
fn place_new(t: &[u32], e: Entity, i: u32) -> bool
    requires { EntityIn t.now e.0 × (i < place_count) }
    ensures { result ≡ new_at (places (tables_of t.now) e.0) i }
{
    let x = tables::place(t, e, i).0;
    if x == 0 {
        return true;
    }
    (0..i).all(|j| place_other(t, e, x, j))
}

// Whether the n places that entity e uses are distinct, where each is in order by itself. All places are looked at, since a loop that always
// ends at the same place has no end to be guessed; those not used are zero and pass.
fn places_new(t: &[u32], e: Entity, n: u32) -> bool
    requires { EntityIn t.now e.0 × (n ≤ place_count) × (n ≡ used_places (tables_of t.now) e.0)
        × (every place_count (place_test (tables_of t.now) e.0) ≡ true) }
    ensures { result ≡ every n (unlike (places (tables_of t.now) e.0)) }
{
    if n <= 1 {
        return true;
    }
    (0..size::PLACES).all(|i| place_new(t, e, i))
}

// Whether the words of entity e from the releaser to the last that is shown are zero.
fn is_bare(t: &[u32], e: Entity) -> bool
    requires { EntityIn t.now e.0 }
    ensures { result ≡ bare (tables_of t.now) e.0 }
{
    let mut blank = true;
    for f in 0..BARE_WORDS {
        blank = word_zero(t, e, word::RELEASER + f) & blank;
    }
    blank
}

// Whether the words of object e before its triples are in order: but for its level and its value they are zero.
fn object_fine(t: &[u32], e: Entity) -> bool
    requires { EntityIn t.now e.0 }
    ensures { result ≡ object_test (tables_of t.now) e.0 }
{
    (tables::level(t, e).0 < range::LEVELS)
        & ((tables::type_of(t, e) == types::PLAIN) & ((tables::mark(t, e) == 0) & is_bare(t, e)))
}

// Whether entity e, which is there, is in order but for its triples. Of an object less need be asked than of what can hold something.
fn holding_fine(t: &[u32], e: Entity, k: u32) -> bool
    requires { EntityIn t.now e.0 × (k ≡ kinds (tables_of t.now) e.0) }
    ensures { result ≡ holding_test (tables_of t.now) e.0 }
{
    if k == kind::OBJECT {
        return object_fine(t, e);
    }
    if !words_fine(t, e, k) {
        return false;
    }
    let n = tables::used(t, e);
    if !used_fine(k, n) {
        return false;
    }
    let shows = tables::is_screen(k);
    if !places_fine(t, e, shows, n) {
        return false;
    }
    if !places_new(t, e, n) {
        return false;
    }
    if !shows | (n == 0) {
        return true;
    }
    !tables::nobody_on(t, e, size::USERS)
}

// Whether entity e, which is there, is in order.
fn present_fine(t: &[u32], e: Entity, k: u32) -> bool
    requires { EntityIn t.now e.0 × (k ≡ kinds (tables_of t.now) e.0) × (1 ≤ k) }
    ensures { result ≡ own_test (tables_of t.now) e.0 }
{
    if !holding_fine(t, e, k) {
        return false;
    }
    access::triples_fine(t, e)
}

// Whether entity e is in order: its record by itself, what stands in its places, and its screen.
fn entity_fine(t: &[u32], e: Entity) -> bool
    requires { EntityIn t.now e.0 }
    ensures { result ≡ own_test (tables_of t.now) e.0 }
{
    let k = tables::kind(t, e);
    if k == kind::ABSENT {
        return entity_blank(t, e);
    }
    present_fine(t, e, k)
}

// Whether entity e is secure; what stands in it is noted in h. It is refused where it is not in order, or where something in it is noted already.
// What is absent holds nothing.
fn entity_judged(t: &[u32], h: &mut [u32; size::ENTITY_NUMBERS], e: Entity) -> Result<bool, Refusal>
    requires { EntityIn t.now e.0 × Noted (tables_of t.now) ((e.0 - 1) * place_count) h.old }
    ensures { Judging (tables_of t.now) e.0 result h.new }
{
    if !entity_fine(t, e) {
        return Err(Refusal::NotWellFormed);
    }
    if tables::kind(t, e) == kind::ABSENT {
        return Ok(true);
    }
    if !tree::note_row(t, h, e) {
        return Err(Refusal::NotWellFormed);
    }
    Ok(secure::entity_secure(t, e))
}

// Whether every entity is secure, in one pass. It stops where the tables are not well-formed; that they are not secure is answered only at its end, since
// the refusal of tables that are not well-formed comes first.
pub fn entities_judged(t: &[u32], h: &mut [u32; size::ENTITY_NUMBERS]) -> Result<bool, Refusal>
    requires { (length t.now ≡ word_count) × Noted (tables_of t.now) 0 h.old }
    ensures { JudgingAll (tables_of t.now) result h.new }
{
    let mut kept = true;
    for i in 0..size::ENTITIES {
        kept &= entity_judged(t, h, Entity(i + 1))?;
    }
    Ok(kept)
}
