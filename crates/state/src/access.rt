// The access triples of an entity: what each may name, and that none stands twice.
ghost use Rattle.std.specs.Prelude.{◌≡◌, not, ◌+◌, ◌<◌, ◌≤◌, eqb};
ghost use Rattle.model.specs.Basics.Tests.{every};
ghost use Rattle.model.specs.State.Tests.{triple_test};
ghost use Rattle.model.specs.Tables.Layout.{tables_of};
ghost use Rattle.model.specs.Tables.Words.{place_count, triples};
ghost use Rattle.state.specs.Passes.{triple_new};
ghost use Rattle.tables.specs.Singles.{EntityIn};

use names::{range, size, weight};
use tables::Entity;

// The place of the last triple.
const LAST_TRIPLE: u32 = size::TRIPLES - 1;

// The first word that names nobody any more.
const PAST_WHO: u32 = (range::WHO_MOST + 1) * weight::WHO;

// What the top bit weighs in the byte that names the position, and in the one that names the operation.
const POSITION_TOP: u32 = weight::OPERATION / 2;

const OPERATION_TOP: u32 = weight::WHO / 2;

// What each byte, at its greatest number, lacks to the last number without its top bit.
const LACKING: u32 = (POSITION_TOP - 1 - range::OPERATION_MOST) * weight::OPERATION
    + (POSITION_TOP - 1 - range::POSITION_MOST);

// One in each byte.
const ONES: u32 = weight::OPERATION + 1;

// Whether a word names somebody, an operation and a position. Who is compared as part of the whole word. Both bytes below are asked at once, by their top
// bits: a byte that is too great has its own set in one of two sums, where what its greatest number lacks is added and where one is taken away; a byte that
// is 0 has it set in the second. Each of the others has it in neither.
fn named(x: u32) -> bool
    ensures { result ≡ triple_test x }
{
    if (x < weight::WHO) | (PAST_WHO <= x) {
        return false;
    }
    let more = x + LACKING;
    let less = x - ONES;
    ((more / POSITION_TOP % 2 == 0) & (less / POSITION_TOP % 2 == 0))
        & ((more / OPERATION_TOP % 2 == 0) & (less / OPERATION_TOP % 2 == 0))
}

// Whether triple j of entity e is another than x.
fn triple_other(t: &[u32], e: Entity, x: u32, j: u32) -> bool
    requires { EntityIn t.now e.0 × (j < place_count) }
    ensures { result ≡ not (eqb (triples (tables_of t.now) e.0 j) x) }
{
    !(tables::triple(t, e, j) == x)
}

// Whether none of the first n triples of entity e is x.
fn triple_unlike(t: &[u32], e: Entity, n: u32, x: u32) -> bool
    requires { EntityIn t.now e.0 × (n ≤ place_count) }
    ensures { result ≡ every n (λ j. not (eqb (triples (tables_of t.now) e.0 j) x)) }
{
    (0..n).all(|j| triple_other(t, e, x, j))
}

// Whether triple i of entity e is zero and so is the next one, or it names what it may and is none of those before it.
fn triple_fine(t: &[u32], e: Entity, i: u32) -> bool
    requires { EntityIn t.now e.0 × (i < place_count) }
    ensures { result ≡ triple_new (triples (tables_of t.now) e.0) i }
{
    let x = tables::triple(t, e, i);
    if x == 0 {
        if LAST_TRIPLE <= i {
            return true;
        }
        return tables::triple(t, e, i + 1) == 0;
    }
    if !named(x) {
        return false;
    }
    triple_unlike(t, e, i, x)
}

// Whether the access triples of entity e are in order.
pub fn triples_fine(t: &[u32], e: Entity) -> bool
    requires { EntityIn t.now e.0 }
    ensures { result ≡ every place_count (triple_new (triples (tables_of t.now) e.0)) }
{
    (0..size::TRIPLES).all(|i| triple_fine(t, e, i))
}
