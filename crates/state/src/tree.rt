// Containers in containers: no entity stands in two, and none lies in itself. The pass over the entities notes for each the container that it stands in.
// Then all entities climb that list at once: whoever has not come out of the last container after as many steps as there are entities, lies in itself.
ghost use Rattle.std.specs.Prelude.{◌≡◌, true, ◌*◌, ◌-◌, get_or, length};
ghost use Rattle.model.specs.Tables.Layout.{tables_of};
ghost use Rattle.model.specs.Tables.Words.{place_count};
ghost use Rattle.state.specs.Holders.{Low, Noted, Noting, entity_numbers};
ghost use Rattle.state.specs.Jumps.{Jumped, all_end};
ghost use Rattle.state.specs.Passes.{own_test};
ghost use Rattle.tables.specs.Singles.{EntityIn};

use names::{kind, size};
use tables::Entity;

// How many rounds the climb has: each ends four times as far up as the one before it, and the jump after the last farther than there are entities.
const ROUNDS: u32 = 3;

// Notes in h what stands in the places of entity c, which is in order by itself, if it is a container. Returns false where some of it is noted already:
// the tables are amiss then.
pub fn note_row(t: &[u32], h: &mut [u32; size::ENTITY_NUMBERS], c: Entity) -> bool
    requires { EntityIn t.now c.0 × (own_test (tables_of t.now) c.0 ≡ true) × Noted (tables_of t.now) ((c.0 - 1) * place_count) h.old }
    ensures { Noting (tables_of t.now) (c.0 * place_count) result h.new }
{
    if tables::kind(t, c) != kind::CONTAINER {
        return true;
    }
    let n = tables::used(t, c);
    for i in 0..n {
        let x = tables::place(t, c, i).0;
        if h[x as usize] != 0 {
            return false;
        }
        h[x as usize] = c.0;
    }
    true
}

// Sets d[i] = a[a[i]] for every i. Returns whether all are 0.
fn jump(a: &[u32; size::ENTITY_NUMBERS], d: &mut [u32; size::ENTITY_NUMBERS]) -> bool
    requires { Low a.now × (length d.old ≡ entity_numbers) }
    ensures { Jumped a.now a.now entity_numbers result d.new }
{
    let mut none = true;
    for i in 0..size::ENTITY_NUMBERS {
        let y = a[a[i] as usize];
        d[i] = y;
        none = (y == 0) & none;
    }
    none
}

// Whether the way up from every entity ends. All of them climb at once, each time twice as far, so that no branch waits for how deep one lies. A copy of
// the list h and one beside it take turns, since what climbs twice as far needs no more than the list before it.
pub fn all_end(h: &[u32; size::ENTITY_NUMBERS]) -> bool
    requires { Low h.now × (get_or h.now 0 0 ≡ 0) }
    ensures { result ≡ all_end h.now }
{
    let mut b = *h;
    let mut a = [0u32; size::ENTITY_NUMBERS];
    for _round in 0..ROUNDS {
        if jump(&b, &mut a) {
            return true;
        }
        if jump(&a, &mut b) {
            return true;
        }
    }
    jump(&b, &mut a)
}
