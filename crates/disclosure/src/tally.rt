// How many references go on from each entity, found without a walk: first by no name, then by one more each time.
ghost use Rattle.std.specs.Prelude.{◌≡◌, ◌*◌, ◌+◌, ◌<◌, ◌≤◌, length};
ghost use Rattle.disclosure.specs.Tallied.{Tallied, row_words, tally_words};
ghost use Rattle.verdicts.specs.Verdicts.{Guided, leads};
ghost use Rattle.disclosure.specs.Visited.{followed, further_most, inside, under};
ghost use Rattle.model.specs.Tables.Words.{entity_count};

use crate::sizes;
use names::size;
use tables::Entity;
use verdicts::Verdict;

// How many go through the places of entity e that lead on, with at most k names after that: the sum of their tallies. Where one leads on, all
// that are used do. The loop goes through those that are not used as well, which hold 0, and the word for 0 is 0: a loop that takes the same
// number of turns each time is one whose end the processor foresees.
fn tally_places(
    t: &[u32],
    v: &[Verdict; size::ENTITY_NUMBERS],
    b: &[u32; sizes::TALLIES],
    k: usize,
    e: Entity,
) -> u32
    requires { Guided t.now v.now × Tallied t.now v.now ((k + 1) * row_words) b.now × (k < further_most) × (1 ≤ e.0) × (e.0 ≤ entity_count) }
    ensures { result ≡ length (inside t.now v.now k e.0 (leads v.now e.0)) }
{
    if v[e.0 as usize].ways == 0 {
        return 0;
    }
    let mut s: u32 = 0;
    for p in 0..size::PLACES {
        let c = tables::place(t, e, p);
        s += b[k * sizes::ROW + c.0 as usize];
    }
    s
}

// How many go on from entity e by at most k names: by none, which counts where e may be shown, or by one and at most k - 1 after it.
fn tally(
    t: &[u32],
    v: &[Verdict; size::ENTITY_NUMBERS],
    b: &[u32; sizes::TALLIES],
    k: usize,
    e: Entity,
) -> u32
    requires { Guided t.now v.now × Tallied t.now v.now (k * row_words) b.now × (k ≤ further_most) × (1 ≤ e.0) × (e.0 ≤ entity_count) }
    ensures { result ≡ length (under t.now v.now k e.0) }
{
    let shown = u32::from(v[e.0 as usize].shown);
    if k == 0 {
        return shown;
    }
    shown + tally_places(t, v, b, k - 1, e)
}

// Stores the tallies of all entities by at most k names, in the row after those by fewer. Its word for no entity stays the 0 that it is.
fn tally_row(
    t: &[u32],
    v: &[Verdict; size::ENTITY_NUMBERS],
    b: &mut [u32; sizes::TALLIES],
    k: usize,
)
    requires { Guided t.now v.now × Tallied t.now v.now (k * row_words) b.old × (k ≤ further_most) }
    ensures { Tallied t.now v.now ((k + 1) * row_words) b.new }
{
    for i in 0..size::ENTITIES {
        b[k * sizes::ROW + (i as usize + 1)] = tally(t, v, b, k, Entity(i + 1));
    }
}

// Stores all rows of tallies.
fn tally_rows(t: &[u32], v: &[Verdict; size::ENTITY_NUMBERS], b: &mut [u32; sizes::TALLIES])
    requires { Guided t.now v.now × Tallied t.now v.now 0 b.old }
    ensures { Tallied t.now v.now tally_words b.new }
{
    for k in 0..sizes::NAMES {
        tally_row(t, v, b, k);
    }
}

// Tallies every entity, and answers how many references the whole list has.
pub fn tally_all(
    t: &[u32],
    v: &[Verdict; size::ENTITY_NUMBERS],
    b: &mut [u32; sizes::TALLIES],
) -> u32
    requires { Guided t.now v.now × Tallied t.now v.now 0 b.old }
    ensures { (result ≡ length (followed t.now v.now entity_count))
        × Tallied t.now v.now tally_words b.new }
{
    tally_rows(t, v, b);
    let mut s: u32 = 0;
    for e in 0..sizes::ENTITIES {
        s += b[sizes::LAST_ROW + e];
    }
    s
}
