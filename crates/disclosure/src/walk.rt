// The walk: one function looks at an entity, the other goes through its places and hands each back to the first, as long as names are left.
// The verdicts say what is listed and how many places lead on, the tallies from where nothing can be listed. The entries are stored one
// after the other, in a room that has space for them all.
ghost use Rattle.std.specs.Prelude.{[], ◌++◌, ◌∷◌, ◌≡◌, ◌+◌, ◌-◌, ◌<◌, ◌≤◌, length, take};
ghost use Rattle.std.proofs.lemmas.List.Edits.{sets};
ghost use Rattle.disclosure.specs.Tallied.{Arrived, Tallied, tally_words};
ghost use Rattle.disclosure.specs.Visited.{Fits, Padded, Visited, followed, further_most, inside, under};
ghost use Rattle.verdicts.specs.Verdicts.{Guided, leads};
ghost use Rattle.model.specs.List.Listing.{entries, entry, entry_words};
ghost use Rattle.model.specs.List.Walk.{here};
ghost use Rattle.model.specs.Request.Words.{name_count};
ghost use Rattle.model.specs.Tables.Words.{entity_count};

use crate::sizes;
use names::size;
use tables::Entity;
use verdicts::Verdict;

// What the walk goes by: the tables, the verdicts on their entities, and the tallies that the verdicts give.
#[derive(Clone, Copy)]
pub struct Guide<'a> {
    pub tables: &'a [u32],
    pub verdicts: &'a [Verdict; size::ENTITY_NUMBERS],
    pub tallies: &'a [u32; sizes::TALLIES],
}

// Stores the number n, and all four names after it.
fn put_names(n: usize, names: [u32; sizes::NAMES], room: &mut [u32], at: usize)
    requires { (n ≤ name_count) × (length names ≡ name_count) × (at + entry_words ≤ length room.old) }
    ensures { room.new ≡ sets room.old at (n ∷ names) }
{
    room[at] = n as u32;
    room[at + 1] = names[0];
    room[at + 2] = names[1];
    room[at + 3] = names[2];
    room[at + 4] = names[3];
}

// Stores the entry of all names but the last `left`: how many they are, then each name, and 0 for those that are left.
fn put_entry(left: usize, names: [u32; sizes::NAMES], room: &mut [u32], at: usize)
    requires { (left ≤ further_most) × Padded names (name_count - left) × (at + entry_words ≤ length room.old) }
    ensures { room.new ≡ sets room.old at (entry (take (name_count - left) names)) }
{
    put_names(sizes::NAMES - left, names, room, at);
}

// Stores the entry if it is to be listed. Returns where the next one goes.
fn visit_here(
    shown: bool,
    left: usize,
    names: [u32; sizes::NAMES],
    room: &mut [u32],
    at: usize,
) -> usize
    requires { (left ≤ further_most) × Padded names (name_count - left) × Fits room.old at (here shown) }
    ensures { Visited (take (name_count - left) names) room.old at (here shown) result room.new }
{
    if !shown {
        return at;
    }
    put_entry(left, names, room, at);
    at + size::ENTRY_WORDS
}

// Stores the entry of all names but the last `left`, and of one more after them. The room is written twice where that one goes, and no array
// is made of them all: an array with a word just stored by its index, read as a whole, makes the processor wait for that word.
fn put_last(left: usize, names: [u32; sizes::NAMES], last: u32, room: &mut [u32], at: usize)
    requires { (0 < left) × (left ≤ further_most) × Padded names (name_count - left) × (at + entry_words ≤ length room.old) }
    ensures { room.new ≡ sets room.old at (entry (take (name_count - left) names ++ (last ∷ []))) }
{
    put_names(sizes::NAMES + 1 - left, names, room, at);
    room[at + 1 + sizes::NAMES - left] = last;
}

// Stores the entry of one name more if it is to be listed. Returns where the next one goes.
fn visit_last(
    shown: bool,
    left: usize,
    names: [u32; sizes::NAMES],
    last: u32,
    room: &mut [u32],
    at: usize,
) -> usize
    requires { (0 < left) × (left ≤ further_most) × Padded names (name_count - left) × Fits room.old at (here shown) }
    ensures { Visited (take (name_count - left) names ++ (last ∷ [])) room.old at (here shown) result room.new }
{
    if !shown {
        return at;
    }
    put_last(left, names, last, room, at);
    at + size::ENTRY_WORDS
}

// Visits entity e, which the names before the last `left` lead to, and what they lead to by further names.
#[cycle(visit_entity_visit_places)]
fn visit_entity(
    g: &Guide,
    e: Entity,
    left: usize,
    names: [u32; sizes::NAMES],
    room: &mut [u32],
    at: usize,
) -> usize
    requires { let t = g.now.tables.now in let v = g.now.verdicts.now in
        Arrived t v g.now.tallies.now e.0 left names × Fits room.old at (under t v left e.0) }
    ensures { let t = g.now.tables.now in let v = g.now.verdicts.now in
        Visited (take (name_count - left) names) room.old at (under t v left e.0) result room.new }
{
    let w = &g.verdicts[e.0 as usize];
    let next = visit_here(w.shown, left, names, room, at);
    if left == 0 {
        return next;
    }
    visit_places(g, e, w.ways, left, names, room, next)
}

// Visits the places of entity e that lead on, but for those from which nothing can be listed. What nothing follows, for want of places that
// lead on or of names, is done with at once and before all else: most visits are of that kind. What the guide refers to is taken out of it
// first, since a loop that stores into the room would read it again in each turn.
#[cycle(visit_entity_visit_places)]
fn visit_places(
    g: &Guide,
    e: Entity,
    n: u32,
    left: usize,
    names: [u32; sizes::NAMES],
    room: &mut [u32],
    at: usize,
) -> usize
    requires { let t = g.now.tables.now in let v = g.now.verdicts.now in
        Arrived t v g.now.tallies.now e.0 left names × (0 < left) × (n ≡ leads v e.0) × Fits room.old at (inside t v (left - 1) e.0 n) }
    ensures { let t = g.now.tables.now in let v = g.now.verdicts.now in
        Visited (take (name_count - left) names) room.old at (inside t v (left - 1) e.0 n) result room.new }
{
    let Guide {
        tables,
        verdicts,
        tallies,
    } = *g;
    let mut i = at;
    for p in 0..n {
        let c = tables::place(tables, e, p);
        let w = &verdicts[c.0 as usize];
        if (w.ways == 0) | (left == 1) {
            i = visit_last(w.shown, left, names, p + 1, room, i);
        } else if tallies[(left - 1) * sizes::ROW + c.0 as usize] != 0 {
            let mut longer = names;
            longer[sizes::NAMES - left] = p + 1;
            i = visit_entity(g, c, left - 1, longer, room, i);
        }
    }
    i
}

// Visits every entity from which something can be listed, by its number, and so writes the whole list from the front of the room.
pub fn visit_all(g: &Guide, room: &mut [u32])
    requires { let t = g.now.tables.now in let v = g.now.verdicts.now in
        Guided t v × Tallied t v tally_words g.now.tallies.now × Fits room.old 0 (followed t v entity_count) }
    ensures { room.new ≡ sets room.old 0 (entries (followed g.now.tables.now g.now.verdicts.now entity_count)) }
{
    let mut i: usize = 0;
    for e in 0..size::ENTITIES {
        if g.tallies[sizes::LAST_ROW + e as usize] != 0 {
            let mut names = [0u32; sizes::NAMES];
            names[0] = e + 1;
            i = visit_entity(g, Entity(e + 1), sizes::FURTHER, names, room, i);
        }
    }
}
