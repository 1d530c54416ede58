// Reads the lines of an entity's places and of its triples, and stores what they say.
ghost use Rattle.std.specs.Prelude.{◌≡◌, ◌<◌, ◌≤◌, drop, length};
ghost use Rattle.model.specs.Tables.Layout.{tables_of};
ghost use Rattle.model.specs.Tables.Words.{operation_weight, place_count, triple_of, who_weight};
ghost use Rattle.tables.specs.Singles.{EntityIn};
ghost use Rattle.record_reader.specs.RowAt.{DotAt, PlaceAt, TripleAt};
ghost use Rattle.record_reader.specs.StageAt.{StageAt};
ghost use Rattle.tables_text.specs.Stages.{places_stage, triples_stage};

use crate::records::Stuck;
use lines::reading::{Number, read_end, read_key, read_number};
use names::{text, weight};
use tables::Entity;

// What the line of a place says, and the index after it.
#[derive(Clone, Copy, Debug, PartialEq, Eq)]
pub struct Placed {
    pub entity: u32,
    pub sum: u32,
    pub next: usize,
}

// A number after a dot.
fn dot_number(s: &[u8], at: usize) -> Option<Number>
    requires { at ≤ length s.now }
    ensures { DotAt s.now at result }
{
    let &b = s.get(at)?;
    if b != text::DOT {
        return None;
    }
    read_number(s, at + 1)
}

// The line of a place.
fn place_line(s: &[u8], at: usize) -> Option<Placed>
    requires { at ≤ length s.now }
    ensures { PlaceAt s.now at result }
{
    let i = read_key(s, at, b"content=")?;
    let entity = read_number(s, i)?;
    let sum = dot_number(s, entity.next)?;
    let next = read_end(s, sum.next)?;
    Some(Placed {
        entity: entity.v,
        sum: sum.v,
        next,
    })
}

// The triple of these parts.
fn packed(who: u32, op: u32, position: u32) -> u32
    requires { (who < who_weight) × (op < operation_weight) × (position < operation_weight) }
    ensures { result ≡ triple_of who op position }
{
    who * weight::WHO + op * weight::OPERATION + position
}

// The line of a triple. Its word is not 0, so that no two texts have the same words.
fn triple_line(s: &[u8], at: usize) -> Option<Number>
    requires { at ≤ length s.now }
    ensures { TripleAt s.now at result }
{
    let i = read_key(s, at, b"triple=")?;
    let who = read_number(s, i)?;
    let op = dot_number(s, who.next)?;
    let position = dot_number(s, op.next)?;
    if (weight::WHO <= who.v) | ((weight::OPERATION <= op.v) | (weight::OPERATION <= position.v)) {
        return None;
    }
    let v = packed(who.v, op.v, position.v);
    if v == 0 {
        return None;
    }
    let next = read_end(s, position.next)?;
    Some(Number { v, next })
}

// Reads n lines of places into the places of entity e.
pub fn read_places(s: &[u8], at: usize, t: &mut [u32], e: Entity, n: u32) -> Result<usize, Stuck>
    requires { (at ≤ length s.now) × EntityIn t.old e.0 × (n ≤ place_count) }
    ensures { StageAt s.now (places_stage e.0 n 0 (tables_of t.old) (drop at s.now)) t.new result }
{
    let mut i = at;
    for k in 0..n {
        let Some(Placed { entity, sum, next }) = place_line(s, i) else {
            return Err(Stuck(i));
        };
        tables::set_place(t, e, k, Entity(entity));
        tables::set_shown(t, e, k, sum);
        i = next;
    }
    Ok(i)
}

// Reads n lines of triples into the triples of entity e.
pub fn read_triples(s: &[u8], at: usize, t: &mut [u32], e: Entity, n: u32) -> Result<usize, Stuck>
    requires { (at ≤ length s.now) × EntityIn t.old e.0 × (n ≤ place_count) }
    ensures { StageAt s.now (triples_stage e.0 n 0 (tables_of t.old) (drop at s.now)) t.new result }
{
    let mut i = at;
    for k in 0..n {
        let Some(Number { v, next }) = triple_line(s, i) else {
            return Err(Stuck(i));
        };
        tables::set_triple(t, e, k, v);
        i = next;
    }
    Ok(i)
}
