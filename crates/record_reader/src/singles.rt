// Reads one line of a record that has one number. The lines of a record are told apart by the place of their word in it.
ghost use Rattle.std.specs.Prelude.{◌<◌, ◌≤◌, length};
ghost use Rattle.tables.specs.Singles.{single_count};
ghost use Rattle.record_reader.specs.FieldAt.{FieldAt, entity_field, last_single, user_field};
ghost use Rattle.tables_text.specs.Keys.{kind_field, places_field, triples_field};

use lines::reading::{Number, read_line};
use names::{kind, size, word};

// The line of word j of a user's record. Each key is written out at its call, so that it is compared in place.
pub fn user_line(s: &[u8], at: usize, j: usize) -> Option<Number>
    requires { (at ≤ length s.now) × (1 ≤ j) × (j < single_count) }
    ensures { FieldAt s.now at (user_field j) result }
{
    match j {
        word::CLEARANCE => read_line(s, at, b"clearance="),
        word::AUTHORISED => read_line(s, at, b"authorised="),
        word::CURRENT => read_line(s, at, b"current="),
        word::DEVICE => read_line(s, at, b"device="),
        word::HELD => read_line(s, at, b"held="),
        word::HELD_OPERATION => read_line(s, at, b"operation="),
        _ => read_line(s, at, b"missed="),
    }
}

// The line of an entity's kind, which is not 0.
fn kind_line(s: &[u8], at: usize) -> Option<Number>
    requires { at ≤ length s.now }
    ensures { FieldAt s.now at kind_field result }
{
    let n = read_line(s, at, b"kind=")?;
    if n.v == kind::ABSENT {
        return None;
    }
    Some(n)
}

// The line of word j of an entity's record, before that of its places.
pub fn entity_line(s: &[u8], at: usize, j: usize) -> Option<Number>
    requires { (at ≤ length s.now) × (j < last_single) }
    ensures { FieldAt s.now at (entity_field j) result }
{
    match j {
        word::KIND => kind_line(s, at),
        word::TYPE => read_line(s, at, b"type="),
        word::LEVEL => read_line(s, at, b"level="),
        word::MARK => read_line(s, at, b"mark="),
        word::VALUE => read_line(s, at, b"value="),
        word::RELEASER => read_line(s, at, b"releaser="),
        _ => read_line(s, at, b"maximum="),
    }
}

// The line with the number of an entity's places, eight at most.
pub fn places_line(s: &[u8], at: usize) -> Option<Number>
    requires { at ≤ length s.now }
    ensures { FieldAt s.now at places_field result }
{
    let n = read_line(s, at, b"places=")?;
    if size::PLACES < n.v {
        return None;
    }
    Some(n)
}

// The line with the number of its triples, eight at most.
pub fn triples_line(s: &[u8], at: usize) -> Option<Number>
    requires { at ≤ length s.now }
    ensures { FieldAt s.now at triples_field result }
{
    let n = read_line(s, at, b"triples=")?;
    if size::TRIPLES < n.v {
        return None;
    }
    Some(n)
}
