// Reads the records of users and of entities into tables. A record begins with the line of its number; numbers rise.
ghost use Rattle.std.specs.Prelude.{◌≡◌, ◌≤◌, drop, length};
ghost use Rattle.model.specs.Tables.Layout.{tables_of, word_count};
ghost use Rattle.model.specs.Tables.Words.{entity_count, user_count};
ghost use Rattle.tables.specs.Singles.{EntityIn, UserIn};
ghost use Rattle.record_reader.specs.Rest.{access_rest, places_rest};
ghost use Rattle.record_reader.specs.StageAt.{StageAt};
ghost use Rattle.tables_text.specs.Keys.{single_fields};
ghost use Rattle.tables_text.specs.Stages.{entities_stage, entity_record, entity_stage, user_record, users_stage};

use crate::rows::{read_places, read_triples};
use crate::singles::{entity_line, places_line, triples_line, user_line};
use lines::reading::{Number, read_line};
use names::{size, word};
use tables::{Entity, User};

// Where a reading stopped: the index of the first line that is bad or missing. One that came past its lines answers the index after them.
#[derive(Clone, Copy, Debug, PartialEq, Eq)]
pub struct Stuck(pub usize);

// Reads the lines of user u behind that of the number.
fn read_user(s: &[u8], at: usize, t: &mut [u32], u: User) -> Result<usize, Stuck>
    requires { (at ≤ length s.now) × UserIn t.old u.0 }
    ensures { StageAt s.now (user_record u.0 (tables_of t.old) (drop at s.now)) t.new result }
{
    tables::set_word_at(t, u, word::PRESENT, 1);
    let mut i = at;
    for j in word::CLEARANCE..size::SINGLES {
        let Some(Number { v, next }) = user_line(s, i, j) else {
            return Err(Stuck(i));
        };
        tables::set_word_at(t, u, j, v);
        i = next;
    }
    Ok(i)
}

// Reads the lines of entity e that have one number, before that of its places.
fn read_singles(s: &[u8], at: usize, t: &mut [u32], e: Entity) -> Result<usize, Stuck>
    requires { (at ≤ length s.now) × EntityIn t.old e.0 }
    ensures { StageAt s.now (entity_stage e.0 single_fields 0 (tables_of t.old) (drop at s.now)) t.new result }
{
    let mut i = at;
    for j in word::KIND..word::USED {
        let Some(Number { v, next }) = entity_line(s, i, j) else {
            return Err(Stuck(i));
        };
        tables::set_word_at(t, e, j, v);
        i = next;
    }
    Ok(i)
}

// Reads the number of the triples of entity e, and the triples.
fn read_access(s: &[u8], at: usize, t: &mut [u32], e: Entity) -> Result<usize, Stuck>
    requires { (at ≤ length s.now) × EntityIn t.old e.0 }
    ensures { StageAt s.now (access_rest e.0 (tables_of t.old) (drop at s.now)) t.new result }
{
    let Some(Number { v, next }) = triples_line(s, at) else {
        return Err(Stuck(at));
    };
    read_triples(s, next, t, e, v)
}

// Reads the number of the places of entity e, the places, and then its triples.
fn read_rows(s: &[u8], at: usize, t: &mut [u32], e: Entity) -> Result<usize, Stuck>
    requires { (at ≤ length s.now) × EntityIn t.old e.0 }
    ensures { StageAt s.now (places_rest e.0 (tables_of t.old) (drop at s.now)) t.new result }
{
    let Some(Number { v, next }) = places_line(s, at) else {
        return Err(Stuck(at));
    };
    tables::set_used(t, e, v);
    let i = read_places(s, next, t, e, v)?;
    read_access(s, i, t, e)
}

// Reads the lines of entity e behind that of the number.
fn read_entity(s: &[u8], at: usize, t: &mut [u32], e: Entity) -> Result<usize, Stuck>
    requires { (at ≤ length s.now) × EntityIn t.old e.0 }
    ensures { StageAt s.now (entity_record e.0 (tables_of t.old) (drop at s.now)) t.new result }
{
    let i = read_singles(s, at, t, e)?;
    read_rows(s, i, t, e)
}

// Reads the users, as far as the text has any.
pub fn read_users(s: &[u8], t: &mut [u32]) -> Result<usize, Stuck>
    requires { length t.old ≡ word_count }
    ensures { StageAt s.now (users_stage user_count 1 (tables_of t.old) s.now) t.new result }
{
    let mut i = 0;
    let mut last = 0;
    while last < size::USERS {
        let Some(Number { v, next }) = read_line(s, i, b"user=") else {
            return Ok(i);
        };
        if (v <= last) | (size::USERS < v) {
            return Ok(i);
        }
        i = read_user(s, next, t, User(v))?;
        last = v;
    }
    Ok(i)
}

// Reads the entities from an index on, as far as the text has any.
pub fn read_entities(s: &[u8], at: usize, t: &mut [u32]) -> Result<usize, Stuck>
    requires { (at ≤ length s.now) × (length t.old ≡ word_count) }
    ensures { StageAt s.now (entities_stage entity_count 1 (tables_of t.old) (drop at s.now)) t.new result }
{
    let mut i = at;
    let mut last = 0;
    while last < size::ENTITIES {
        let Some(Number { v, next }) = read_line(s, i, b"entity=") else {
            return Ok(i);
        };
        if (v <= last) | (size::ENTITIES < v) {
            return Ok(i);
        }
        i = read_entity(s, next, t, Entity(v))?;
        last = v;
    }
    Ok(i)
}
