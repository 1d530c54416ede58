// Writes the records of entities (rule 16.2).
ghost use Rattle.std.specs.Prelude.{◌<◌, ◌≤◌};
ghost use Rattle.lines.specs.Adds.{Adds, Room};
ghost use Rattle.model.specs.Tables.Layout.{tables_of};
ghost use Rattle.model.specs.Tables.Words.{entity_count, place_count, used_places};
ghost use Rattle.tables.specs.Singles.{EntityIn, single_count};
ghost use Rattle.tables_text.specs.Keys.{entity_fields};
ghost use Rattle.tables_text.specs.TextOf.{entity_text, entity_words, field_lines, place_at, series, triple_at};
ghost use Rattle.record_writer.specs.FieldAt.{entity_line};
ghost use Rattle.record_writer.specs.Writable.{Writable};

use crate::values;
use lines::putting::Output;
use names::{kind, size, word};
use tables::Entity;

// Writes the line of word j of an entity.
#[tactic(auto, unfolding(crate::specs::FieldAt::entity_line))]
fn put_entity_line(out: &mut Output, j: usize, v: u32)
    requires { (j < single_count) × Room (entity_line j v) out.old }
    ensures { Adds (entity_line j v) out.old out.new }
{
    match j {
        word::KIND => out.put_line(b"kind=", v),
        word::TYPE => out.put_line(b"type=", v),
        word::LEVEL => out.put_line(b"level=", v),
        word::MARK => out.put_line(b"mark=", v),
        word::VALUE => out.put_line(b"value=", v),
        word::RELEASER => out.put_line(b"releaser=", v),
        word::MAXIMUM => out.put_line(b"maximum=", v),
        _ => out.put_line(b"places=", v),
    }
}

// Writes the lines of the single words of entity e.
fn put_entity_lines(out: &mut Output, tables: &[u32], e: Entity)
    requires { EntityIn tables.now e.0 × Room (field_lines entity_fields 0 (entity_words (tables_of tables.now) e.0)) out.old }
    ensures { Adds (field_lines entity_fields 0 (entity_words (tables_of tables.now) e.0)) out.old out.new }
{
    for j in word::KIND..size::SINGLES {
        put_entity_line(out, j, tables::word_at(tables, e, j));
    }
}

// Writes the lines of the first n places of entity e.
fn put_places(out: &mut Output, tables: &[u32], e: Entity, n: u32)
    requires { EntityIn tables.now e.0 × (n ≤ place_count) × Room (series n 0 (place_at (tables_of tables.now) e.0)) out.old }
    ensures { Adds (series n 0 (place_at (tables_of tables.now) e.0)) out.old out.new }
{
    for k in 0..n {
        values::put_place(
            out,
            tables::place(tables, e, k).0,
            tables::shown(tables, e, k),
        );
    }
}

// Writes the lines of the first n triples of entity e.
fn put_triples(out: &mut Output, tables: &[u32], e: Entity, n: u32)
    requires { EntityIn tables.now e.0 × (n ≤ place_count) × Room (series n 0 (triple_at (tables_of tables.now) e.0)) out.old }
    ensures { Adds (series n 0 (triple_at (tables_of tables.now) e.0)) out.old out.new }
{
    for k in 0..n {
        values::put_triple(out, tables::triple(tables, e, k));
    }
}

// Writes the text of entity e; nothing where e is absent.
fn put_entity(out: &mut Output, tables: &[u32], e: Entity)
    requires { EntityIn tables.now e.0 × (used_places (tables_of tables.now) e.0 ≤ place_count)
        × Room (entity_text (tables_of tables.now) e.0) out.old }
    ensures { Adds (entity_text (tables_of tables.now) e.0) out.old out.new }
{
    if tables::kind(tables, e) == kind::ABSENT {
        return;
    }
    out.put_line(b"entity=", e.0);
    put_entity_lines(out, tables, e);
    put_places(out, tables, e, tables::used(tables, e));
    let n = rows::triple_place(tables, e, 0);
    out.put_line(b"triples=", n);
    put_triples(out, tables, e, n);
}

// Writes the text of every entity, by number.
pub fn put_entities(out: &mut Output, tables: &[u32])
    requires { Writable tables.now × Room (series entity_count 1 (entity_text (tables_of tables.now))) out.old }
    ensures { Adds (series entity_count 1 (entity_text (tables_of tables.now))) out.old out.new }
{
    for k in 0..size::ENTITIES {
        put_entity(out, tables, Entity(k + 1));
    }
}
