// Counts the bytes that a text takes (rule 16.4). The keys and line ends of a record are the same in every text, and the numbers differ.
ghost use Rattle.std.specs.Prelude.{◌≡◌, ◌<◌, ◌≤◌, length};
ghost use Rattle.model.specs.Tables.Layout.{tables_of, word_count};
ghost use Rattle.model.specs.Tables.Words.{entity_count, place_count, used_places, user_count};
ghost use Rattle.tables.specs.Singles.{EntityIn, UserIn, single_count};
ghost use Rattle.tables_text.specs.Calls.{text_of_tables};
ghost use Rattle.tables_text.specs.TextOf.{entity_text, entity_words, place_at, series, triple_at, user_text, user_words};
ghost use Rattle.tables_text.specs.Values.{triple_line};
ghost use Rattle.record_writer.specs.FieldAt.{digits_at, user_field_count};
ghost use Rattle.record_writer.specs.Writable.{Writable};

use lines::writing::number_len;
use names::{kind, size, weight, word};
use tables::{Entity, User};

// The keys and line ends of a user's record, and of an entity's.
const USER_MARKS: usize = 71;

const ENTITY_MARKS: usize = 76;

// The key, the dots and the line end of a place's line, and of a triple's.
const PLACE_MARKS: usize = 10;

const TRIPLE_MARKS: usize = 10;

// How many digits the words of user u have.
fn user_values(tables: &[u32], u: User) -> usize
    requires { UserIn tables.now u.0 }
    ensures { result ≡ length (series user_field_count 1 (digits_at (user_words (tables_of tables.now) u.0))) }
{
    (word::CLEARANCE..size::SINGLES)
        .map(|j| number_len(tables::word_at(tables, u, j)))
        .sum()
}

// How many bytes user u takes.
fn user_len(tables: &[u32], u: User) -> usize
    requires { UserIn tables.now u.0 }
    ensures { result ≡ length (user_text (tables_of tables.now) u.0) }
{
    if tables::present(tables, u) == 0 {
        return 0;
    }
    USER_MARKS + (number_len(u.0) + user_values(tables, u))
}

// How many bytes all users take.
fn users_len(tables: &[u32]) -> usize
    requires { length tables.now ≡ word_count }
    ensures { result ≡ length (series user_count 1 (user_text (tables_of tables.now))) }
{
    (0..size::USERS)
        .map(|k| user_len(tables, User(k + 1)))
        .sum()
}

// How many digits the single words of entity e have.
fn entity_values(tables: &[u32], e: Entity) -> usize
    requires { EntityIn tables.now e.0 }
    ensures { result ≡ length (series single_count 0 (digits_at (entity_words (tables_of tables.now) e.0))) }
{
    (word::KIND..size::SINGLES)
        .map(|j| number_len(tables::word_at(tables, e, j)))
        .sum()
}

// How many bytes the line of place i of entity e takes.
fn place_len(tables: &[u32], e: Entity, i: u32) -> usize
    requires { EntityIn tables.now e.0 × (i < place_count) }
    ensures { result ≡ length (place_at (tables_of tables.now) e.0 i) }
{
    let standing = number_len(tables::place(tables, e, i).0);
    let sum = number_len(tables::shown(tables, e, i));
    PLACE_MARKS + (standing + sum)
}

// How many bytes the first k places of entity e take.
fn places_len(tables: &[u32], e: Entity, k: u32) -> usize
    requires { EntityIn tables.now e.0 × (k ≤ place_count) }
    ensures { result ≡ length (series k 0 (place_at (tables_of tables.now) e.0)) }
{
    (0..k).map(|i| place_len(tables, e, i)).sum()
}

// How many bytes the line of a triple takes.
fn triple_len(x: u32) -> usize
    ensures { result ≡ length (triple_line x) }
{
    let who = number_len(x / weight::WHO);
    let operation = number_len(x / weight::OPERATION % weight::OPERATION);
    let position = number_len(x % weight::OPERATION);
    TRIPLE_MARKS + (who + (operation + position))
}

// How many bytes the first k triples of entity e take.
fn triples_len(tables: &[u32], e: Entity, k: u32) -> usize
    requires { EntityIn tables.now e.0 × (k ≤ place_count) }
    ensures { result ≡ length (series k 0 (triple_at (tables_of tables.now) e.0)) }
{
    (0..k)
        .map(|i| triple_len(tables::triple(tables, e, i)))
        .sum()
}

// How many bytes entity e takes.
fn entity_len(tables: &[u32], e: Entity) -> usize
    requires { EntityIn tables.now e.0 × (used_places (tables_of tables.now) e.0 ≤ place_count) }
    ensures { result ≡ length (entity_text (tables_of tables.now) e.0) }
{
    if tables::kind(tables, e) == kind::ABSENT {
        return 0;
    }
    let single = number_len(e.0) + entity_values(tables, e);
    let places = places_len(tables, e, tables::used(tables, e));
    let k = rows::triple_place(tables, e, 0);
    let triples = number_len(k) + triples_len(tables, e, k);
    ENTITY_MARKS + (single + (places + triples))
}

// How many bytes all entities take.
fn entities_len(tables: &[u32]) -> usize
    requires { Writable tables.now }
    ensures { result ≡ length (series entity_count 1 (entity_text (tables_of tables.now))) }
{
    (0..size::ENTITIES)
        .map(|k| entity_len(tables, Entity(k + 1)))
        .sum()
}

// How many bytes the text of whole tables takes.
pub fn need(tables: &[u32]) -> usize
    requires { Writable tables.now }
    ensures { result ≡ length (text_of_tables tables.now) }
{
    users_len(tables) + entities_len(tables)
}
