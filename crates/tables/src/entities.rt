// The words of an entity by name: single words, and the three rows.
ghost use Rattle.std.specs.Prelude.{◌≡◌, ◌<◌, length};
ghost use Rattle.model.specs.Tables.Edits.{on_entity, word};
ghost use Rattle.model.specs.Tables.Kinds.{screen, terminal};
ghost use Rattle.model.specs.Tables.Layout.{entity_width, tables_of, word_count};
ghost use Rattle.model.specs.Tables.WordAt.{entity_word_at};
ghost use Rattle.model.specs.Tables.Words.{kind, level, mark, maximum, place, place_count, releaser, shown, triple, type, used, value};
ghost use Rattle.tables.specs.Singles.{EntityIn, row_word};

use crate::records::{has_record, set_single, set_word_at, single, word_at};
use crate::{Entity, User};
use levels::Level;
use names::row::Row;
use names::{size, word};

// The kind of entity e; 0 where it is absent.
pub fn kind(t: &[u32], e: Entity) -> u32
    requires { EntityIn t.now e.0 }
    ensures { result ≡ (tables_of t.now).entity e.0 kind }
{
    single(t, e, word::KIND)
}

// The type of entity e.
pub fn type_of(t: &[u32], e: Entity) -> u32
    requires { EntityIn t.now e.0 }
    ensures { result ≡ (tables_of t.now).entity e.0 type }
{
    single(t, e, word::TYPE)
}

// The level of entity e.
pub fn level(t: &[u32], e: Entity) -> Level
    requires { EntityIn t.now e.0 }
    ensures { result.0 ≡ (tables_of t.now).entity e.0 level }
{
    Level(single(t, e, word::LEVEL))
}

// The mark of entity e: 1, or 0.
pub fn mark(t: &[u32], e: Entity) -> u32
    requires { EntityIn t.now e.0 }
    ensures { result ≡ (tables_of t.now).entity e.0 mark }
{
    single(t, e, word::MARK)
}

// The value of entity e.
pub fn value(t: &[u32], e: Entity) -> u32
    requires { EntityIn t.now e.0 }
    ensures { result ≡ (tables_of t.now).entity e.0 value }
{
    single(t, e, word::VALUE)
}

// Who released entity e; user 0 where nobody has.
pub fn releaser(t: &[u32], e: Entity) -> User
    requires { EntityIn t.now e.0 }
    ensures { result.0 ≡ (tables_of t.now).entity e.0 releaser }
{
    User(single(t, e, word::RELEASER))
}

// The maximum of entity e.
pub fn maximum(t: &[u32], e: Entity) -> Level
    requires { EntityIn t.now e.0 }
    ensures { result.0 ≡ (tables_of t.now).entity e.0 maximum }
{
    Level(single(t, e, word::MAXIMUM))
}

// How many places entity e uses.
pub fn used(t: &[u32], e: Entity) -> u32
    requires { EntityIn t.now e.0 }
    ensures { result ≡ (tables_of t.now).entity e.0 used }
{
    single(t, e, word::USED)
}

// Where word i of row r stands in an entity's record.
fn in_row(r: Row, i: u32) -> usize
    requires { i < place_count }
    ensures inside { result < entity_width }
    ensures word { entity_word_at result ≡ row_word r i }
{
    size::SINGLES + usize::from(r) * size::ROW_WORDS + i as usize
}

// Word i of row r of entity e.
pub fn row_word(t: &[u32], e: Entity, r: Row, i: u32) -> u32
    requires { EntityIn t.now e.0 × (i < place_count) }
    ensures { result ≡ (tables_of t.now).entity e.0 (row_word r i) }
{
    word_at(t, e, in_row(r, i))
}

// What stands in place i of entity e, counted from 0.
pub fn place(t: &[u32], e: Entity, i: u32) -> Entity
    requires { EntityIn t.now e.0 × (i < place_count) }
    ensures { result.0 ≡ (tables_of t.now).entity e.0 (place i) }
{
    Entity(row_word(t, e, Row::Places, i))
}

// What screen e shows of place i.
pub fn shown(t: &[u32], e: Entity, i: u32) -> u32
    requires { EntityIn t.now e.0 × (i < place_count) }
    ensures { result ≡ (tables_of t.now).entity e.0 (shown i) }
{
    row_word(t, e, Row::Sums, i)
}

// Access triple i of entity e.
pub fn triple(t: &[u32], e: Entity, i: u32) -> u32
    requires { EntityIn t.now e.0 × (i < place_count) }
    ensures { result ≡ (tables_of t.now).entity e.0 (triple i) }
{
    row_word(t, e, Row::Triples, i)
}

// Sets the kind of entity e to v, and no other word.
pub fn set_kind(t: &mut [u32], e: Entity, v: u32)
    requires { EntityIn t.old e.0 }
    ensures { tables_of t.new ≡ on_entity e.0 (word kind v) (tables_of t.old) }
{
    set_single(t, e, word::KIND, v);
}

// Sets the type of entity e to v, and no other word.
pub fn set_type(t: &mut [u32], e: Entity, v: u32)
    requires { EntityIn t.old e.0 }
    ensures { tables_of t.new ≡ on_entity e.0 (word type v) (tables_of t.old) }
{
    set_single(t, e, word::TYPE, v);
}

// Sets the level of entity e to v, and no other word.
pub fn set_level(t: &mut [u32], e: Entity, v: Level)
    requires { EntityIn t.old e.0 }
    ensures { tables_of t.new ≡ on_entity e.0 (word level v.0) (tables_of t.old) }
{
    set_single(t, e, word::LEVEL, v.0);
}

// Sets the mark of entity e to v, and no other word.
pub fn set_mark(t: &mut [u32], e: Entity, v: u32)
    requires { EntityIn t.old e.0 }
    ensures { tables_of t.new ≡ on_entity e.0 (word mark v) (tables_of t.old) }
{
    set_single(t, e, word::MARK, v);
}

// Sets the value of entity e to v, and no other word.
pub fn set_value(t: &mut [u32], e: Entity, v: u32)
    requires { EntityIn t.old e.0 }
    ensures { tables_of t.new ≡ on_entity e.0 (word value v) (tables_of t.old) }
{
    set_single(t, e, word::VALUE, v);
}

// Sets the releaser of entity e to v, and no other word.
pub fn set_releaser(t: &mut [u32], e: Entity, v: User)
    requires { EntityIn t.old e.0 }
    ensures { tables_of t.new ≡ on_entity e.0 (word releaser v.0) (tables_of t.old) }
{
    set_single(t, e, word::RELEASER, v.0);
}

// Sets the maximum of entity e to v, and no other word.
pub fn set_maximum(t: &mut [u32], e: Entity, v: Level)
    requires { EntityIn t.old e.0 }
    ensures { tables_of t.new ≡ on_entity e.0 (word maximum v.0) (tables_of t.old) }
{
    set_single(t, e, word::MAXIMUM, v.0);
}

// Sets how many places entity e uses to v, and no other word.
pub fn set_used(t: &mut [u32], e: Entity, v: u32)
    requires { EntityIn t.old e.0 }
    ensures { tables_of t.new ≡ on_entity e.0 (word used v) (tables_of t.old) }
{
    set_single(t, e, word::USED, v);
}

// Sets word i of row r of entity e to v, and no other word.
pub fn set_row_word(t: &mut [u32], e: Entity, r: Row, i: u32, v: u32)
    requires { EntityIn t.old e.0 × (i < place_count) }
    ensures { tables_of t.new ≡ on_entity e.0 (word (row_word r i) v) (tables_of t.old) }
{
    set_word_at(t, e, in_row(r, i), v);
}

// Puts v in place i of entity e, and changes no other word.
pub fn set_place(t: &mut [u32], e: Entity, i: u32, v: Entity)
    requires { EntityIn t.old e.0 × (i < place_count) }
    ensures { tables_of t.new ≡ on_entity e.0 (word (place i) v.0) (tables_of t.old) }
{
    set_row_word(t, e, Row::Places, i, v.0);
}

// Sets what screen e shows of place i to v, and no other word.
pub fn set_shown(t: &mut [u32], e: Entity, i: u32, v: u32)
    requires { EntityIn t.old e.0 × (i < place_count) }
    ensures { tables_of t.new ≡ on_entity e.0 (word (shown i) v) (tables_of t.old) }
{
    set_row_word(t, e, Row::Sums, i, v);
}

// Sets access triple i of entity e to v, and no other word.
pub fn set_triple(t: &mut [u32], e: Entity, i: u32, v: u32)
    requires { EntityIn t.old e.0 × (i < place_count) }
    ensures { tables_of t.new ≡ on_entity e.0 (word (triple i) v) (tables_of t.old) }
{
    set_row_word(t, e, Row::Triples, i, v);
}

// Whether what is of kind k shows things.
pub fn is_screen(k: u32) -> bool
    ensures { result ≡ screen k }
{
    k == names::kind::DEVICE
}

// Whether one can be logged on to what is of kind k.
pub fn is_terminal(k: u32) -> bool
    ensures { result ≡ terminal k }
{
    k == names::kind::DEVICE
}

// The kind of the entity of any number; 0 where there is none.
pub fn kind_or_zero(t: &[u32], e: Entity) -> u32
    requires { length t.now ≡ word_count }
    ensures { result ≡ (tables_of t.now).entity e.0 kind }
{
    if !has_record(e) {
        return 0;
    }
    kind(t, e)
}

// The level of the entity of any number; 0 where there is none.
pub fn level_or_zero(t: &[u32], e: Entity) -> Level
    requires { length t.now ≡ word_count }
    ensures { result.0 ≡ (tables_of t.now).entity e.0 level }
{
    if !has_record(e) {
        return Level(0);
    }
    level(t, e)
}
