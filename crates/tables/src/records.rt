// The records of the tables, a user's and an entity's: the words of both stand, are read and are stored alike.
ghost use Rattle.std.specs.Prelude.{◌≡◌, ◌<◌, ℕ};
ghost use Rattle.model.specs.Tables.Edits.{on_entity, on_user, user_word, word};
ghost use Rattle.model.specs.Tables.Layout.{entities_from, entity_width, tables_of, user_width};
ghost use Rattle.model.specs.Tables.WordAt.{entity_word_at, user_word_at};
ghost use Rattle.model.specs.Tables.Words.{EntityWord, Tables, UserWord, entity_count, user_count};
ghost use Rattle.tables.specs.Laws.{entity_laws, user_laws};
ghost use Rattle.tables.specs.Records.{RecordLaws};
ghost use Rattle.tables.specs.Singles.{RecordIn, entity_single, has_record, single_count, user_single};

use crate::{Entity, User};
use names::size;

// A kind of record: where the first one begins, how wide each is, and how many there are.
pub trait Record: Copy {
    const BEGIN: usize;

    const WIDTH: usize;

    const COUNT: u32;

    ghost BEGIN: { ℕ };

    ghost WIDTH: { ℕ };

    ghost COUNT: { ℕ };

    // The number of one of them, counted from 1.
    ghost number: { Self → ℕ };

    // The names of the words, the name of the word at each place, and that of each single word.
    ghost Word: { Type 0 };

    ghost at: { ℕ → Word };

    ghost single: { ℕ → Word };

    // A word of a record, and the tables with one set.
    ghost read: { Tables → ℕ → Word → ℕ };

    ghost stored: { ℕ → Word → ℕ → Tables → Tables };

    fn number(self) -> u32
        ensures { result ≡ number self };

    // What each kind must prove.
    ghost laws: { RecordLaws BEGIN WIDTH COUNT at single read stored };
}

impl Record for User {
    // The users come first.
    const BEGIN: usize = 0;

    const WIDTH: usize = size::USER_WORDS;

    const COUNT: u32 = size::USERS;

    ghost BEGIN = { 0 };

    ghost WIDTH = { user_width };

    ghost COUNT = { user_count };

    ghost number = { λ u. u.0 };

    ghost Word = { UserWord };

    ghost at = { user_word_at };

    ghost single = { user_single };

    ghost read = { λ d. d.user };

    ghost stored = { λ u f v. on_user u (user_word f v) };

    ghost laws = { user_laws };

    fn number(self) -> u32 {
        self.0
    }
}

impl Record for Entity {
    const BEGIN: usize = size::ALL_USER_WORDS;

    const WIDTH: usize = size::ENTITY_WORDS;

    const COUNT: u32 = size::ENTITIES;

    ghost BEGIN = { entities_from };

    ghost WIDTH = { entity_width };

    ghost COUNT = { entity_count };

    ghost number = { λ e. e.0 };

    ghost Word = { EntityWord };

    ghost at = { entity_word_at };

    ghost single = { entity_single };

    ghost read = { λ d. d.entity };

    ghost stored = { λ e f v. on_entity e (word f v) };

    ghost laws = { entity_laws };

    fn number(self) -> u32 {
        self.0
    }
}

// Whether there is a record of the number that r is.
pub fn has_record<R: Record>(r: R) -> bool
    ensures { result ≡ has_record R.COUNT (R.number r) }
{
    (1..=R::COUNT).contains(&r.number())
}

// Word f of record r, counted from 0: any of them.
pub fn word_at<R: Record>(t: &[u32], r: R, f: usize) -> u32
    requires { RecordIn R.COUNT t.now (R.number r) × (f < R.WIDTH) }
    ensures { result ≡ R.read (tables_of t.now) (R.number r) (R.at f) }
{
    let n = r.number() as usize;
    t[R::BEGIN + (n - 1) * R::WIDTH + f]
}

// Single word f of record r.
pub fn single<R: Record>(t: &[u32], r: R, f: usize) -> u32
    requires { RecordIn R.COUNT t.now (R.number r) × (f < single_count) }
    ensures { result ≡ R.read (tables_of t.now) (R.number r) (R.single f) }
{
    word_at(t, r, f)
}

// Sets word f of record r, counted from 0, to v, and no other word.
pub fn set_word_at<R: Record>(t: &mut [u32], r: R, f: usize, v: u32)
    requires { RecordIn R.COUNT t.old (R.number r) × (f < R.WIDTH) }
    ensures { tables_of t.new ≡ R.stored (R.number r) (R.at f) v (tables_of t.old) }
{
    let n = r.number() as usize;
    t[R::BEGIN + (n - 1) * R::WIDTH + f] = v;
}

// Sets single word f of record r to v, and no other word.
pub fn set_single<R: Record>(t: &mut [u32], r: R, f: usize, v: u32)
    requires { RecordIn R.COUNT t.old (R.number r) × (f < single_count) }
    ensures { tables_of t.new ≡ R.stored (R.number r) (R.single f) v (tables_of t.old) }
{
    set_word_at(t, r, f, v);
}
