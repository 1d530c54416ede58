// Writes the records of users (rule 16.1).
ghost use Rattle.std.specs.Prelude.{◌≡◌, ◌<◌, ◌≤◌, length};
ghost use Rattle.lines.specs.Adds.{Adds, Room};
ghost use Rattle.model.specs.Tables.Layout.{tables_of, word_count};
ghost use Rattle.model.specs.Tables.Words.{user_count};
ghost use Rattle.tables.specs.Singles.{UserIn, single_count};
ghost use Rattle.tables_text.specs.Keys.{user_fields};
ghost use Rattle.tables_text.specs.TextOf.{field_lines, series, user_text, user_words};
ghost use Rattle.record_writer.specs.FieldAt.{user_line};

use lines::putting::Output;
use names::{size, word};
use tables::User;

// Writes the line of word j of a user.
#[tactic(auto, unfolding(crate::specs::FieldAt::user_line))]
fn put_user_line(out: &mut Output, j: usize, v: u32)
    requires { (1 ≤ j) × (j < single_count) × Room (user_line j v) out.old }
    ensures { Adds (user_line j v) out.old out.new }
{
    match j {
        word::CLEARANCE => out.put_line(b"clearance=", v),
        word::AUTHORISED => out.put_line(b"authorised=", v),
        word::CURRENT => out.put_line(b"current=", v),
        word::DEVICE => out.put_line(b"device=", v),
        word::HELD => out.put_line(b"held=", v),
        word::HELD_OPERATION => out.put_line(b"operation=", v),
        _ => out.put_line(b"missed=", v),
    }
}

// Writes the lines of user u after the one with its number.
fn put_user_lines(out: &mut Output, tables: &[u32], u: User)
    requires { UserIn tables.now u.0 × Room (field_lines user_fields 1 (user_words (tables_of tables.now) u.0)) out.old }
    ensures { Adds (field_lines user_fields 1 (user_words (tables_of tables.now) u.0)) out.old out.new }
{
    for j in word::CLEARANCE..size::SINGLES {
        put_user_line(out, j, tables::word_at(tables, u, j));
    }
}

// Writes the text of user u; nothing where u is absent.
fn put_user(out: &mut Output, tables: &[u32], u: User)
    requires { UserIn tables.now u.0 × Room (user_text (tables_of tables.now) u.0) out.old }
    ensures { Adds (user_text (tables_of tables.now) u.0) out.old out.new }
{
    if tables::present(tables, u) == 0 {
        return;
    }
    out.put_line(b"user=", u.0);
    put_user_lines(out, tables, u);
}

// Writes the text of every user, by number.
pub fn put_users(out: &mut Output, tables: &[u32])
    requires { (length tables.now ≡ word_count) × Room (series user_count 1 (user_text (tables_of tables.now))) out.old }
    ensures { Adds (series user_count 1 (user_text (tables_of tables.now))) out.old out.new }
{
    for k in 0..size::USERS {
        put_user(out, tables, User(k + 1));
    }
}
