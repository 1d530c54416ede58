// The text of tables, written at the front of any room (rule 16.4). Each record that is there has a line with its number and one for each single word, but for
// the word that says that a user is there; an entity also has lines for the places in use, how many triples there are, and those. Spare words and the rest of
// the rows have none.
#![tactic(auto)]

ghost use Rattle.std.specs.Prelude.{◌≡◌, ◌≤◌, length};
ghost use Rattle.lines.specs.Adds.{Adds, Room};
ghost use Rattle.lines.specs.Onto.{Wrote};
ghost use Rattle.tables_text.specs.Calls.{WritesTables, text_of_tables};
ghost use Rattle.names.specs.Refusals.{answer_number, refused_no, told};
ghost use Rattle.record_writer.specs.Writable.{Writable};
ghost use Rattle.tables_writer.specs.Form.{form_answer};

use lines::putting::Output;
use names::refusal::{Refusal, Refused};

mod counting;

// The bytes of the longest text of tables (rule 16.7).
const TABLES_TEXT_MOST: usize = 17721;

// Writes the text of whole tables, users before entities.
fn put_text(out: &mut Output, tables: &[u32])
    requires { Writable tables.now × Room (text_of_tables tables.now) out.old }
    ensures { Adds (text_of_tables tables.now) out.old out.new }
{
    record_writer::users::put_users(out, tables);
    record_writer::entities::put_entities(out, tables);
}

// Writes that text at the front of a room, and answers how many bytes it has.
fn write_text(room: &mut [u8], tables: &[u32]) -> usize
    requires { Writable tables.now × (length (text_of_tables tables.now) ≤ length room.old) }
    ensures { Wrote (text_of_tables tables.now) room.old room.new result }
{
    let mut out = Output { room, at: 0 };
    put_text(&mut out, tables);
    out.at
}

// Refuses words that are no tables. Tables that are not secure are taken like others.
fn formed(tables: &[u32]) -> Result<(), Refusal>
    ensures { answer_number result ≡ form_answer tables.now }
{
    let Err(refusal) = state::checked(tables) else {
        return Ok(());
    };
    match refusal {
        Refusal::NotSecure => Ok(()),
        _ => Err(refusal),
    }
}

// Writes the text of any words at the front of any room and answers how many bytes it has, or refuses and writes nothing. Tables that are not secure
// are written like others. A room for the longest text is enough for every text, and then nothing is counted before.
pub fn write_tables(tables: &[u32], room: &mut [u8]) -> Result<u32, Refused>
    ensures { WritesTables tables.now room.old (refused_no result) (told result) room.new }
{
    formed(tables)?;
    if room.len() < TABLES_TEXT_MOST {
        let n = counting::need(tables);
        if room.len() < n {
            return Err(Refused {
                by: Refusal::TooShort,
                number: n as u32,
            });
        }
    }
    let n = write_text(room, tables);
    Ok(n as u32)
}
