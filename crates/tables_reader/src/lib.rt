// Reads the text of tables (rule 16.5). The words are read into a room of the reader's own first; the tables that it is lent change only where
// the text keeps the line rules and its tables are well-formed.
#![tactic(auto)]

ghost use Rattle.std.specs.Prelude.{◌≡◌, ◌≤◌, suc, length, take};
ghost use Rattle.model.specs.Text.Unfinished.{ends};
ghost use Rattle.names.specs.Refusals.{refused_no, told_bare};
ghost use Rattle.tables_reader.specs.Blank.{blank};
ghost use Rattle.record_reader.specs.StageAt.{StageAt};
ghost use Rattle.tables_text.specs.Calls.{ReadsTables};
ghost use Rattle.tables_text.specs.LineMost.{line_most};
ghost use Rattle.tables_text.specs.Stages.{reading};

use names::refusal::{Refusal, Refused};
use names::{size, text};
use record_reader::records::{Stuck, read_entities, read_users};

// Reads a whole text into tables of which every word is 0. At a bad line they are left somehow.
fn fill(s: &[u8], t: &mut [u32]) -> Result<usize, Stuck>
    requires { t.old ≡ blank }
    ensures { StageAt s.now (reading s.now) t.new result }
{
    let i = read_users(s, t)?;
    let j = read_entities(s, i, t)?;
    if j < s.len() {
        return Err(Stuck(j));
    }
    Ok(j)
}

// The number of the line that begins at an index: one more than the lines that end before it. Lines are counted here alone, when one is bad.
fn line_at(s: &[u8], at: usize) -> u32
    requires { (at ≤ length s.now) × (suc (ends (take at s.now)) ≤ line_most) }
    ensures { result ≡ suc (ends (take at s.now)) }
{
    let mut n: u32 = 1;
    for i in 0..at {
        if s[i] == text::LINE_END {
            n += 1;
        }
    }
    n
}

// Reads the text of tables, from any bytes into any words. The words must be 2,304. A text that breaks a line rule is refused with the line,
// before one whose tables are not well-formed.
pub fn read_tables(text: &[u8], tables: &mut [u32]) -> Result<(), Refused>
    ensures { ReadsTables text.now tables.old (refused_no result) (told_bare result) tables.new }
{
    if tables.len() != size::TABLE_WORDS {
        return Err(Refused::from(Refusal::BadLength));
    }
    let mut room = [0u32; size::TABLE_WORDS];
    if let Err(Stuck(i)) = fill(text, &mut room) {
        return Err(Refused {
            by: Refusal::NotARequest,
            number: line_at(text, i),
        });
    }
    if state::judged(&room) == Err(Refusal::NotWellFormed) {
        return Err(Refused::from(Refusal::NotWellFormed));
    }
    lines::copying::copy_words(tables, &room);
    Ok(())
}
