// Loads the state file (rules 12.1 and 12.5).
ghost use Rattle.std.specs.Prelude.{◌≡◌, ◌+◌, ◌*◌, ◌≤◌, ◌<◌, length, take};
ghost use Rattle.model.specs.Script.State.{of_bytes, state_of, word_bytes, word_in};
ghost use Rattle.model.specs.Tables.Layout.{word_count};

use names::{size, text};

// The word of four bytes, the lowest first.
fn word_of(a: u8, b: u8, c: u8, d: u8) -> u32
    ensures { result ≡ of_bytes a b c d }
{
    a as u32
        + text::SECOND_BYTE * (b as u32)
        + text::THIRD_BYTE * (c as u32)
        + text::FOURTH_BYTE * (d as u32)
}

// Word i of a file's bytes.
fn word_in(bytes: &[u8], i: usize) -> u32
    requires { (word_bytes * i + word_bytes ≤ length bytes.now) × (i < word_count) }
    ensures { result ≡ word_in bytes.now i }
{
    let k = size::WORD_BYTES * i;
    word_of(bytes[k], bytes[k + 1], bytes[k + 2], bytes[k + 3])
}

// Loads the tables of a state file into a room for them, and answers how many words they have. A file of another size has none, and then the
// check says so.
pub fn load(bytes: &[u8], room: &mut [u32]) -> usize
    requires { length room.old ≡ word_count }
    ensures { (take result room.new ≡ state_of bytes.now) × (result ≤ word_count) }
{
    if bytes.len() != size::STATE_BYTES {
        return 0;
    }
    for i in 0..size::TABLE_WORDS {
        room[i] = word_in(bytes, i);
    }
    size::TABLE_WORDS
}
