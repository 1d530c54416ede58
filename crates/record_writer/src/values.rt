// Writes the line of a place and that of a triple (rule 16.2).
ghost use Rattle.lines.specs.Adds.{Adds, Room};
ghost use Rattle.tables_text.specs.Values.{place_line, triple_line};

use lines::putting::Output;
use names::{text, weight};

// Writes the line of a place: the entity that stands there, and the sum of what is shown of it.
pub fn put_place(out: &mut Output, e: u32, s: u32)
    requires { Room (place_line (record { entity = e; sum = s })) out.old }
    ensures { Adds (place_line (record { entity = e; sum = s })) out.old out.new }
{
    out.put_bytes(b"content=");
    out.put_number(e);
    out.put_part(s);
    out.put_byte(text::LINE_END);
}

// Writes the line of a triple: who, the operation and the position.
pub fn put_triple(out: &mut Output, x: u32)
    requires { Room (triple_line x) out.old }
    ensures { Adds (triple_line x) out.old out.new }
{
    out.put_bytes(b"triple=");
    out.put_number(x / weight::WHO);
    out.put_part(x / weight::OPERATION % weight::OPERATION);
    out.put_part(x % weight::OPERATION);
    out.put_byte(text::LINE_END);
}
