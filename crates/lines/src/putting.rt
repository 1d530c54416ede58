// Writes bytes, numbers and lines one after another in a lent room (rule 11.3). Each writer leaves what stands before and after what it writes.
ghost use Rattle.std.specs.Prelude.{[], ◌∷◌};
ghost use Rattle.lines.specs.Adds.{Adds, Room};
ghost use Rattle.model.specs.Text.Lines.{line};
ghost use Rattle.model.specs.Text.Numbers.{digits};
ghost use Rattle.model.specs.Text.References.{dot_byte};

use crate::writing::{write_bytes, write_line, write_number};
use names::text;

// A room, and the index up to which it is written.
#[derive(Drop)]
pub struct Output<'a> {
    pub room: &'a mut [u8],
    pub at: usize,
}

impl Output<'_> {
    // Writes one byte.
    pub fn put_byte(&mut self, b: u8)
        requires { Room (b ∷ []) self.old }
        ensures { Adds (b ∷ []) self.old self.new }
    {
        self.room[self.at] = b;
        self.at += 1;
    }

    // Writes some bytes as they are.
    pub fn put_bytes(&mut self, src: &[u8])
        requires { Room src.now self.old }
        ensures { Adds src.now self.old self.new }
    {
        let n = write_bytes(&mut self.room[self.at..], src);
        self.at += n;
    }

    // Writes the digits of a number.
    pub fn put_number(&mut self, v: u32)
        requires { Room (digits v) self.old }
        ensures { Adds (digits v) self.old self.new }
    {
        let n = write_number(&mut self.room[self.at..], v);
        self.at += n;
    }

    // Writes a dot and the digits of a number.
    pub fn put_part(&mut self, v: u32)
        requires { Room (dot_byte ∷ digits v) self.old }
        ensures { Adds (dot_byte ∷ digits v) self.old self.new }
    {
        self.put_byte(text::DOT);
        self.put_number(v);
    }

    // Writes a line: a key with its equals sign, the number directly after it in the same bytes, and LF.
    pub fn put_line(&mut self, key: &[u8], v: u32)
        requires { Room (line key.now (digits v)) self.old }
        ensures { Adds (line key.now (digits v)) self.old self.new }
    {
        let n = write_line(&mut self.room[self.at..], key, v);
        self.at += n;
    }
}
