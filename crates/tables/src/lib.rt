// The tables: 2,304 lent words, read and written by name. A reader asks that the record is there and then reads one word, with no test left; a
// writer stores one word. The two `.._or_zero` readers ask nothing of the number, and give 0 where there is no such record.
#![tactic(auto)]

mod entities;
mod records;
pub mod sums;
pub mod triples;
mod users;

// A user's number.
#[derive(Clone, Copy, Debug, PartialEq, Eq)]
pub struct User(pub u32);

impl User {
    // The number that is no user's.
    pub const NONE: User = User(0);
}

// An entity's number.
#[derive(Clone, Copy, Debug, PartialEq, Eq)]
pub struct Entity(pub u32);

impl Entity {
    // The number that is no entity's.
    pub const NONE: Entity = Entity(0);
}

pub use entities::{
    is_screen, is_terminal, kind, kind_or_zero, level, level_or_zero, mark, maximum, place,
    releaser, row_word, set_kind, set_level, set_mark, set_maximum, set_place, set_releaser,
    set_row_word, set_shown, set_triple, set_type, set_used, set_value, shown, triple, type_of,
    used, value,
};
pub use records::{Record, set_word_at, word_at};
pub use users::{
    authorised, clearance, current, device, has_role, held, held_op, is_known, missed, nobody_on,
    present, set_authorised, set_clearance, set_current, set_device, set_held, set_held_op,
    set_missed,
};
