// How long the lists of the walk are, and where their parts begin.
use names::size;

// A reference has so many names at most, and so many of them follow the first.
pub const NAMES: usize = size::NAMES as usize;

pub const FURTHER: usize = NAMES - 1;

pub const ENTITIES: usize = size::ENTITIES as usize;

// The tallies: a row for each number of further names, with a word for each number of an entity and one for 0, which is no entity.
pub const ROW: usize = size::ENTITY_NUMBERS;

pub const TALLIES: usize = NAMES * ROW;

// Where the word of the first entity stands in the last row.
pub const LAST_ROW: usize = FURTHER * ROW + 1;
