// Ranges. A name in `_MOST` is the greatest number of its range; LEVELS and ROLE_SETS are how many there are, from 0 on (rules 1, 2, 3 and 6).
pub const LEVELS: u32 = 1024;

pub const ROLE_SETS: u32 = 256;

pub const PRESENT_MOST: u32 = 1;

pub const KIND_MOST: u32 = 3;

pub const TYPE_MOST: u32 = 2;

pub const MARK_MOST: u32 = 1;

pub const SUM_MOST: u32 = 7;

pub const SORT_MOST: u32 = 3;

pub const WHO_MOST: u32 = 24;

pub const OPERATION_MOST: u32 = 20;

pub const POSITION_MOST: u32 = 2;

// The refusals of which a notice is kept, and where the number of missed ones stops.
pub const FIRST_NOTICED: u32 = 5;

pub const LAST_NOTICED: u32 = 16;

pub const MISSED_MOST: u32 = 65535;
