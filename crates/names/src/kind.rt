// The kinds of entities (rule 2.3).
pub const ABSENT: u32 = 0;

pub const OBJECT: u32 = 1;

pub const CONTAINER: u32 = 2;

pub const DEVICE: u32 = 3;
