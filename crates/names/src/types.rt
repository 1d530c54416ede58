// The types of containers (rule 2.3); every other entity is plain.
pub const PLAIN: u32 = 0;

pub const DRAFT: u32 = 1;

pub const RELEASED: u32 = 2;
