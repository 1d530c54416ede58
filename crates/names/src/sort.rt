// The sorts of a new entity (rule 6.1).
pub const OBJECT: u32 = 1;

pub const CONTAINER: u32 = 2;

pub const DRAFT: u32 = 3;
