// What the parts of a triple weigh: who, and the operation (rule 2.5).
pub const WHO: u32 = 65536;

pub const OPERATION: u32 = 256;

// Whom a triple names: the first number that is a role's.
pub const FIRST_ROLE: u32 = 17;
