// The roles that have a meaning of their own, by their bits (rule 1.3).
pub const OFFICER: u32 = 0;

pub const DOWNGRADER: u32 = 1;

pub const RELEASER: u32 = 2;
