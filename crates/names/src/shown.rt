// What a screen shows of an entity, by the bits of the sum (rule 2.4).
pub const VALUE: u32 = 0;

pub const LABEL: u32 = 1;
