// Where each word stands: in a request (rules 5.1 and 5.2), in a user's record (2.2) and in an entity's (2.3).
pub const REQUESTER: usize = 0;

pub const OPERATION: usize = 1;

// Each reference is its length, then its names.
pub const FIRST: usize = 2;

pub const FIRST_NAMES: usize = 3;

pub const SECOND: usize = 7;

pub const SECOND_NAMES: usize = 8;

pub const A: usize = 12;

pub const B: usize = 13;

pub const C: usize = 14;

pub const SPARE: usize = 15;

// The words of a user.
pub const PRESENT: usize = 0;

pub const CLEARANCE: usize = 1;

pub const AUTHORISED: usize = 2;

pub const CURRENT: usize = 3;

pub const DEVICE: usize = 4;

pub const HELD: usize = 5;

pub const HELD_OPERATION: usize = 6;

pub const MISSED: usize = 7;

pub const USER_SPARES: usize = 8;

// The single words of an entity; its rows follow them.
pub const KIND: usize = 0;

pub const TYPE: usize = 1;

pub const LEVEL: usize = 2;

pub const MARK: usize = 3;

pub const VALUE: usize = 4;

pub const RELEASER: usize = 5;

pub const MAXIMUM: usize = 6;

pub const USED: usize = 7;
