// How many there are of each (rules 2.1, 2.2, 2.3, 5.1, 5.2 and 10.4). Numbers of users and entities are 32 bits wide, as words are;
// lengths and indices are as wide as an address.
pub const USERS: u32 = 16;

pub const ENTITIES: u32 = 64;

// The first number that is no entity's.
pub const PAST_ENTITIES: u32 = 65;

// A row of an entity: places, what is shown of each, and triples are eight each.
pub const PLACES: u32 = 8;

pub const TRIPLES: u32 = 8;

// Single words come before the rows of an entity, and before the spare words of a user.
pub const SINGLES: usize = 8;

pub const SPARES: usize = 8;

pub const ROW_WORDS: usize = 8;

pub const USER_WORDS: usize = 16;

pub const ENTITY_WORDS: usize = 32;

// The words of all users, which come before those of the entities.
pub const ALL_USER_WORDS: usize = 256;

pub const TABLE_WORDS: usize = 2304;

pub const REQUEST_WORDS: usize = 16;

// A reference has at most so many names.
pub const NAMES: u32 = 4;

pub const ENTRY_WORDS: usize = 5;

// Bytes of tables in a file: four for each word.
pub const WORD_BYTES: usize = 4;

pub const STATE_BYTES: usize = 9216;

pub const COMPARTMENTS: u32 = 8;

pub const ROLES: u32 = 8;

// A table that is indexed by the numbers of entities has a place for 0, which is none.
pub const ENTITY_NUMBERS: usize = 65;
