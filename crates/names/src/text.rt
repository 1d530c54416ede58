// Requests and reports as text (rules 11 and 12): bytes, lengths, and the lines by their numbers.
pub const DIGIT_0: u8 = 48;

pub const DIGIT_9: u8 = 57;

pub const DOT: u8 = 46;

pub const LINE_END: u8 = 10;

// The greatest number of a word, and how many numbers a word can be.
pub const NUMBER_MOST: u64 = 4294967295;

pub const NUMBERS: u64 = 4294967296;

// What the second, third and fourth byte of a word weigh.
pub const SECOND_BYTE: u32 = 256;

pub const THIRD_BYTE: u32 = 65536;

pub const FOURTH_BYTE: u32 = 16777216;

// The bytes of the longest request, of the longest report, and of the keys and line ends that every request has.
pub const TEXT_MOST: usize = 166;

pub const REPORT_MOST: usize = 52;

pub const KEY_BYTES: usize = 30;

// A request has so many lines.
pub const LINES: usize = 7;

// The number of each line; what follows the last counts as a line more.
pub const USER_LINE: u32 = 1;

pub const OPERATION_LINE: u32 = 2;

pub const FIRST_LINE: u32 = 3;

pub const SECOND_LINE: u32 = 4;

pub const A_LINE: u32 = 5;

pub const B_LINE: u32 = 6;

pub const C_LINE: u32 = 7;

pub const LINE_AFTER: u32 = 8;
