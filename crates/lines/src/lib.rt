// Lines of text for any key, and the decimal numbers in them. A line is a key, an equals sign, a value and LF. Words that were read are copied.
#![tactic(auto)]

pub mod copying;
pub mod putting;
pub mod reading;
pub mod writing;
