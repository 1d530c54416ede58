// The rungs that every operation has: the form of a request (5), its operands (7 to 9) and their kinds (10).
#![tactic(auto)]

mod argument;
pub mod form;
pub mod kinds;
pub mod operands;
