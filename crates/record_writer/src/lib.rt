// Writes the records of a text of tables, line by line, after what an output has already (rules 16.1 and 16.2).
#![tactic(auto)]

pub mod entities;
pub mod users;
mod values;
