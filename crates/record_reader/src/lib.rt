// Reads the records of a text of tables, line by line, into the tables that it is lent (rules 16.1 to 16.3).
#![tactic(auto)]

pub mod records;
mod rows;
mod singles;
