// The program's work on bytes: it loads the tables of a state file, takes a turn of the script, and runs what has arrived of the script.
#![tactic(auto)]

pub mod reports;
pub mod runs;
pub mod state_file;
pub mod turns;
pub mod windows;
