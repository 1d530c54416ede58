// The lowest layer: every number of the rules once, by name, and the types whose cases have such numbers. `tie` proves that each is the model's.
#![tactic(auto)]

pub mod kind;
pub mod op;
pub mod range;
pub mod refusal;
pub mod role;
pub mod row;
pub mod shown;
pub mod size;
pub mod sort;
pub mod text;
mod tie;
pub mod types;
pub mod weight;
pub mod word;
