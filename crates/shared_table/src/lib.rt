// A controller's packed memory, seen as the rules' table.
#![tactic(auto)]

pub mod laws;
pub mod seeds;
pub mod slots;
pub mod table;
