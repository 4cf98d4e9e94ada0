// The hash families: FNV-1a, Pearson's, and Pearson's held back up to a start.
#![tactic(auto)]

mod absorb;
pub mod fnv;
pub mod held_back;
pub mod pearson;
pub mod table;
