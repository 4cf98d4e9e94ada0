// The part kinds and setting kinds that the workshop uses.
#![tactic(auto)]

pub mod part_number;
pub mod set_number;
pub mod tag;
pub mod trim;
