// What a take keeps of a notice: its steps without their places, as plain numbers, and whether every number is inside the sizes.
#![tactic(auto)]

pub mod checks;
pub mod digest;
