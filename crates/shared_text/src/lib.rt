// Tokens and number words, free of any grammar, and what a pass over a notice's steps sees.
#![tactic(auto)]

pub mod events;
pub mod number;
pub mod row;
pub mod token;
