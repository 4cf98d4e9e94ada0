// The notice reader: a text is passed over as often as needed, and no step is stored.
#![tactic(auto)]

pub mod notice;
pub mod quiet;
mod reader;
pub mod setting;
