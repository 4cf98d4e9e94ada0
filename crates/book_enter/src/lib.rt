// An enter planned whole: every check, the seeds, the places to turn over and the notice's length, with nothing written but
// the workspace.
#![tactic(auto)]

mod along;
pub mod enter;
pub mod memory;
pub mod reading;
