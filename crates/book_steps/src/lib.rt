// The steps of a planned enter, shown piece by piece to a pass: a printer puts them into a pen or a ruler.
#![tactic(auto)]

mod bucket;
pub mod plan;
pub mod show;
