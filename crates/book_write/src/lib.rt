// An enter into a book's memory: planned, its notice written, then slots, seeds and rows, which cannot fail any more.
#![tactic(auto)]

pub mod enter;
mod rows;
mod seeds;
pub mod slots;
