// Bits packed into bytes, the least bit of a byte first: rows of single bits, and fields of five bits.
#![tactic(auto)]

pub mod fields;
pub mod rows;
