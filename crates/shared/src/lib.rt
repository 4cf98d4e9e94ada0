// What the book and the controllers share: the refusals, the sizes of a table and the three kinds that every rule is
// written over. The rules themselves are the definitions in specs/.
#![tactic(auto)]

pub mod kinds;
pub mod refusal;
pub mod sizes;
