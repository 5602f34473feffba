// The theory that everything rests on: what a chart means, what a property says of its unending runs, the lines and
// rules that a property becomes, the rounds that settle them, and the paths that bear out an answer.
// The code of this crate is the plain data that the definitions speak of, and one function for each theorem.
#![tactic(auto)]

pub mod laws;
pub mod paths;
pub mod rule;

pub use rule::{Connective, Quantifier, Rule, Temporal, Verdict};
