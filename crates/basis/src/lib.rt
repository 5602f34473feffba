// What every crate of the product shares: the refusals, lines of text written into a caller's buffer, a stack over a
// slice, and a vector whose room is taken once.
#![tactic(auto)]

pub mod line;
pub mod refusal;
pub mod reserved;
pub mod stack;
#[cfg(test)]
mod tests;

pub use line::{Piece, line_length, put_line};
pub use refusal::Refusal;
pub use reserved::Reserved;
pub use stack::Stack;
