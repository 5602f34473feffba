// The lines of a property's positive normal form, written behind the lines that a sheet has already, or refused with the
// count of lines as it was.
#![tactic(auto)]

pub mod count;
pub mod enter;
pub mod memory;
mod placing;
mod plan;
pub mod shape;
#[cfg(test)]
mod tests;
mod writing;

pub use enter::write_lines;
pub use memory::Scratch;
pub use rounds::Tally;
