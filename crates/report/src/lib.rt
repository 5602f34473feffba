// The report of a book: its bytes, drafted line by line and laid into a caller's buffer whole or not at all.
#![tactic(auto)]

pub mod draft;
pub mod laws;
mod parts;
#[cfg(test)]
mod tests;

pub use draft::Draft;
