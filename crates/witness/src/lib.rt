// The path that is shown for a settled line's answer: the modes that bear it out, and where the last one returns.
#![tactic(auto)]

mod criterion;
mod laying;
mod numbers;
mod plan;
mod reading;
pub mod scratch;
mod shape;
pub mod showing;
mod walks;
mod ways;

pub use scratch::{Scratch, Shown};
pub use showing::show;
