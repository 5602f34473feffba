// What the programs read: the chart file, standard input, and the lines in it.
#![tactic(auto)]

mod files;
mod lines;

pub use files::{fill, read_chart_file};
pub use lines::lines_of;
