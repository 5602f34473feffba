// The sheet and the book: texts are entered on a sheet, rounds are made, lines are asked about; a finished sheet is a
// book, whose report can be written.
#![tactic(auto)]

mod asking;
mod book_calls;
mod counting;
mod entering;
mod making;
mod reporting;
mod sheet_calls;
mod showing;
pub mod states;
pub mod work;

pub use states::{Book, Sheet};
pub use work::Counts;
