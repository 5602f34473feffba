// From a text to its property: the list of names, the tokens, the grammar, and the property's parts in postfix order,
// or the first fault in reading order at its exact position.
#![tactic(auto)]

mod grammar;
pub mod names;
pub mod postfix;
pub mod reader;
pub mod reading;
pub mod shape;
pub mod tokens;

pub use names::check_names;
pub use postfix::Parts;
pub use reader::TokenReader;
pub use reading::read;
pub use shape::{BinaryOperator, Part, UnaryOperator};
