// The operators of a property, the brackets and middles that write them, and the parts of a property in postfix order.
use ctl::{Connective, Quantifier, Temporal};

// What stands before one operand.
#[derive(Clone, Copy)]
pub enum UnaryOperator {
    Not,
    Next(Quantifier),
    Finally(Quantifier),
    Globally(Quantifier),
}

// What stands between two operands, in round or in square brackets.
#[derive(Clone, Copy)]
pub enum BinaryOperator {
    Join(Connective),
    Path(Temporal, Quantifier),
}

// One part of a property in postfix order: operands come before their operator, the left before the right.
#[derive(Clone, Copy)]
pub enum Part {
    Constant(bool),
    // the name's mark
    Name(usize),
    Unary(UnaryOperator),
    Binary(BinaryOperator),
}

// An opening bracket: `(`, `E[` or `A[`. A round bracket is a bracket of its own, and no want of a quantifier.
#[derive(Clone, Copy)]
pub enum Opening {
    Round,
    Square(Quantifier),
}

// What separates the operands in a bracket: `&`, `|`, `U` or `R`.
#[derive(Clone, Copy)]
pub enum Middle {
    Join(Connective),
    Path(Temporal),
}

// A closing bracket: `)` or `]`.
#[derive(Clone, Copy)]
pub enum Closing {
    Round,
    Square,
}

// What a waiting token waits for: its operand, the left one, or the right one. It lies on the stack, so it is data.
#[derive(Clone, Copy)]
pub enum Tag {
    Unary(UnaryOperator),
    Left(Opening),
    Right(BinaryOperator),
}

// A token that waits on the stack, with its position in the text.
#[derive(Clone, Copy)]
pub struct Waiting {
    pub tag: Tag,
    pub position: usize,
}
