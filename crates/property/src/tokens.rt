// A token of a text, and the state of the reader that forms it. A name borrows its letters from the text.
use crate::shape::{Closing, Middle, Opening, UnaryOperator};
use ctl::Quantifier;

#[derive(Clone, Copy)]
pub enum Token<'a> {
    Name(&'a [u8]),
    Constant(bool),
    Unary(UnaryOperator),
    Open(Opening),
    Middle(Middle),
    Close(Closing),
}

// A token beside the position of its first byte.
#[derive(Clone, Copy)]
pub struct Placed<'a> {
    pub token: Token<'a>,
    pub position: usize,
}

// What one more byte makes: a name begins, a capital waits, a token is whole, or no token can be formed. The reader's
// definition has the same four cases.
#[derive(Clone, Copy)]
pub enum Step<'a> {
    Name,
    Wait(Quantifier),
    Whole(Token<'a>),
    Fault,
}
