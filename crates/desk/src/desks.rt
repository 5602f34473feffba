// What stands on a desk, and one step on it.
use crate::calls::Event;
use sheet::{Book, Sheet};

// A sheet, or the book that it became.
#[derive(Drop)]
pub enum Desk<C> {
    Sheet(Sheet<C>),
    Book(Book<C>),
}

// The event of a call, and what stands on the desk after it.
#[derive(Drop)]
pub struct Step<'a, C> {
    pub desk: Desk<C>,
    pub event: Event<'a>,
}

// The log of all calls in their order, and what stands on the desk after them.
#[derive(Drop)]
pub struct Session<'a, C> {
    pub log: Vec<Event<'a>>,
    pub desk: Desk<C>,
}
