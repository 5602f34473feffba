// What is asked of a mode: a line's answer, or a number.

// The modes where a line has an answer: its set for yes, the modes outside it for no.
#[derive(Clone, Copy)]
pub(crate) struct Reading<'a> {
    pub set: &'a [bool],
    pub answer: bool,
}

// A chart, and both operands of a line read for an answer.
#[derive(Drop)]
pub(crate) struct Operands<'a, C> {
    pub chart: &'a C,
    pub left: Reading<'a>,
    pub right: Reading<'a>,
}

// The modes with one number in a table.
#[derive(Clone, Copy)]
pub(crate) struct Numbered<'a> {
    pub numbers: &'a [u16],
    pub number: u16,
}

// The modes with any number but 0 in a table.
#[derive(Clone, Copy)]
pub(crate) struct Reached<'a> {
    pub numbers: &'a [u16],
}
