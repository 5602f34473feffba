// What is shown: a line's answer at a mode, by one of three kinds of path.
use rounds::Line;

// A line of a list, a mode, and the answer that the line has there.
#[derive(Clone, Copy)]
pub(crate) struct Asked<'a> {
    pub lines: &'a [Line],
    pub line: usize,
    pub mode: u16,
    pub answer: bool,
}

// The kinds of path, with the lines of the operands. The definition of what is shown goes by the same three.
#[derive(Clone, Copy)]
pub(crate) enum Plan {
    // to the first way out with the answer
    Step(usize),
    // to a mode where the right operand has the answer, the left one before
    Reach(usize, usize),
    // until both operands have the answer, or a mode comes again
    Stay(usize, usize),
}
