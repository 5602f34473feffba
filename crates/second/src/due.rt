// The path that is due, and what can be wrong with one that is shown.
use crate::modes::Modes;
use std::alloc::AllocError;
use std::fmt;

// The path that is due, with the sets of the operands. That none is due is an expectation too, and is printed as one.
#[derive(Clone, Copy)]
pub(crate) enum Due<'a> {
    Nothing,
    // one way, to a mode where the operand has the answer
    Step(&'a Modes),
    // a path of fewest modes to where the right operand has the answer, through modes where the left one has it
    Arrival(&'a Modes, &'a Modes),
    // the right operand has the answer throughout, and the left one at the last mode, or the last returns
    Stay(&'a Modes, &'a Modes),
}

impl fmt::Display for Due<'_> {
    fn fmt<W: fmt::Write>(&self, f: &mut fmt::Formatter<W>) -> fmt::Result {
        f.write_str(match self {
            Due::Nothing => "no path",
            Due::Step(_) => "a step",
            Due::Arrival(_, _) => "a path of fewest modes",
            Due::Stay(_, _) => "a path that stays",
        })
    }
}

#[derive(Clone, Copy)]
pub(crate) enum Fault {
    // there was no memory for telling
    Memory,
    Refused,
    RefusedWritten,
    ShortTaken,
    ShortWritten,
    PastBuffer,
    PastPath,
    Empty,
    Beginning,
    Step,
    NotDue,
    NoReturnPlace,
    NoReturnWay,
    Returns,
    StepAnswer,
    OperandAnswer,
    RightAnswer,
    End,
    Length,
}

impl From<AllocError> for Fault {
    fn from(_error: AllocError) -> Fault {
        Fault::Memory
    }
}

impl fmt::Display for Fault {
    fn fmt<W: fmt::Write>(&self, f: &mut fmt::Formatter<W>) -> fmt::Result {
        f.write_str(match self {
            Fault::Memory => "no memory",
            Fault::Refused => "refused",
            Fault::RefusedWritten => "refused, and written",
            Fault::ShortTaken => "a short buffer is not refused with the modes needed",
            Fault::ShortWritten => "a short buffer is written",
            Fault::PastBuffer => "more modes than the buffer has",
            Fault::PastPath => "the buffer is written past the path",
            Fault::Empty => "no modes",
            Fault::Beginning => "it begins elsewhere",
            Fault::Step => "a step that is no way",
            Fault::NotDue => "a path where none is due",
            Fault::NoReturnPlace => "the return place lies past the path",
            Fault::NoReturnWay => "no way leads to the return place",
            Fault::Returns => "it returns",
            Fault::StepAnswer => "no step to where the operand has the answer",
            Fault::OperandAnswer => "an operand lacks the answer",
            Fault::RightAnswer => "the right operand lacks the answer",
            Fault::End => "it neither returns nor ends where the left operand has the answer",
            Fault::Length => "not as few modes as there can be",
        })
    }
}
