// In what the second checker and the product disagree.
use crate::due::{Due, Fault};
use basis::Refusal;
use ctl::Verdict;
use std::fmt;

// What a sheet or a book tells when it is asked, in one word: whatever the refusal, it is a difference.
#[derive(Clone, Copy, PartialEq, Eq)]
pub(crate) enum Told {
    Yes,
    No,
    Pending,
    Refused,
}

impl Told {
    pub(crate) fn is_settled(self) -> bool {
        matches!(self, Told::Yes | Told::No)
    }
}

impl From<Result<Verdict, Refusal>> for Told {
    fn from(answer: Result<Verdict, Refusal>) -> Told {
        match answer {
            Ok(Verdict::Yes) => Told::Yes,
            Ok(Verdict::No) => Told::No,
            Ok(Verdict::Pending) => Told::Pending,
            Err(_) => Told::Refused,
        }
    }
}

impl From<bool> for Told {
    fn from(holds: bool) -> Told {
        if holds { Told::Yes } else { Told::No }
    }
}

impl fmt::Display for Told {
    fn fmt<W: fmt::Write>(&self, f: &mut fmt::Formatter<W>) -> fmt::Result {
        f.write_str(match self {
            Told::Yes => "yes",
            Told::No => "no",
            Told::Pending => "pending",
            Told::Refused => "refused",
        })
    }
}

#[derive(Clone, Copy)]
pub(crate) enum Difference<'a> {
    // the line of a text that is entered again
    Line,
    // what a text is read as
    Parts,
    // an answer of the book
    Answer { expected: Told, told: Told },
    // an answer of the sheet after a round
    Round { expected: Told, told: Told },
    // how many rounds there are
    Rounds,
    Path { due: Due<'a>, fault: Fault },
}

impl fmt::Display for Difference<'_> {
    fn fmt<W: fmt::Write>(&self, f: &mut fmt::Formatter<W>) -> fmt::Result {
        match self {
            Difference::Line => f.write_str("entry: expected the same line, told another line"),
            Difference::Parts => {
                f.write_str("entry: expected the parts of a property, told others")
            }
            Difference::Answer { expected, told } => {
                write!(f, "answer: expected {expected}, told {told}")
            }
            Difference::Round { expected, told } => {
                write!(f, "answer after a round: expected {expected}, told {told}")
            }
            Difference::Rounds => {
                f.write_str("rounds: expected as many as the book has, told another number")
            }
            Difference::Path { due, fault } => write!(f, "path: expected {due}, told {fault}"),
        }
    }
}
