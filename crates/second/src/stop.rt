// Why the comparison cannot go on: no memory, or a call refused what it has to take.
use basis::Refusal;
use std::alloc::AllocError;
use std::fmt;

#[derive(Clone, Copy)]
pub(crate) enum Stop {
    Memory,
    Refused(Refusal),
}

impl From<AllocError> for Stop {
    fn from(_error: AllocError) -> Stop {
        Stop::Memory
    }
}

impl From<Refusal> for Stop {
    fn from(refusal: Refusal) -> Stop {
        Stop::Refused(refusal)
    }
}

impl fmt::Display for Stop {
    fn fmt<W: fmt::Write>(&self, f: &mut fmt::Formatter<W>) -> fmt::Result {
        match self {
            Stop::Memory => f.write_str("no memory"),
            Stop::Refused(refusal) => {
                let number = refusal.number();
                write!(f, "refused {number}")
            }
        }
    }
}
