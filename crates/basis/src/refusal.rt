// A call answers a result or one of these refusals; a refusal changes nothing.
// `specs/Refusals.antt` maps each case to its number and to the value returned with it.
ghost use Rattle.basis.specs.Lines.{answered, overlaid, refusal_line, refusal_text};
ghost use Rattle.basis.specs.Refusals.{number_of, value_of};
ghost use Rattle.basis.specs.declared.refusal.Refusal.TheVariants.{Memory};
ghost use Rattle.std.specs.Prelude.{◌≡◌, ◌≤◌, length, IfOk, Some};

use super::line::{Piece, put_line};
use std::alloc::AllocError;
use std::error::Error;
use std::fmt;

#[derive(Clone, Copy, PartialEq, Eq, Debug)]
pub enum Refusal {
    // no memory could be had
    Memory,
    // a chart file of fewer than 12 bytes
    ShortFile,
    // a chart file that does not begin with the five signature bytes
    Signature,
    // modes, marks, width, start or the spare header byte off limits
    Header,
    // a file whose length is not the one its header asks for
    FileLength,
    // a record that breaks its layout: the lowest such mode
    Record(u16),
    // a counter of length 0 or above 256
    CounterLength,
    // a pair with more than 256 modes
    TooManyModes,
    // a pair wider than 16
    TooWide,
    // a pair with more than 16 marks
    TooManyMarks,
    // not a list of as many different names as there are marks
    NameList,
    // a text of 0 or more than 255 bytes
    TextLength,
    // no token can be formed at this position
    NoToken(usize),
    // the token at this position, or the text's end there, breaks the grammar
    Grammar(usize),
    // the name at this position is not in the list
    UnknownName(usize),
    // a sound text that would need a 65th line or be a 33rd entry
    SheetFull,
    NoSuchLine,
    NoSuchMode,
    NotSettled,
    // no path bears out this kind of line and this answer
    NoSuchPath,
    // a buffer shorter than the path: the modes needed
    ShortPath(usize),
    // a buffer shorter than the text: the bytes needed
    ShortBuffer(usize),
}

impl Refusal {
    pub fn number(&self) -> usize
        ensures { result ≡ number_of self.now }
    {
        match *self {
            Refusal::Memory => 0,
            Refusal::ShortFile => 1,
            Refusal::Signature => 2,
            Refusal::Header => 3,
            Refusal::FileLength => 4,
            Refusal::Record(_) => 5,
            Refusal::CounterLength => 6,
            Refusal::TooManyModes => 7,
            Refusal::TooWide => 8,
            Refusal::TooManyMarks => 9,
            Refusal::NameList => 10,
            Refusal::TextLength => 11,
            Refusal::NoToken(_) => 12,
            Refusal::Grammar(_) => 13,
            Refusal::UnknownName(_) => 14,
            Refusal::SheetFull => 15,
            Refusal::NoSuchLine => 16,
            Refusal::NoSuchMode => 17,
            Refusal::NotSettled => 18,
            Refusal::NoSuchPath => 19,
            Refusal::ShortPath(_) => 20,
            Refusal::ShortBuffer(_) => 21,
        }
    }

    // What is returned with the number, if anything.
    pub fn value(&self) -> Option<usize>
        ensures { result ≡ value_of self.now }
    {
        match *self {
            Refusal::Record(mode) => Some(mode as usize),
            Refusal::NoToken(position)
            | Refusal::Grammar(position)
            | Refusal::UnknownName(position) => Some(position),
            Refusal::ShortPath(needed) | Refusal::ShortBuffer(needed) => Some(needed),
            _ => None,
        }
    }

    // Lays the refusal's line, as `refused 13 at 4` and a line end, into `out` from its beginning and answers its
    // length; the rest of `out` stays.
    pub fn write_line(&self, out: &mut [u8]) -> Result<usize, Refusal>
        ensures answer { result ≡ answered (refusal_line self.now) (length out.old) }
        ensures buffer { out.new ≡ overlaid (refusal_line self.now) out.old }
        ensures bound { IfOk result (λ n. n ≤ length out.old) }
    {
        let number = Piece::Number(self.number());
        match self.value() {
            None => put_line(out, &[Piece::Text(b"refused "), number]),
            Some(value) => {
                let pieces = [
                    Piece::Text(b"refused "),
                    number,
                    Piece::Text(b" at "),
                    Piece::Number(value),
                ];
                put_line(out, &pieces)
            }
        }
    }
}

// The refusal's line without its line end. The line itself is laid by pieces, so that a short buffer stays as it is.
impl fmt::Display for Refusal {
    ghost output = { λ e. Some (refusal_text e) };

    fn fmt<W: fmt::Write>(&self, f: &mut fmt::Formatter<W>) -> fmt::Result {
        match self.value() {
            None => write!(f, "refused {}", self.number()),
            Some(value) => write!(f, "refused {} at {value}", self.number()),
        }
    }
}

impl Error for Refusal {}

impl From<AllocError> for Refusal {
    ghost from_gives = { λ _ e. e ≡ Memory };

    fn from(_error: AllocError) -> Refusal {
        Self::Memory
    }
}
