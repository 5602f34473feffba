// A part as one letter: a name by its mark, a quantifier as a capital (some run) or a small letter (every run).
use ctl::Connective::{And, Or};
use ctl::Quantifier::{Exists, Forall};
use ctl::Temporal::{Release, Until};
use property::BinaryOperator::{Join, Path};
use property::Part;
use property::UnaryOperator::{Finally, Globally, Next, Not};

pub fn letter(part: Part) -> char {
    match part {
        Part::Constant(true) => '1',
        Part::Constant(false) => '0',
        Part::Name(mark) => char::from(b'a'.saturating_add((mark % 16) as u8)),
        Part::Unary(Not) => '!',
        Part::Unary(Next(Exists)) => 'X',
        Part::Unary(Next(Forall)) => 'x',
        Part::Unary(Finally(Exists)) => 'F',
        Part::Unary(Finally(Forall)) => 'f',
        Part::Unary(Globally(Exists)) => 'G',
        Part::Unary(Globally(Forall)) => 'g',
        Part::Binary(Join(And)) => '&',
        Part::Binary(Join(Or)) => '|',
        Part::Binary(Path(Until, Exists)) => 'U',
        Part::Binary(Path(Until, Forall)) => 'u',
        Part::Binary(Path(Release, Exists)) => 'R',
        Part::Binary(Path(Release, Forall)) => 'r',
    }
}
