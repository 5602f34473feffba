// Reading a text: its list of names, its length, then its tokens from left to right.
ghost use Rattle.std.specs.Prelude.{◌≡◌, ℕ, ◌≤◌, false, [], ◌∷◌, length, Ok, Result};
ghost use Rattle.property.specs.Words.{scan};
ghost use Rattle.property.specs.Lists.{listed};
ghost use Rattle.basis.specs.declared.refusal.Refusal.{Refusal};
ghost use Rattle.property.specs.Syntax.{Syntax, built};
ghost use Rattle.property.specs.Reading.{reading, fits_length, outcome, parts_of};
ghost use Rattle.property.specs.Laws.{Reads};
ghost use Rattle.property.specs.Flat.{fit_all, with_parts, as_parts};

use crate::grammar::Fitting;
use crate::names::check_names;
use crate::postfix::Parts;
use crate::reader::TokenReader;
use crate::shape::{Tag, UnaryOperator, Waiting};
use basis::Refusal;

// Reads a text over the names of so many marks. The parts are those of its tree, in postfix order; after a refusal there
// are none.
pub fn read(names: &[u8], marks: usize, text: &[u8], parts: &mut Parts) -> Result<(), Refusal>
    ensures value { result ≡ outcome (reading names.now marks text.now) }
    ensures parts { parts.new.list ≡ parts_of (reading names.now marks text.now) }
    ensures few { length parts.new.list ≤ 255 }
    ensures tree { (t : Syntax ℕ) → reading names.now marks text.now ≡ Ok t → built [] parts.new.list ≡ t ∷ [] }
    ensures meaning { Reads names.now marks text.now (reading names.now marks text.now) }
    ensures only { (x : Result (Syntax ℕ) Refusal) → Reads names.now marks text.now x → x ≡ reading names.now marks text.now }
{
    let answer = read_checked(names, marks, text, parts);
    if answer.is_err() {
        parts.clear();
    }
    answer
}

// First the list of names, then the text's length, then the text. The parameters are those of the public call.
fn read_checked(names: &[u8], marks: usize, text: &[u8], parts: &mut Parts) -> Result<(), Refusal>
    ensures { with_parts result parts.new.list ≡ as_parts (reading names.now marks text.now) }
{
    check_names(names, marks)?;
    if !fits(text) {
        return Err(Refusal::TextLength);
    }
    parts.clear();
    read_text(names, text, parts)
}

// Whether a text has 1 to 255 bytes.
fn fits(text: &[u8]) -> bool
    ensures { result ≡ fits_length text.now }
{
    (1..=255).contains(&text.len())
}

// Takes token after token by `let else`, and leaves with the first fault of forming, fitting or look-up. What waits
// stands on slots for as many tokens as the longest text can have.
fn read_text(names: &[u8], text: &[u8], parts: &mut Parts) -> Result<(), Refusal>
    requires { (length text.now ≤ 255) × (parts.old.list ≡ []) }
    ensures { with_parts result parts.new.list ≡ fit_all (listed names.now) (false, ([], [])) (scan 0 0 text.now) }
{
    let mut slots = [Waiting {
        tag: Tag::Unary(UnaryOperator::Not),
        position: 0,
    }; 255];
    let mut fitting = Fitting::new(&mut slots);
    let mut reader = TokenReader::new(text);
    loop {
        let Some(placed) = reader.next()? else {
            break;
        };
        fitting.fit(placed, names, parts)?;
    }
    fitting.finish(text.len())
}
