// Fitting tokens to the grammar with an explicit stack of waiting tokens.
ghost use Rattle.std.specs.Prelude.{◌≡◌, ◌+◌, ◌<◌, ◌&&◌, [], ◌∷◌, ◌++◌, length, if◌then◌else◌, Ok, Err, false, true};
ghost use Rattle.std.specs.Result.{result_and};
ghost use Rattle.property.specs.Forming.{word_of};
ghost use Rattle.property.specs.Lists.{listed};
ghost use Rattle.property.specs.Machine.{operator, closes};
ghost use Rattle.property.specs.Flat.{waits, TakenBy, leading_unary, separated, closed, dropped, rest_tags, unaries, fitted, with_state, is_none};
ghost use Rattle.basis.specs.declared.refusal.Refusal.TheVariants.{Grammar};

use crate::names::find;
use crate::postfix::Parts;
use crate::shape::{BinaryOperator, Closing, Middle, Opening, Part, Tag, UnaryOperator, Waiting};
use crate::tokens::{Placed, Token};
use basis::Refusal;
use basis::stack::Stack;

// The operator that a bracket and its middle make.
fn operator_of(opening: Opening, middle: Middle) -> Option<BinaryOperator>
    ensures { result ≡ operator opening middle }
{
    match (opening, middle) {
        (Opening::Round, Middle::Join(connective)) => Some(BinaryOperator::Join(connective)),
        (Opening::Square(runs), Middle::Path(temporal)) => Some(BinaryOperator::Path(
            temporal, runs,
        )),
        (_, _) => None,
    }
}

// Whether a bracket closes an operator.
fn closes_by(operator: BinaryOperator, closing: Closing) -> bool
    ensures { result ≡ closes operator closing }
{
    matches!(
        (operator, closing),
        (BinaryOperator::Join(_), Closing::Round) | (BinaryOperator::Path(_, _), Closing::Square)
    )
}

impl Tag {
    // The unary operator that waits.
    fn unary(self) -> Option<UnaryOperator>
        ensures { result ≡ leading_unary (self ∷ []) }
    {
        match self {
            Tag::Unary(operator) => Some(operator),
            _ => None,
        }
    }

    // What the middle makes of a bracket that waits for its left operand.
    fn separated_by(self, middle: Middle) -> Option<BinaryOperator>
        ensures { result ≡ separated middle (self ∷ []) }
    {
        match self {
            Tag::Left(opening) => operator_of(opening, middle),
            _ => None,
        }
    }

    // The operator that waits for its right operand, if the bracket closes it.
    fn closed_by(self, closing: Closing) -> Option<BinaryOperator>
        ensures { result ≡ closed closing (self ∷ []) }
    {
        match self {
            Tag::Right(operator) if closes_by(operator, closing) => Some(operator),
            _ => None,
        }
    }
}

// A text that is fitted token by token: what waits, and whether an operand stands complete. The names and the parts stay
// with the caller, who lends them to each call.
#[derive(Drop)]
pub(crate) struct Fitting<'a> {
    waiting: Stack<'a, Waiting>,
    complete: bool,
    ghost room: { length waiting.slots.now ≡ 255 },
}

impl<'a> Fitting<'a> {
    // Nothing waits yet; the slots are as many as a text can have tokens.
    pub(crate) fn new(slots: &'a mut [Waiting; 255]) -> Fitting<'a>
        ensures waiting { waits result.waiting ≡ [] }
        ensures complete { result.complete ≡ false }
    {
        Fitting {
            waiting: Stack::new(slots),
            complete: false,
        }
    }

    // Takes the newest that waits off, if the test finds in it what is wanted.
    fn pop_by<T, F: FnOnce(Tag) -> Option<T>>(&mut self, test: F) -> Option<T>
        requires { F.IsAlwaysCallable test }
        ensures value { TakenBy (F.post test) (waits self.old.waiting) result }
        ensures rest { waits self.new.waiting ≡ dropped result (waits self.old.waiting) }
    {
        let found = test(self.waiting.top()?.tag)?;
        let _ = self.waiting.pop();
        Some(found)
    }

    // Puts a token on the stack, and wants an operand.
    fn wait(&mut self, tag: Tag, position: usize)
        requires { length (waits self.old.waiting) < 255 }
        ensures waiting { waits self.new.waiting ≡ tag ∷ waits self.old.waiting }
        ensures complete { self.new.complete ≡ false }
    {
        let _ = self.waiting.push(Waiting { tag, position });
        self.complete = false;
    }

    // Writes an operand's last part, and ends the unary operators that waited for it.
    fn finish_operand(&mut self, part: Part, parts: &mut Parts)
        requires { length (waits self.old.waiting) + length parts.old.list < 255 }
        ensures waiting { waits self.new.waiting ≡ rest_tags (waits self.old.waiting) }
        ensures complete { self.new.complete ≡ true }
        ensures parts { parts.new.list ≡ parts.old.list ++ (part ∷ unaries (waits self.old.waiting)) }
    {
        parts.push(part);
        while let Some(operator) = self.pop_by(Tag::unary) {
            parts.push(Part::Unary(operator));
        }
        self.complete = true;
    }

    // Fits one token to the grammar and looks a name up.
    pub(crate) fn fit(
        &mut self,
        placed: Placed<'_>,
        names: &[u8],
        parts: &mut Parts,
    ) -> Result<(), Refusal>
        requires { length (waits self.old.waiting) + length parts.old.list < 255 }
        ensures { with_state (result_and result (Ok self.new.complete)) (waits self.new.waiting) parts.new.list ≡ fitted (listed names.now) self.old.complete (waits self.old.waiting) parts.old.list (word_of placed.entry.token) placed.entry.position }
    {
        let Placed { token, position } = placed;
        match (self.complete, token) {
            (false, Token::Name(letters)) => {
                let Some(mark) = find(names, letters) else {
                    return Err(Refusal::UnknownName(position));
                };
                self.finish_operand(Part::Name(mark), parts);
            }
            (false, Token::Constant(value)) => self.finish_operand(Part::Constant(value), parts),
            (false, Token::Unary(operator)) => self.wait(Tag::Unary(operator), position),
            (false, Token::Open(opening)) => self.wait(Tag::Left(opening), position),
            (true, Token::Middle(middle)) => {
                let Some(operator) = self.pop_by(|tag| tag.separated_by(middle)) else {
                    return Err(Refusal::Grammar(position));
                };
                self.wait(Tag::Right(operator), position);
            }
            (true, Token::Close(closing)) => {
                let Some(operator) = self.pop_by(|tag| tag.closed_by(closing)) else {
                    return Err(Refusal::Grammar(position));
                };
                self.finish_operand(Part::Binary(operator), parts);
            }
            (_, _) => return Err(Refusal::Grammar(position)),
        }
        Ok(())
    }

    // At the text's end an operand has to stand complete, with nothing waiting.
    pub(crate) fn finish(&self, end: usize) -> Result<(), Refusal>
        ensures { result ≡ (if self.now.complete && is_none (waits self.now.waiting) then Ok tt else Err (Grammar end)) }
    {
        if self.complete && self.waiting.top().is_none() {
            Ok(())
        } else {
            Err(Refusal::Grammar(end))
        }
    }
}
