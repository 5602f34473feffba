// The reader of tokens stands over the borrowed text; it advances, and never copies.
ghost use Rattle.std.specs.Prelude.{◌≡◌, ◌+◌, ◌<◌, ◌≤◌, length, drop, None};
ghost use Rattle.property.specs.Words.{form, letters, letters_of};
ghost use Rattle.property.specs.Forming.{word_of, waiting, unread, place_in, turn_of, turned, answer_to, viewed, taken};

use crate::names::letters_in_front;
use crate::shape::{Closing, Middle, Opening, UnaryOperator};
use crate::tokens::{Placed, Step, Token};
use basis::Refusal;
use ctl::{Connective, Quantifier, Temporal};

#[derive(Drop)]
pub struct TokenReader<'a> {
    text: &'a [u8],
    cursor: usize,
    // the capital before the cursor that waits for the byte that completes it: `E` for some run, `A` for every run
    capital: Option<Quantifier>,
    ghost behind: { length (waiting capital) ≤ cursor },
}

impl<'a> TokenReader<'a> {
    pub fn new(text: &'a [u8]) -> TokenReader<'a>
        ensures text { unread result.capital result.cursor result.text.now ≡ text.now }
        ensures place { place_in result.capital result.cursor ≡ 0 }
    {
        TokenReader {
            text,
            cursor: 0,
            capital: None,
        }
    }

    // The next token with its position; none at the text's end.
    pub fn next(&mut self) -> Result<Option<Placed<'a>>, Refusal>
        ensures value { viewed result ≡ answer_to (place_in self.old.capital self.old.cursor) (form (unread self.old.capital self.old.cursor self.old.text.now)) }
        ensures unread { unread self.new.capital self.new.cursor self.new.text.now ≡ drop (taken (form (unread self.old.capital self.old.cursor self.old.text.now))) (unread self.old.capital self.old.cursor self.old.text.now) }
        ensures place { place_in self.new.capital self.new.cursor ≡ place_in self.old.capital self.old.cursor + taken (form (unread self.old.capital self.old.cursor self.old.text.now)) }
    {
        let position = self.position();
        while let Some(&byte) = self.text.get(self.cursor) {
            match self.step(byte) {
                Step::Name => {
                    let token = self.name();
                    return Ok(Some(Placed { token, position }));
                }
                Step::Wait(runs) => self.advance(Some(runs)),
                Step::Whole(token) => {
                    self.advance(None);
                    return Ok(Some(Placed { token, position }));
                }
                Step::Fault => return Err(Refusal::NoToken(self.cursor)),
            }
        }
        match self.capital {
            None => Ok(None),
            Some(_) => Err(Refusal::NoToken(self.cursor)),
        }
    }

    // One byte on, with the capital that waits then.
    fn advance(&mut self, capital: Option<Quantifier>)
        requires { self.old.cursor < length self.old.text.now }
        ensures cursor { self.new.cursor ≡ self.old.cursor + 1 }
        ensures capital { self.new.capital ≡ capital }
        ensures text { self.new.text ≡ self.old.text }
    {
        self.cursor += 1;
        self.capital = capital;
    }

    // What the next byte makes in this state.
    fn step(&self, byte: u8) -> Step<'a>
        ensures { turned result ≡ turn_of self.now.capital byte }
    {
        match (self.capital, byte) {
            (None, b'a'..=b'z') => Step::Name,
            (None, b'E') => Step::Wait(Quantifier::Exists),
            (None, b'A') => Step::Wait(Quantifier::Forall),
            (None, b'1') => Step::Whole(Token::Constant(true)),
            (None, b'0') => Step::Whole(Token::Constant(false)),
            (None, b'!') => Step::Whole(Token::Unary(UnaryOperator::Not)),
            (None, b'(') => Step::Whole(Token::Open(Opening::Round)),
            (None, b')') => Step::Whole(Token::Close(Closing::Round)),
            (None, b']') => Step::Whole(Token::Close(Closing::Square)),
            (None, b'&') => Step::Whole(Token::Middle(Middle::Join(Connective::And))),
            (None, b'|') => Step::Whole(Token::Middle(Middle::Join(Connective::Or))),
            (None, b'U') => Step::Whole(Token::Middle(Middle::Path(Temporal::Until))),
            (None, b'R') => Step::Whole(Token::Middle(Middle::Path(Temporal::Release))),
            (Some(runs), b'X') => Step::Whole(Token::Unary(UnaryOperator::Next(runs))),
            (Some(runs), b'F') => Step::Whole(Token::Unary(UnaryOperator::Finally(runs))),
            (Some(runs), b'G') => Step::Whole(Token::Unary(UnaryOperator::Globally(runs))),
            (Some(runs), b'[') => Step::Whole(Token::Open(Opening::Square(runs))),
            (_, _) => Step::Fault,
        }
    }

    // The position of the next token: that of a waiting capital, or the cursor.
    fn position(&self) -> usize
        ensures { result ≡ place_in self.now.capital self.now.cursor }
    {
        match self.capital {
            None => self.cursor,
            Some(_) => self.cursor - 1,
        }
    }

    // The longest row of letters from the cursor on.
    #[tactic(auto, using(crate::proofs::Passing::row_taken))]
    fn name(&mut self) -> Token<'a>
        requires { (self.old.capital ≡ None) × (self.old.cursor ≤ length self.old.text.now) }
        ensures value { word_of result ≡ letters (letters_of (drop self.old.cursor self.old.text.now)) }
        ensures cursor { self.new.cursor ≡ self.old.cursor + length (letters_of (drop self.old.cursor self.old.text.now)) }
        ensures capital { self.new.capital ≡ None }
        ensures text { self.new.text.now ≡ self.old.text.now }
    {
        let rest = &self.text[self.cursor..];
        let count = letters_in_front(rest);
        self.cursor += count;
        Token::Name(&rest[..count])
    }
}
