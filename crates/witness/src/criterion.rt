// A question about a mode: a walk takes the first way out that passes.
ghost use Rattle.std.specs.Prelude.{◌≡◌, ℕ, Bool, slice_index};
ghost use Rattle.witness.specs.Criteria.{read_by, numbered_by, reached_by};

use crate::reading::{Numbered, Reached, Reading};
use rounds::set::is_member;

// A trait and no closure: its `test` is the function that the definitions of the walks take.
pub(crate) trait Criterion {
    ghost test: { Self → ℕ → Bool };

    fn admits(&self, mode: u16) -> bool
        ensures { result ≡ test self.now mode };
}

// A mode's number in a table; past its end 0.
pub(crate) fn number_of(numbers: &[u16], mode: u16) -> u16
    ensures { result ≡ slice_index numbers.now mode }
{
    numbers.get(mode as usize).copied().unwrap_or(0)
}

impl<'a> Criterion for Reading<'a> {
    ghost test = { read_by };

    fn admits(&self, mode: u16) -> bool {
        is_member(self.set, mode) == self.answer
    }
}

impl<'a> Criterion for Numbered<'a> {
    ghost test = { numbered_by };

    fn admits(&self, mode: u16) -> bool {
        number_of(self.numbers, mode) == self.number
    }
}

impl<'a> Criterion for Reached<'a> {
    ghost test = { reached_by };

    fn admits(&self, mode: u16) -> bool {
        number_of(self.numbers, mode) > 0
    }
}
