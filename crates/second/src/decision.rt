// What the second checker says of a property: its outermost operator with its operands, and where it holds.
use crate::deciding::Form;
use crate::due::Due;
use crate::graph::Graph;
use crate::modes::Modes;
use chart::Chart;
use ctl::{Quantifier, Temporal};
use property::{Part, UnaryOperator};
use std::alloc::AllocError;

#[derive(Drop)]
pub(crate) struct Decision {
    // the outermost operator but for `!`s before it, with its operands
    form: Form,
    // where that operator holds
    under: Modes,
    // whether the `!`s before it negate it
    negated: bool,
}

impl Decision {
    // Whether the operator under the `!`s holds at a mode.
    pub(crate) fn holds_under(&self, mode: u16) -> bool {
        self.under.has(mode)
    }

    // Whether the property as written holds at a mode.
    pub(crate) fn holds(&self, mode: u16) -> bool {
        self.under.has(mode) != self.negated
    }

    // The path that is due at a mode.
    pub(crate) fn due(&self, mode: u16) -> Due<'_> {
        match (&self.form, self.under.has(mode)) {
            (Form::Next(Quantifier::Exists, operand), true)
            | (Form::Next(Quantifier::Forall, operand), false) => Due::Step(operand),
            (Form::Path(Temporal::Until, Quantifier::Exists, left, right), true)
            | (Form::Path(Temporal::Release, Quantifier::Forall, left, right), false) => {
                Due::Arrival(left, right)
            }
            (Form::Path(Temporal::Release, Quantifier::Exists, left, right), true)
            | (Form::Path(Temporal::Until, Quantifier::Forall, left, right), false) => {
                Due::Stay(left, right)
            }
            _ => Due::Nothing,
        }
    }
}

impl<C: Chart> Graph<'_, C> {
    // None where the parts are not those of one property.
    pub(crate) fn decide(&self, parts: &[Part]) -> Result<Option<Decision>, AllocError> {
        let mut negated = false;
        let mut rest = parts;
        while let Some((Part::Unary(UnaryOperator::Not), before)) = rest.split_last() {
            negated = !negated;
            rest = before;
        }
        match rest.split_last() {
            Some((last, before)) => self.decide_stripped(before, *last, negated),
            None => Ok(None),
        }
    }

    // A property without the `!`s before it: all its parts but the last, and the last.
    fn decide_stripped(
        &self,
        before: &[Part],
        last: Part,
        negated: bool,
    ) -> Result<Option<Decision>, AllocError> {
        let Some(mut stack) = self.evaluate(before)? else {
            return Ok(None);
        };
        let Some(form) = self.form_of(last, &mut stack)? else {
            return Ok(None);
        };
        if !stack.is_empty() {
            return Ok(None);
        }
        let under = self.apply(&form)?;
        Ok(Some(Decision {
            form,
            under,
            negated,
        }))
    }
}
