// Where a property holds, decided on its parts as they were read, each by paths and circles in the chart's graph.
use crate::graph::Graph;
use crate::modes::Modes;
use chart::Chart;
use ctl::{Connective, Quantifier, Temporal};
use property::{BinaryOperator, Part, UnaryOperator};
use std::alloc::AllocError;

// What a part says of the modes where its operands hold. `F` is an until whose left operand holds everywhere, `G` a
// release whose left operand holds nowhere.
#[derive(Drop)]
pub(crate) enum Form {
    Constant(bool),
    Name(usize),
    Not(Modes),
    Join(Connective, Modes, Modes),
    Next(Quantifier, Modes),
    Path(Temporal, Quantifier, Modes, Modes),
}

fn binary(operator: BinaryOperator, left: Modes, right: Modes) -> Form {
    match operator {
        BinaryOperator::Join(connective) => Form::Join(connective, left, right),
        BinaryOperator::Path(temporal, quantifier) => {
            Form::Path(temporal, quantifier, left, right)
        }
    }
}

impl<C: Chart> Graph<'_, C> {
    fn uniform(&self, held: bool) -> Result<Modes, AllocError> {
        Modes::uniform(self.heap, self.chart.modes(), held)
    }

    // At some way out.
    fn next_some(&self, p: &Modes) -> Result<Modes, AllocError> {
        Modes::of(self.heap, self.chart.modes(), |mode| {
            Ok(self.leads(mode, |next| p.has(next)))
        })
    }

    // Some path through p comes to q.
    fn until_some(&self, p: &Modes, q: &Modes) -> Result<Modes, AllocError> {
        Modes::of(self.heap, self.chart.modes(), |mode| {
            Ok(self.fewest(p, q, mode)?.is_some())
        })
    }

    // Some path through q comes to both, or to a circle inside q.
    fn release_some(&self, p: &Modes, q: &Modes) -> Result<Modes, AllocError> {
        let both = p.and(self.heap, q)?;
        Modes::of(self.heap, self.chart.modes(), |mode| {
            Ok(self.fewest(q, &both, mode)?.is_some() || self.circles(q, mode)?)
        })
    }

    // On every run unless some run breaks it: an until is broken by a release of the others, a release by an until.
    fn path_every(&self, temporal: Temporal, p: &Modes, q: &Modes) -> Result<Modes, AllocError> {
        let p = p.others(self.heap)?;
        let q = q.others(self.heap)?;
        let broken = match temporal {
            Temporal::Until => self.release_some(&p, &q)?,
            Temporal::Release => self.until_some(&p, &q)?,
        };
        broken.others(self.heap)
    }

    fn path(
        &self,
        temporal: Temporal,
        quantifier: Quantifier,
        p: &Modes,
        q: &Modes,
    ) -> Result<Modes, AllocError> {
        match (quantifier, temporal) {
            (Quantifier::Exists, Temporal::Until) => self.until_some(p, q),
            (Quantifier::Exists, Temporal::Release) => self.release_some(p, q),
            (Quantifier::Forall, _) => self.path_every(temporal, p, q),
        }
    }

    fn next(&self, quantifier: Quantifier, p: &Modes) -> Result<Modes, AllocError> {
        match quantifier {
            Quantifier::Exists => self.next_some(p),
            Quantifier::Forall => self.next_some(&p.others(self.heap)?)?.others(self.heap),
        }
    }

    fn marked(&self, mark: usize) -> Result<Modes, AllocError> {
        Modes::of(self.heap, self.chart.modes(), |mode| {
            Ok(self.chart.stands(mark, mode))
        })
    }

    fn unary(&self, operator: UnaryOperator, operand: Modes) -> Result<Form, AllocError> {
        Ok(match operator {
            UnaryOperator::Not => Form::Not(operand),
            UnaryOperator::Next(quantifier) => Form::Next(quantifier, operand),
            UnaryOperator::Finally(quantifier) => {
                Form::Path(Temporal::Until, quantifier, self.uniform(true)?, operand)
            }
            UnaryOperator::Globally(quantifier) => {
                Form::Path(Temporal::Release, quantifier, self.uniform(false)?, operand)
            }
        })
    }

    // What a part says of its operands, which it takes from the stack; None where they are not there.
    pub(crate) fn form_of(
        &self,
        part: Part,
        stack: &mut Vec<Modes>,
    ) -> Result<Option<Form>, AllocError> {
        match part {
            Part::Constant(value) => Ok(Some(Form::Constant(value))),
            Part::Name(mark) => Ok(Some(Form::Name(mark))),
            Part::Unary(operator) => match stack.pop() {
                Some(operand) => Ok(Some(self.unary(operator, operand)?)),
                None => Ok(None),
            },
            Part::Binary(operator) => match (stack.pop(), stack.pop()) {
                (Some(right), Some(left)) => Ok(Some(binary(operator, left, right))),
                _ => Ok(None),
            },
        }
    }

    // Where a part holds.
    pub(crate) fn apply(&self, form: &Form) -> Result<Modes, AllocError> {
        match form {
            Form::Constant(value) => self.uniform(*value),
            Form::Name(mark) => self.marked(*mark),
            Form::Not(p) => p.others(self.heap),
            Form::Join(Connective::And, p, q) => p.and(self.heap, q),
            Form::Join(Connective::Or, p, q) => p.or(self.heap, q),
            Form::Next(quantifier, p) => self.next(*quantifier, p),
            Form::Path(temporal, quantifier, p, q) => self.path(*temporal, *quantifier, p, q),
        }
    }

    // Goes through the parts in order; what is left are the sets of the properties that no part has taken. None where a
    // part lacks an operand.
    pub(crate) fn evaluate(&self, parts: &[Part]) -> Result<Option<Vec<Modes>>, AllocError> {
        let mut stack = Vec::new(self.heap);
        for part in parts {
            let Some(form) = self.form_of(*part, &mut stack)? else {
                return Ok(None);
            };
            stack.push(self.apply(&form)?)?;
        }
        Ok(Some(stack))
    }
}
