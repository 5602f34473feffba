// Which path bears out an answer, from the line's rule.
ghost use Rattle.std.specs.Prelude.{◌≡◌};
ghost use Rattle.ctl.specs.Paths.{borne as borne_by, path_shape, shape_of};
ghost use Rattle.witness.specs.Shapes.{plan_of, planned};

use crate::plan::Plan;
use ctl::{Quantifier, Rule, Temporal};

// Whether one run bears the answer out: yes of some run, no of every run.
fn is_borne(quantifier: Quantifier, answer: bool) -> bool
    ensures { result ≡ borne_by quantifier answer }
{
    match quantifier {
        Quantifier::Exists => answer,
        Quantifier::Forall => !answer,
    }
}

// An until is reached and a release stays; where the answer is no, the other way round.
fn plan_path(temporal: Temporal, answer: bool, p: usize, q: usize) -> Plan
    ensures { plan_of result ≡ path_shape temporal answer p q }
{
    match (temporal, answer) {
        (Temporal::Until, true) | (Temporal::Release, false) => Plan::Reach(p, q),
        (Temporal::Until, false) | (Temporal::Release, true) => Plan::Stay(p, q),
    }
}

// What path a kind of line has for an answer, if any.
pub(crate) fn plan_for(rule: Rule, answer: bool) -> Option<Plan>
    ensures { planned result ≡ shape_of rule answer }
{
    match rule {
        Rule::Next(quantifier, p) => is_borne(quantifier, answer).then_some(Plan::Step(p)),
        Rule::Path(temporal, quantifier, p, q) => {
            is_borne(quantifier, answer).then_some(plan_path(temporal, answer, p, q))
        }
        _ => None,
    }
}
