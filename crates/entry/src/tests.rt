// Worked entries on a counter.
use crate::{Scratch, Tally, write_lines};
use basis::Refusal;
use chart::CounterChart;
use ctl::{Connective, Quantifier, Rule, Temporal};
use property::{BinaryOperator, Part, UnaryOperator};
use rounds::Line;
use std::alloc::Global;
use std::test::Fail;

// Sixty-four places for lines, with their counts.
#[derive(Drop)]
struct Bench {
    chart: CounterChart,
    lines: Vec<Line>,
    tally: Tally,
    scratch: Scratch,
}

impl Bench {
    fn new(heap: Global) -> Result<Bench, Refusal> {
        let chart = CounterChart::new(4)?;
        let scratch = Scratch::new(heap)?;
        let mut lines = Vec::new(heap);
        for _ in 0..64 {
            if lines.push(Line::new(heap)?).is_err() {
                return Err(Refusal::Memory);
            }
        }
        let tally = Tally {
            lines: 0,
            settled: 0,
        };
        Ok(Bench {
            chart,
            lines,
            tally,
            scratch,
        })
    }

    // Whether the parts are answered so, with so many lines written after.
    fn answers(&mut self, parts: &[Part], answer: Result<usize, Refusal>, count: usize) -> bool {
        let found = write_lines(
            &self.chart,
            parts,
            &mut self.lines,
            &mut self.tally,
            &mut self.scratch,
        );
        found == answer && self.tally.lines == count
    }
}

// So many names, each joined to those before it: one line for each name, and one for each join.
fn joined(heap: Global, names: usize) -> Vec<Part> {
    let mut parts = Vec::new(heap);
    for k in 0..names {
        let _ = parts.push(Part::Name(k));
        if k > 0 {
            let _ = parts.push(Part::Binary(BinaryOperator::Join(Connective::Or)));
        }
    }
    parts
}

#[test]
fn nested_property(rt: HostRuntime) -> Result<(), Fail> {
    let mut bench = Bench::new(rt.alloc())?;
    // AG(!a|EFb)
    let parts = [
        Part::Name(0),
        Part::Unary(UnaryOperator::Not),
        Part::Name(1),
        Part::Unary(UnaryOperator::Finally(Quantifier::Exists)),
        Part::Binary(BinaryOperator::Join(Connective::Or)),
        Part::Unary(UnaryOperator::Globally(Quantifier::Forall)),
    ];
    let rules = [
        Rule::Constant(false),
        Rule::Mark(false, 0),
        Rule::Constant(true),
        Rule::Mark(true, 1),
        Rule::Path(Temporal::Until, Quantifier::Exists, 2, 3),
        Rule::Join(Connective::Or, 1, 4),
        Rule::Path(Temporal::Release, Quantifier::Forall, 0, 5),
    ];
    assert!(rt; bench.answers(&parts, Ok(6), 7));
    assert!(rt; bench.answers(&parts, Ok(6), 7));
    for (line, rule) in bench.lines.iter().zip(rules.iter()) {
        assert!(rt; line.rule == *rule);
    }
    Ok(())
}

#[test]
fn no_sixty_fifth_line(rt: HostRuntime) -> Result<(), Fail> {
    let mut bench = Bench::new(rt.alloc())?;
    let full = Err(Refusal::SheetFull);
    let over = joined(rt.alloc(), 33);
    assert!(rt; bench.answers(&over, full, 0));
    assert!(rt; bench.answers(&joined(rt.alloc(), 32), Ok(62), 63));
    assert!(rt; bench.answers(&over, full, 63));
    assert!(rt; bench.answers(&[Part::Name(32)], Ok(63), 64));
    Ok(())
}
