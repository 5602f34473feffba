// Lines settled by rounds.
use basis::Refusal;
use chart::Chart;
use ctl::Rule;
use rounds::engine::advance;
use rounds::{Line, ModeSet, Tally};
use std::alloc::Global;

fn begun<C: Chart>(heap: Global, chart: &C, rule: Rule) -> Result<Line, Refusal> {
    let mut line = Line::new(heap)?;
    line.begin(chart, rule);
    Ok(line)
}

// The lines of these rules after rounds enough for each.
pub fn settled<C: Chart>(heap: Global, chart: &C, rules: &[Rule]) -> Result<Vec<Line>, Refusal> {
    let mut lines = Vec::new(heap);
    for rule in rules {
        let line = begun(heap, chart, *rule)?;
        if lines.push(line).is_err() {
            return Err(Refusal::Memory);
        }
    }
    let mut next = ModeSet::new(heap)?;
    let mut tally = Tally {
        lines: lines.len(),
        settled: 0,
    };
    let _ = advance(chart, &mut lines, &mut tally, &mut next, 1000);
    Ok(lines)
}
