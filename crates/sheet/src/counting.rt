// Rounds made, and plain and looping lines.
ghost use Rattle.std.specs.Prelude.{◌≡◌, ℕ, ◌+◌, ◌*◌, ◌≤◌, length};
ghost use Rattle.ctl.specs.Chart.{size};
ghost use Rattle.ctl.specs.Rounds.{bound, looping_of, plain_of, rounds_of, rules_of};
ghost use Rattle.ctl.specs.Rules.{looping};
ghost use Rattle.rounds.specs.Held.{progress_of};
ghost use Rattle.sheet.specs.State.{counted_up, state_of};

use crate::work::{Counts, Work};
use chart::Chart;
use ctl::Rule;
use rounds::Line;

// Whether a line reads its own set.
fn is_looping(rule: Rule) -> bool
    ensures { result ≡ looping rule }
{
    matches!(rule, Rule::Path(..))
}

// The rounds made on lines, of which there are at most 64.
fn rounds_of(lines: &[Line]) -> usize
    requires { length lines.now ≤ 64 }
    ensures { result ≡ rounds_of (progress_of lines.now 0) }
{
    lines.iter().map(|line| line.rounds as usize).sum()
}

fn looping_of(lines: &[Line]) -> usize
    ensures value { result ≡ looping_of (rules_of (progress_of lines.now 0)) }
    ensures bound { result ≤ length lines.now }
{
    lines.iter().filter(|line| is_looping(line.rule)).count()
}

impl Work {
    // Rounds made since the sheet was last empty, and its plain and looping lines.
    pub(crate) fn count(&self) -> Counts
        ensures { result ≡ counted_up (state_of self.now) }
    {
        let lines = &self.lines[..self.tally.lines];
        let looping = looping_of(lines);
        Counts {
            rounds: rounds_of(lines),
            plain: lines.len() - looping,
            looping,
        }
    }
}

// One round for each plain line, and one more than there are modes for each looping one.
fn most_of(modes: u16, counts: Counts) -> u16
    requires { (modes ≤ 256) × (counts.plain + counts.looping ≤ 64) }
    ensures { result ≡ counts.plain + (modes + 1) * counts.looping }
{
    (counts.plain + (modes as usize + 1) * counts.looping) as u16
}

impl Work {
    // The most rounds that the lines can take.
    pub(crate) fn most_rounds<C: Chart>(&self, chart: &C) -> u16
        ensures { result ≡ bound (C.Chart.meaning chart.now) (rules_of (state_of self.now).progress) }
    {
        let counts = self.count();
        most_of(chart.modes(), counts)
    }
}
