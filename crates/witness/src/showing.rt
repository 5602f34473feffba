// The path for a line's answer at a mode, into a caller's buffer.
ghost use Rattle.std.specs.Prelude.{◌≡◌, ◌≤◌, [], length};
ghost use Rattle.basis.specs.Lines.{overlaid};
ghost use Rattle.ctl.specs.Rounds.{line_at};
ghost use Rattle.ctl.specs.Paths.{reads, shown};
ghost use Rattle.rounds.specs.Held.{progress_of};
ghost use Rattle.witness.specs.Criteria.{read_by};
ghost use Rattle.witness.specs.Path.{path_on, traced};
ghost use Rattle.witness.specs.Shapes.{plan_of, shown_for};
ghost use Rattle.witness.specs.Showing.{showing, told};

use crate::laying::{add, deliver};
use crate::plan::{Asked, Plan};
use crate::reading::{Operands, Reading};
use crate::scratch::{Scratch, Shown, Tables};
use crate::shape::plan_for;
use crate::walks::descend;
use crate::ways::first_way;
use basis::{Refusal, Stack};
use chart::Chart;
use ctl::Rule;
use rounds::Line;
use rounds::engine::members;
use rounds::set::is_member;

// The rule of a line; past the last line one that holds nowhere.
fn rule_at(lines: &[Line], line: usize) -> Rule
    ensures { result ≡ (line_at (progress_of lines.now 0) line).rule }
{
    lines
        .get(line)
        .map_or(Rule::Constant(false), |found| found.rule)
}

impl<'a> Asked<'a> {
    // A line read for the answer.
    fn read(&self, line: usize) -> Reading<'a>
        ensures set { result.set.now ≡ (line_at (progress_of self.now.lines.now 0) line).members }
        ensures answer { result.answer ≡ self.now.answer }
    {
        Reading {
            set: members(self.lines, line),
            answer: self.answer,
        }
    }

    // Both operands read for the answer, with the chart that they are asked on.
    fn operands<C: Chart>(&self, chart: &'a C, left: usize, right: usize) -> Operands<'a, C>
        ensures chart { result.chart.now ≡ chart.now }
        ensures left { read_by result.left ≡ reads self.now.answer (line_at (progress_of self.now.lines.now 0) left).members }
        ensures right { read_by result.right ≡ reads self.now.answer (line_at (progress_of self.now.lines.now 0) right).members }
    {
        Operands {
            chart,
            left: self.read(left),
            right: self.read(right),
        }
    }
}

// Puts the path of a plan on an empty stack; answers the place to which it returns.
fn trace<C: Chart>(
    chart: &C,
    asked: Asked<'_>,
    plan: Plan,
    tables: &mut Tables,
    path: &mut Stack<'_, u16>,
) -> Option<usize>
    requires empty { path_on path.old ≡ [] }
    requires none { path.old.count ≡ 0 }
    requires room { 257 ≤ length path.old.slots.now }
    ensures path { traced path.new result ≡ shown_for (C.Chart.meaning chart.now) asked.entry (plan_of plan) }
    ensures lender { path.new.slots.ghost_name ≡ path.old.slots.ghost_name }
{
    let mode = asked.mode;
    match plan {
        Plan::Step(p) => {
            add(path, mode);
            add(path, first_way(chart, &asked.read(p), mode));
            None
        }
        Plan::Reach(p, q) => {
            asked.operands(chart, p, q).find_numbers(tables);
            descend(chart, tables.numbers.as_slice(), mode, path);
            None
        }
        Plan::Stay(p, q) => {
            let inside = asked.read(asked.line);
            asked
                .operands(chart, p, q)
                .stay(inside, mode, &mut tables.places, path)
        }
    }
}

// Lays the path of a plan into a buffer, by way of a stack over the slots.
fn lay_out<C: Chart>(
    chart: &C,
    asked: Asked<'_>,
    plan: Plan,
    tables: &mut Tables,
    slots: &mut [u16],
    out: &mut [u16],
) -> Result<Shown, Refusal>
    requires { 257 ≤ length slots.old }
    ensures answer { result ≡ told (shown_for (C.Chart.meaning chart.now) asked.entry (plan_of plan)) (length out.old) }
    ensures buffer { out.new ≡ overlaid (shown_for (C.Chart.meaning chart.now) asked.entry (plan_of plan)).modes out.old }
{
    let mut path = Stack::new(slots);
    let returns = trace(chart, asked, plan, tables, &mut path);
    deliver(&mut path, returns, out)
}

// The path that bears out what a settled line answers at a mode, laid into a buffer from its beginning: how many modes
// it has, and the place to which the last one returns. The rest of the buffer stays, and all of it where it is too
// short or no path bears the answer out.
pub fn show<C: Chart>(
    chart: &C,
    lines: &[Line],
    line: usize,
    mode: u16,
    scratch: &mut Scratch,
    path: &mut [u16],
) -> Result<Shown, Refusal>
    ensures answer { result ≡ showing (C.Chart.meaning chart.now) (progress_of lines.now 0) line mode (length path.old) }
    ensures buffer { path.new ≡ overlaid (shown (C.Chart.meaning chart.now) (progress_of lines.now 0) line mode).modes path.old }
{
    let answer = is_member(members(lines, line), mode);
    let Some(plan) = plan_for(rule_at(lines, line), answer) else {
        return Err(Refusal::NoSuchPath);
    };
    let asked = Asked {
        lines,
        line,
        mode,
        answer,
    };
    lay_out(
        chart,
        asked,
        plan,
        &mut scratch.tables,
        &mut scratch.slots,
        path,
    )
}
