// Showing the path that bears out an answer.
ghost use Rattle.basis.specs.Lines.{overlaid};
ghost use Rattle.sheet.specs.State.{modes_of, showing, state_of, told};
ghost use Rattle.std.specs.Prelude.{◌≡◌, length, nat_le};

use crate::work::Work;
use basis::Refusal;
use chart::Chart;
use witness::Shown;

// Whether a line still waits for rounds: the first so many lines are settled.
fn is_waiting(line: usize, settled: usize) -> bool
    ensures { result ≡ nat_le settled line }
{
    line >= settled
}

impl Work {
    // Lays the path for a settled line's answer at a mode into a buffer from its beginning and leaves the rest; answers
    // how many modes it has, and the place to which the last one returns.
    pub(crate) fn show<C: Chart>(
        &mut self,
        chart: &C,
        line: usize,
        mode: u16,
        path: &mut [u16],
    ) -> Result<Shown, Refusal>
        ensures answer { result ≡ told (showing (C.Chart.meaning chart.now) (state_of self.old) line mode (length path.old)) }
        ensures buffer { path.new ≡ overlaid (modes_of (showing (C.Chart.meaning chart.now) (state_of self.old) line mode (length path.old))) path.old }
        ensures after { state_of self.new ≡ state_of self.old }
    {
        self.check(chart, line, mode)?;
        if is_waiting(line, self.tally.settled) {
            return Err(Refusal::NotSettled);
        }
        witness::show(
            chart,
            &self.lines[..self.tally.lines],
            line,
            mode,
            &mut self.showing,
            path,
        )
    }
}
