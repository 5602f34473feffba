// The calls of a book.
ghost use Rattle.std.specs.Prelude.{◌≡◌, ◌+◌, ◌*◌, ◌≤◌, length};
ghost use Rattle.ctl.specs.Chart.{size};
ghost use Rattle.ctl.specs.Laws.{Sound, line_property};
ghost use Rattle.ctl.specs.Runs.{Holds};
ghost use Rattle.sheet.specs.Promises.{Shows, Told};
ghost use Rattle.sheet.specs.Reported.{bytes_of};
ghost use Rattle.sheet.specs.State.{asked, counted_up, modes_of, showing, state_of, told};
ghost use Rattle.basis.specs.Lines.{answered, overlaid};

use crate::states::{Book, Sheet};
use crate::work::Counts;
use basis::Refusal;
use chart::Chart;
use ctl::Verdict;
use witness::Shown;

impl<C: Chart> Book<C> {
    // Yes, no or pending of a line at a mode.
    pub fn ask(&self, line: usize, mode: u16) -> Result<Verdict, Refusal>
        ensures answer { result ≡ asked (C.Chart.meaning self.now.chart) (state_of self.now.work) line mode }
        ensures holds { Sound (C.Chart.meaning self.now.chart) (state_of self.now.work).progress → Told result (Holds (C.Chart.meaning self.now.chart) (line_property (state_of self.now.work).progress line) mode) }
    {
        self.work.ask(&self.chart, line, mode)
    }

    // Rounds made and lines written since the sheet was last empty.
    pub fn count(&self) -> Counts
        ensures answer { result ≡ counted_up (state_of self.now.work) }
        ensures bounded { Sound (C.Chart.meaning self.now.chart) (state_of self.now.work).progress → result.rounds ≤ result.plain + (size (C.Chart.meaning self.now.chart) + 1) * result.looping }
    {
        self.work.count()
    }

    // Lays the path that bears out a settled line's answer at a mode into a buffer from its beginning; answers how many
    // modes it has, and the place to which the last one returns.
    pub fn show(&mut self, line: usize, mode: u16, path: &mut [u16]) -> Result<Shown, Refusal>
        ensures answer { result ≡ told (showing (C.Chart.meaning self.old.chart) (state_of self.old.work) line mode (length path.old)) }
        ensures buffer { path.new ≡ overlaid (modes_of (showing (C.Chart.meaning self.old.chart) (state_of self.old.work) line mode (length path.old))) path.old }
        ensures after { state_of self.new.work ≡ state_of self.old.work }
        ensures chart { self.new.chart ≡ self.old.chart }
        ensures borne { Sound (C.Chart.meaning self.old.chart) (state_of self.old.work).progress → Shows (C.Chart.meaning self.old.chart) (state_of self.old.work).progress line mode result path.new }
    {
        self.work.show(&self.chart, line, mode, path)
    }

    // The report, laid into a buffer whole or not at all; answers how many bytes it has, which are at most 3,400.
    pub fn report(&mut self, out: &mut [u8]) -> Result<usize, Refusal>
        ensures answer { result ≡ answered (bytes_of (C.Chart.meaning self.old.chart) (state_of self.old.work)) (length out.old) }
        ensures buffer { out.new ≡ overlaid (bytes_of (C.Chart.meaning self.old.chart) (state_of self.old.work)) out.old }
        ensures after { state_of self.new.work ≡ state_of self.old.work }
        ensures chart { self.new.chart ≡ self.old.chart }
        ensures bound { length (bytes_of (C.Chart.meaning self.old.chart) (state_of self.old.work)) ≤ 3400 }
    {
        self.work.report(&self.chart, out)
    }

    // The sheet again, with all that it had.
    pub fn reopen(self) -> Sheet<C>
        ensures chart { result.chart ≡ self.chart }
        ensures work { result.work ≡ self.work }
    {
        let Book { chart, work } = self;
        Sheet { chart, work }
    }
}
