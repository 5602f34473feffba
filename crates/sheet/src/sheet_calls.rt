// The calls of a sheet.
ghost use Rattle.std.specs.Prelude.{◌≡◌, ◌+◌, ◌*◌, ◌≤◌, length, IfOk, MatchResult};
ghost use Rattle.ctl.specs.Chart.{size};
ghost use Rattle.ctl.specs.Laws.{Sound, line_property};
ghost use Rattle.ctl.specs.Rounds.{made};
ghost use Rattle.ctl.specs.Runs.{Holds};
ghost use Rattle.property.specs.Reading.{reading};
ghost use Rattle.sheet.specs.Promises.{Accepted, AllTold, Shows, Told};
ghost use Rattle.sheet.specs.State.{advanced, asked, counted_up, emptied, entered, finished, modes_of, showing, state_of, told};
ghost use Rattle.basis.specs.Lines.{overlaid};

use crate::states::{Book, Sheet};
use crate::work::{Counts, Work};
use basis::Refusal;
use chart::Chart;
use ctl::Verdict;
use std::alloc::Global;
use witness::Shown;

impl<C: Chart> Sheet<C> {
    // A sheet without lines; all memory that it will ever need is taken here, and where there is none the chart comes back.
    pub fn new(heap: Global, chart: C) -> Result<Sheet<C>, C>
        ensures made { MatchResult result (λ s. (s.chart ≡ chart) × (state_of s.work ≡ emptied)) (λ c. c ≡ chart) }
        ensures sound { IfOk result (λ s. Sound (C.Chart.meaning s.chart) (state_of s.work).progress) }
    {
        let Ok(work) = Work::new(heap) else {
            return Err(chart);
        };
        Ok(Sheet { chart, work })
    }

    // Writes the lines of a text's normal form and answers its own line, or refuses and leaves all as it was.
    pub fn enter(&mut self, names: &[u8], text: &[u8]) -> Result<usize, Refusal>
        ensures answer { result ≡ (entered (C.Chart.meaning self.old.chart) (state_of self.old.work) names.now text.now).answer }
        ensures after { state_of self.new.work ≡ (entered (C.Chart.meaning self.old.chart) (state_of self.old.work) names.now text.now).after }
        ensures chart { self.new.chart ≡ self.old.chart }
        ensures sound { Sound (C.Chart.meaning self.old.chart) (state_of self.old.work).progress → Sound (C.Chart.meaning self.new.chart) (state_of self.new.work).progress }
        ensures written { Sound (C.Chart.meaning self.old.chart) (state_of self.old.work).progress → Accepted (C.Chart.meaning self.new.chart) (state_of self.new.work).progress (reading names.now (C.Chart.meaning self.old.chart).marks text.now) result }
    {
        self.work.enter(&self.chart, names, text)
    }

    // Rounds within a budget, each on the first line that is not settled; answers how many were made.
    pub fn advance(&mut self, budget: u16) -> u16
        ensures answer { result ≡ made (C.Chart.meaning self.old.chart) budget (state_of self.old.work).progress }
        ensures after { state_of self.new.work ≡ advanced (C.Chart.meaning self.old.chart) budget (state_of self.old.work) }
        ensures chart { self.new.chart ≡ self.old.chart }
        ensures sound { Sound (C.Chart.meaning self.old.chart) (state_of self.old.work).progress → Sound (C.Chart.meaning self.new.chart) (state_of self.new.work).progress }
    {
        self.work.advance(&self.chart, budget)
    }

    // Yes, no or pending of a line at a mode.
    pub fn ask(&self, line: usize, mode: u16) -> Result<Verdict, Refusal>
        ensures answer { result ≡ asked (C.Chart.meaning self.now.chart) (state_of self.now.work) line mode }
        ensures holds { Sound (C.Chart.meaning self.now.chart) (state_of self.now.work).progress → Told result (Holds (C.Chart.meaning self.now.chart) (line_property (state_of self.now.work).progress line) mode) }
    {
        self.work.ask(&self.chart, line, mode)
    }

    // Rounds made and lines written since the sheet was last empty.
    pub fn count(&self) -> Counts
        ensures answer { result ≡ counted_up (state_of self.now.work) }
        ensures bounded { Sound (C.Chart.meaning self.now.chart) (state_of self.now.work).progress → result.rounds ≤ result.plain + (size (C.Chart.meaning self.now.chart) + 1) * result.looping }
    {
        self.work.count()
    }

    // Lays the path that bears out a settled line's answer at a mode into a buffer from its beginning; answers how many
    // modes it has, and the place to which the last one returns.
    pub fn show(&mut self, line: usize, mode: u16, path: &mut [u16]) -> Result<Shown, Refusal>
        ensures answer { result ≡ told (showing (C.Chart.meaning self.old.chart) (state_of self.old.work) line mode (length path.old)) }
        ensures buffer { path.new ≡ overlaid (modes_of (showing (C.Chart.meaning self.old.chart) (state_of self.old.work) line mode (length path.old))) path.old }
        ensures after { state_of self.new.work ≡ state_of self.old.work }
        ensures chart { self.new.chart ≡ self.old.chart }
        ensures borne { Sound (C.Chart.meaning self.old.chart) (state_of self.old.work).progress → Shows (C.Chart.meaning self.old.chart) (state_of self.old.work).progress line mode result path.new }
    {
        self.work.show(&self.chart, line, mode, path)
    }

    // Removes lines, entries and rounds; the chart stays.
    pub fn clear(&mut self)
        ensures after { state_of self.new.work ≡ emptied }
        ensures chart { self.new.chart ≡ self.old.chart }
        ensures sound { Sound (C.Chart.meaning self.new.chart) (state_of self.new.work).progress }
    {
        self.work.clear();
    }

    // Makes rounds until every line is settled, and turns the sheet into a book.
    pub fn finish(self) -> Book<C>
        ensures after { state_of result.work ≡ finished (C.Chart.meaning self.chart) (state_of self.work) }
        ensures chart { result.chart ≡ self.chart }
        ensures sound { Sound (C.Chart.meaning self.chart) (state_of self.work).progress → Sound (C.Chart.meaning result.chart) (state_of result.work).progress }
        ensures settled { Sound (C.Chart.meaning self.chart) (state_of self.work).progress → AllTold (state_of result.work).progress }
    {
        let Sheet { chart, mut work } = self;
        let budget = work.most_rounds(&chart);
        let _ = work.advance(&chart, budget);
        Book { chart, work }
    }
}
