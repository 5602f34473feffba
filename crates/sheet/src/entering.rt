// Entering a text.
ghost use Rattle.sheet.specs.State.{entered, state_of};
ghost use Rattle.std.specs.Prelude.{◌≡◌};

use crate::work::Work;
use basis::Refusal;
use chart::Chart;
use entry::write_lines;
use property::reading::read;

impl Work {
    // Writes the lines of a text's normal form and answers its own line, or refuses and leaves all as it was.
    pub(crate) fn enter<C: Chart>(
        &mut self,
        chart: &C,
        names: &[u8],
        text: &[u8],
    ) -> Result<usize, Refusal>
        ensures answer { result ≡ (entered (C.Chart.meaning chart.now) (state_of self.old) names.now text.now).answer }
        ensures after { state_of self.new ≡ (entered (C.Chart.meaning chart.now) (state_of self.old) names.now text.now).after }
    {
        read(names, chart.marks(), text, &mut self.parts)?;
        if self.entries.len() >= 32 {
            return Err(Refusal::SheetFull);
        }
        let line = write_lines(
            chart,
            self.parts.as_slice(),
            &mut self.lines,
            &mut self.tally,
            &mut self.writing,
        )?;
        self.entries.push_reserved(line);
        Ok(line)
    }
}
