// The report of a book.
ghost use Rattle.std.specs.Prelude.{◌≡◌, ℕ, ◌≤◌, length};
ghost use Rattle.basis.specs.Lines.{answered, overlaid};
ghost use Rattle.ctl.specs.Chart.{size};
ghost use Rattle.report.specs.Drafts.{drafted, standing};
ghost use Rattle.report.specs.Reports.{heading_line, so_far};
ghost use Rattle.rounds.specs.Held.{progress_of};
ghost use Rattle.sheet.specs.Reported.{bytes_of, row_at, rows_of};
ghost use Rattle.sheet.specs.State.{state_of};

use crate::asking::told;
use crate::work::Work;
use basis::Refusal;
use chart::Chart;
use ctl::Verdict;
use report::Draft;
use rounds::Line;

// What the report says of one line: its answer at a mode, and its rounds.
#[derive(Clone, Copy)]
struct Reported {
    answer: Verdict,
    rounds: u16,
}

// Past the last line there is one that holds nowhere.
fn report_line(lines: &[Line], settled: usize, line: usize, mode: u16) -> Reported
    ensures answer { result.answer ≡ (row_at (progress_of lines.now settled) mode line).answer }
    ensures rounds { result.rounds ≡ (row_at (progress_of lines.now settled) mode line).rounds }
{
    match lines.get(line) {
        Some(found) => Reported {
            answer: told(found, line < settled, mode),
            rounds: found.rounds,
        },
        None if line < settled => Reported {
            answer: Verdict::No,
            rounds: 0,
        },
        None => Reported {
            answer: Verdict::Pending,
            rounds: 0,
        },
    }
}

// The heading, and a row for each entry. The draft is written while the lines are read, so it is lent apart from them.
fn draft_rows<C: Chart>(
    draft: &mut Draft,
    chart: &C,
    lines: &[Line],
    settled: usize,
    entries: &[usize],
)
    requires { length entries.now ≤ 32 }
    ensures { drafted draft.new ≡ so_far (size (C.Chart.meaning chart.now)) (C.Chart.meaning chart.now).marks (C.Chart.meaning chart.now).start (rows_of (progress_of lines.now settled) (C.Chart.meaning chart.now).start entries.now) }
{
    let start = chart.start();
    draft.begin(chart.modes() as usize, chart.marks(), start as usize);
    for entry in entries {
        let Reported { answer, rounds } = report_line(lines, settled, *entry, start);
        draft.row(*entry, answer, rounds as usize);
    }
}

impl Work {
    // The lines of the report, laid into a buffer whole or not at all; answers how many bytes they have.
    pub(crate) fn report<C: Chart>(&mut self, chart: &C, out: &mut [u8]) -> Result<usize, Refusal>
        ensures answer { result ≡ answered (bytes_of (C.Chart.meaning chart.now) (state_of self.old)) (length out.old) }
        ensures buffer { out.new ≡ overlaid (bytes_of (C.Chart.meaning chart.now) (state_of self.old)) out.old }
        ensures after { state_of self.new ≡ state_of self.old }
        ensures bound { length (bytes_of (C.Chart.meaning chart.now) (state_of self.old)) ≤ 3400 }
    {
        let counts = self.count();
        let most = self.most_rounds(chart);
        draft_rows(
            &mut self.draft,
            chart,
            &self.lines[..self.tally.lines],
            self.tally.settled,
            &self.entries,
        );
        self.draft.write(counts.rounds, most as usize, out)
    }
}
