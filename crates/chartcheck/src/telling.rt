// What the program prints.
ghost use Rattle.std.specs.Prelude.{◌≡◌, ◌≤◌, ◌⊎◌, map, length, IfOk, IsOk, Some, None, MatchResult};
ghost use Rattle.basis.specs.Lines.{answered, overlaid};
ghost use Rattle.basis.specs.declared.refusal.Refusal.TheVariants.{Memory};
ghost use Rattle.chart.specs.Files.{fault};
ghost use Rattle.chart.specs.Filed.{chart_of as meaning_of};
ghost use Rattle.chartcheck.specs.Output.{LaidOrMemory, first_refusal, output_of, refusal_in, report_in};
ghost use Rattle.chartcheck.specs.Told.{told_of};
ghost use Rattle.desk.specs.Told.{chart_of, event_of, standing_of};

use crate::calls::calls_for;
use basis::Refusal;
use chart::FiledChart;
use desk::{Desk, Event, Session, perform};
use std::alloc::Global;

// The refusal of a text.
fn refusal_of(event: &Event<'_>) -> Option<Refusal>
    ensures { result ≡ refusal_in (event_of event.now) }
{
    match event {
        Event::Entered(_, _, Err(refusal)) => Some(*refusal),
        _ => None,
    }
}

// The refusal of the first text that was refused.
fn first_refusal(log: &[Event<'_>]) -> Option<Refusal>
    ensures { result ≡ first_refusal (map event_of log.now) }
{
    log.iter().find_map(refusal_of)
}

// The report of a book; a sheet has none. A buffer of 3,400 bytes holds every report.
fn put_report(desk: Desk<FiledChart>, out: &mut [u8]) -> Result<usize, Refusal>
    ensures whole { 3400 ≤ length out.old → IsOk result }
    ensures answer { result ≡ answered (report_in (meaning_of (chart_of desk)) (standing_of desk)) (length out.old) }
    ensures buffer { out.new ≡ overlaid (report_in (meaning_of (chart_of desk)) (standing_of desk)) out.old }
{
    match desk {
        Desk::Book(mut book) => book.report(out),
        Desk::Sheet(_sheet) => Ok(0),
    }
}

// The line of the first refused text, or else the report.
fn put_answer(session: Session<'_, FiledChart>, out: &mut [u8]) -> Result<usize, Refusal>
    ensures answer { result ≡ answered (told_of session.entry) (length out.old) }
    ensures buffer { out.new ≡ overlaid (told_of session.entry) out.old }
{
    let Session { log, desk } = session;
    match first_refusal(&log) {
        Some(refusal) => refusal.write_line(out),
        None => put_report(desk, out),
    }
}

// What stands on the desk after all calls, or why there is nothing.
fn carry_out<'a>(
    heap: Global,
    file: &[u8],
    input: &'a [u8],
) -> Result<Session<'a, FiledChart>, Refusal>
    ensures { MatchResult result (λ s. output_of file.now input.now ≡ told_of s) (λ e. (e ≡ Memory) ⊎ (fault file.now ≡ Some e)) }
{
    let chart = FiledChart::from_file(heap, file)?;
    let calls = calls_for(heap, input)?;
    perform(heap, chart, &calls).map_err(|_| Refusal::Memory)
}

// Lays what is to be printed into `out`.
pub(crate) fn tell(
    heap: Global,
    file: &[u8],
    input: &[u8],
    out: &mut [u8],
) -> Result<usize, Refusal>
    ensures output { LaidOrMemory (output_of file.now input.now) out.old out.new result }
    ensures bound { IfOk result (λ n. n ≤ length out.old) }
{
    match carry_out(heap, file, input) {
        Ok(session) => put_answer(session, out),
        Err(refusal) => refusal.write_line(out),
    }
}
