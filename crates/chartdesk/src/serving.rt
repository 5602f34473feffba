// One line after another: each is carried out and answered before the next is read. `specs/Turns.antt` says what a line
// does.
ghost use Rattle.chart.specs.Filed.{chart_of as meaning_of};
ghost use Rattle.chartdesk.specs.Commands.{call as said, command_of, report as report_said, said_by, text_of};
ghost use Rattle.chartdesk.specs.Layouts.{is_below};
ghost use Rattle.chartdesk.specs.Turns.{Done, DoneOrMemory, LeadsOn, outcome_for};
ghost use Rattle.desk.specs.Told.{call_of, chart_of, standing_of};
ghost use Rattle.std.specs.Prelude.{◌≡◌, Some};

use crate::answer::{put_answer, put_refusal, put_text};
use crate::command::{Command, parse};
use basis::Refusal;
use chart::FiledChart;
use desk::{Call, Desk, Step, Task};
use std::alloc::Global;
use std::io;
use std::io::{BufRead, Write};

// More than the longest answer has, which is a report of 32 entries; an array, so that answering takes no memory.
const OUT_BYTES: usize = 4096;

// Where an answer is printed: behind its line, or in lines of its own below it.
#[derive(Clone, Copy)]
enum Layout {
    Behind,
    Below,
}

// The desk after a line, how many bytes of the answer were laid into the buffer, and where these are printed.
#[derive(Drop)]
struct Turn {
    desk: Desk<FiledChart>,
    told: Option<usize>,
    layout: Layout,
}

// The functions below hand the desk on by value, so each has to say that its chart is the same.

// Carries out a call; where there is no memory for it the desk stays.
fn carry(heap: Global, desk: Desk<FiledChart>, call: Call<'_>, out: &mut [u8]) -> Turn
    ensures done { DoneOrMemory (outcome_for (meaning_of (chart_of desk)) (standing_of desk) (Some (said (call_of call.entry)))) (standing_of desk) out.old out.new (standing_of result.desk) result.told (is_below result.layout) }
    ensures chart { chart_of result.desk ≡ chart_of desk }
{
    match Task::new(heap, call) {
        Ok(task) => {
            let Step { desk, event } = desk.carry_out(task);
            let told = put_answer(heap, &event, out);
            Turn {
                desk,
                told,
                layout: Layout::Behind,
            }
        }
        Err(_) => Turn {
            desk,
            told: put_refusal(Refusal::Memory, out),
            layout: Layout::Behind,
        },
    }
}

// The report of a book; a sheet has none.
fn report(desk: Desk<FiledChart>, out: &mut [u8]) -> Turn
    ensures done { Done (outcome_for (meaning_of (chart_of desk)) (standing_of desk) (Some report_said)) out.old out.new (standing_of result.desk) result.told (is_below result.layout) }
    ensures chart { chart_of result.desk ≡ chart_of desk }
{
    match desk {
        Desk::Book(mut book) => {
            let told = book.report(out).ok();
            Turn {
                desk: Desk::Book(book),
                told,
                layout: Layout::Below,
            }
        }
        Desk::Sheet(sheet) => Turn {
            desk: Desk::Sheet(sheet),
            told: put_text(b"not on a sheet", out),
            layout: Layout::Behind,
        },
    }
}

// Carries out a call, or reports.
fn obey(heap: Global, desk: Desk<FiledChart>, command: Command<'_>, out: &mut [u8]) -> Turn
    ensures done { DoneOrMemory (outcome_for (meaning_of (chart_of desk)) (standing_of desk) (Some (said_by command.entry))) (standing_of desk) out.old out.new (standing_of result.desk) result.told (is_below result.layout) }
    ensures chart { chart_of result.desk ≡ chart_of desk }
{
    match command {
        Command::Carry(call) => carry(heap, desk, call, out),
        Command::Report => report(desk, out),
    }
}

// What a line asks for is done, and its answer laid into the buffer.
fn answer<'a>(
    heap: Global,
    desk: Desk<FiledChart>,
    names: &'a [u8],
    line: &'a [u8],
    out: &mut [u8],
) -> Turn
    ensures done { DoneOrMemory (outcome_for (meaning_of (chart_of desk)) (standing_of desk) (command_of names.now line.now)) (standing_of desk) out.old out.new (standing_of result.desk) result.told (is_below result.layout) }
    ensures chart { chart_of result.desk ≡ chart_of desk }
    ensures leads { LeadsOn (meaning_of (chart_of desk)) (command_of names.now line.now) (standing_of desk) (standing_of result.desk) }
{
    match parse(names, line) {
        Some(command) => obey(heap, desk, command, out),
        None => Turn {
            desk,
            told: put_text(b"unreadable", out),
            layout: Layout::Behind,
        },
    }
}

// A line without the line end that it may have.
fn text_of(line: &[u8]) -> &[u8]
    ensures { result.now ≡ text_of line.now }
{
    line.strip_suffix(b"\n").unwrap_or(line)
}

// The line, and its answer behind it or in lines of its own below it.
fn print(rt: &HostRuntime, line: &[u8], layout: Layout, answer: &[u8]) -> io::Result<()> {
    let mut stdout = rt.stdout();
    stdout.write_all(line)?;
    stdout.write_all(match layout {
        Layout::Behind => b": ",
        Layout::Below => b":\n",
    })?;
    stdout.write_all(answer)
}

// Carries out a line and prints its answer; the desk after it. It becomes part of the loop of `serve`, since the desk goes
// through by value, and a call would copy it.
#[inline(always)]
fn exchange<'a>(
    rt: &HostRuntime,
    desk: Desk<FiledChart>,
    names: &'a [u8],
    line: &'a [u8],
    out: &mut [u8],
) -> io::Result<Desk<FiledChart>> {
    let Turn { desk, told, layout } = answer(rt.alloc(), desk, names, line, out);
    if let Some(end) = told {
        print(rt, line, layout, &out[..end])?;
    }
    Ok(desk)
}

// Reads lines until the input ends: the names, and then one call a line, all calls into one vector.
pub(crate) fn serve(rt: &HostRuntime, mut desk: Desk<FiledChart>) -> io::Result<()> {
    let mut input = rt.stdin().lock();
    let mut names = Vec::new(rt.alloc());
    let mut line = Vec::new(rt.alloc());
    let mut out = [0; OUT_BYTES];
    input.read_until(b'\n', &mut names)?;
    // counted, so that it is seen to end: no input has so many lines
    for _ in 0..u64::MAX {
        line.clear();
        if input.read_until(b'\n', &mut line)? == 0 {
            break;
        }
        desk = exchange(rt, desk, text_of(&names), text_of(&line), &mut out)?;
    }
    Ok(())
}
