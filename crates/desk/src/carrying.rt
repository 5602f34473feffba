// Calls carried out on a sheet or a book.
ghost use Rattle.desk.specs.Calls.{finish as finish_is};
ghost use Rattle.desk.specs.Calls.{Call as Told, Event as Noted};
ghost use Rattle.desk.specs.Promise.{LeadsTo, Promise};
ghost use Rattle.desk.specs.Rooms.{room_of};
ghost use Rattle.desk.specs.Steps.{as_book, as_sheet, clean_desk, on_book, on_sheet, step};
ghost use Rattle.desk.specs.Told.{call_of, chart_of, cut_to, event_of, path_in, standing_of, task_of};
ghost use Rattle.sheet.specs.State.{showing, state_of};
ghost use Rattle.std.specs.Prelude.{◌≡◌, List, [], ◌∷◌, ◌++◌, IfOk, vec_len, MatchResult};

use crate::calls::{Call, Event, Path};
use crate::desks::{Desk, Step};
use crate::tasks::Task;
use basis::Refusal;
use chart::Chart;
use sheet::{Book, Sheet};
use std::alloc::{AllocError, Global};
use witness::Shown;

// How many modes a call may show.
fn room_of(call: Call<'_>) -> usize
    ensures { result ≡ room_of call.entry }
{
    match call {
        Call::Show(_, _, room) => room,
        _ => 0,
    }
}

impl<'a> Task<'a> {
    // A call with its memory, or want of memory.
    pub fn new(heap: Global, call: Call<'a>) -> Result<Task<'a>, AllocError>
        ensures { IfOk result (λ t. task_of t ≡ call_of call.entry) }
    {
        let path = vec![in heap; 0; room_of(call)]?;
        Ok(Task { call, path })
    }
}

// The rounds that finishing makes, and the book.
fn finish<'a, C: Chart>(sheet: Sheet<C>) -> Step<'a, C>
    ensures event { event_of result.event ≡ (on_sheet (C.Chart.meaning sheet.chart) (state_of sheet.work) finish_is).event }
    ensures after { standing_of result.desk ≡ (on_sheet (C.Chart.meaning sheet.chart) (state_of sheet.work) finish_is).after }
    ensures chart { chart_of result.desk ≡ sheet.chart }
{
    let before = sheet.count().rounds;
    let book = sheet.finish();
    let rounds = book.count().rounds.saturating_sub(before);
    Step {
        desk: Desk::Book(book),
        event: Event::Finished(rounds),
    }
}

// A path cut to the modes that were shown.
fn cut(answer: Result<Shown, Refusal>, mut path: Vec<u16>) -> Result<Path, Refusal>
    ensures { path_in result ≡ cut_to answer path.items }
{
    answer.map(|shown| {
        path.truncate(shown.modes);
        Path {
            modes: path,
            returns: shown.returns,
        }
    })
}

// A sheet and a book are two types, so each has arms of its own for the calls that both have. Each function below says
// the event, what stands after it, and that the chart is the same; the memory of a call goes with the call.

// A call on a sheet, which has every one but reopening.
fn on_sheet<'a, C: Chart>(mut sheet: Sheet<C>, call: Call<'a>, mut path: Vec<u16>) -> Step<'a, C>
    requires { vec_len path ≡ room_of call }
    ensures event { event_of result.event ≡ (on_sheet (C.Chart.meaning sheet.chart) (state_of sheet.work) (call_of call.entry)).event }
    ensures after { standing_of result.desk ≡ (on_sheet (C.Chart.meaning sheet.chart) (state_of sheet.work) (call_of call.entry)).after }
    ensures chart { chart_of result.desk ≡ sheet.chart }
{
    let event = match call {
        Call::Enter(names, text) => Event::Entered(names, text, sheet.enter(names, text)),
        Call::Advance(budget) => Event::Advanced(budget, sheet.advance(budget)),
        Call::Ask(line, mode) => Event::Asked(line, mode, sheet.ask(line, mode)),
        Call::Count => Event::Counted(sheet.count()),
        Call::Show(line, mode, room) => {
            let shown = sheet.show(line, mode, &mut path);
            return Step {
                desk: Desk::Sheet(sheet),
                event: Event::Shown(line, mode, room, cut(shown, path)),
            };
        }
        Call::Clear => {
            sheet.clear();
            Event::Cleared
        }
        Call::Finish => return finish(sheet),
        Call::Reopen => Event::Barred(call),
    };
    Step {
        desk: Desk::Sheet(sheet),
        event,
    }
}

// A call on a book, which is asked, counted, shown and reopened, and nothing else.
fn on_book<'a, C: Chart>(mut book: Book<C>, call: Call<'a>, mut path: Vec<u16>) -> Step<'a, C>
    requires { vec_len path ≡ room_of call }
    ensures event { event_of result.event ≡ (on_book (C.Chart.meaning book.chart) (state_of book.work) (call_of call.entry)).event }
    ensures after { standing_of result.desk ≡ (on_book (C.Chart.meaning book.chart) (state_of book.work) (call_of call.entry)).after }
    ensures chart { chart_of result.desk ≡ book.chart }
{
    let event = match call {
        Call::Ask(line, mode) => Event::Asked(line, mode, book.ask(line, mode)),
        Call::Count => Event::Counted(book.count()),
        Call::Show(line, mode, room) => {
            let shown = book.show(line, mode, &mut path);
            return Step {
                desk: Desk::Book(book),
                event: Event::Shown(line, mode, room, cut(shown, path)),
            };
        }
        Call::Reopen => {
            return Step {
                desk: Desk::Sheet(book.reopen()),
                event: Event::Reopened,
            };
        }
        Call::Enter(..) | Call::Advance(_) | Call::Clear | Call::Finish => Event::Barred(call),
    };
    Step {
        desk: Desk::Book(book),
        event,
    }
}

// A call on what stands there.
fn on_desk<'a, C: Chart>(desk: Desk<C>, task: Task<'a>) -> Step<'a, C>
    ensures event { event_of result.event ≡ (step (C.Chart.meaning (chart_of desk)) (standing_of desk) (task_of task.entry)).event }
    ensures after { standing_of result.desk ≡ (step (C.Chart.meaning (chart_of desk)) (standing_of desk) (task_of task.entry)).after }
    ensures chart { chart_of result.desk ≡ chart_of desk }
{
    let Task { call, path } = task;
    match desk {
        Desk::Sheet(sheet) => on_sheet(sheet, call, path),
        Desk::Book(book) => on_book(book, call, path),
    }
}

// A sheet without lines on a desk.
fn set_up<C: Chart>(heap: Global, chart: C) -> Result<Desk<C>, C>
    ensures { MatchResult result (λ d. (chart_of d ≡ chart) × (standing_of d ≡ clean_desk)) (λ c. c ≡ chart) }
{
    Sheet::new(heap, chart).map(Desk::Sheet)
}

impl<C: Chart> Desk<C> {
    // A clean desk: a sheet without lines; where there is no memory for it the chart comes back.
    pub fn new(heap: Global, chart: C) -> Result<Desk<C>, C>
        ensures made { MatchResult result (λ d. (chart_of d ≡ chart) × (standing_of d ≡ clean_desk)) (λ c. c ≡ chart) }
        ensures leads { IfOk result (λ d. LeadsTo (C.Chart.meaning (chart_of d)) [] [] (standing_of d)) }
    {
        set_up(heap, chart)
    }

    // Carries out one call. Where the calls before led from a clean desk to this one with a log, the log with this event
    // keeps the whole promise.
    pub fn carry_out<'a>(self, task: Task<'a>) -> Step<'a, C>
        ensures event { event_of result.event ≡ (step (C.Chart.meaning (chart_of self)) (standing_of self) (task_of task.entry)).event }
        ensures after { standing_of result.desk ≡ (step (C.Chart.meaning (chart_of self)) (standing_of self) (task_of task.entry)).after }
        ensures chart { chart_of result.desk ≡ chart_of self }
        ensures leads { (calls : List Told) (log : List Noted) → LeadsTo (C.Chart.meaning (chart_of self)) calls log (standing_of self) → LeadsTo (C.Chart.meaning (chart_of result.desk)) (calls ++ task_of task.entry ∷ []) (log ++ event_of result.event ∷ []) (standing_of result.desk) }
        ensures promise { (calls : List Told) (log : List Noted) → LeadsTo (C.Chart.meaning (chart_of self)) calls log (standing_of self) → Promise (C.Chart.meaning (chart_of self)) (calls ++ task_of task.entry ∷ []) (log ++ event_of result.event ∷ []) (standing_of result.desk) }
    {
        on_desk(self, task)
    }
}
