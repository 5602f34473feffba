// Any succession of calls, from a clean desk.
ghost use Rattle.std.specs.Prelude.{◌≡◌, ◌+◌, ◌<◌, ◌≤◌, [], ◌∷◌, ◌++◌, map, IfOk, vec_len, vec_capacity, MatchResult};
ghost use Rattle.desk.specs.Promise.{LeadsTo, Promise};
ghost use Rattle.desk.specs.Steps.{performed_from};
ghost use Rattle.desk.specs.Told.{call_of, chart_of, event_of, standing_of, task_of};

use crate::calls::{Call, Event};
use crate::desks::{Desk, Session, Step};
use crate::tasks::Task;
use chart::Chart;
use std::alloc::{AllocError, Global};

// Every call with its memory. A loop, since `try_collect` was tried and left open what it collects.
fn prepare<'a>(heap: Global, calls: &[Call<'a>]) -> Result<Vec<Task<'a>>, AllocError>
    ensures { IfOk result (λ v. map task_of v.items ≡ map call_of calls.now) }
{
    let mut tasks = Vec::with_capacity(heap, calls.len())?;
    for call in calls {
        tasks.push_reserved(Task::new(heap, *call)?);
    }
    Ok(tasks)
}

// One event more in the log, whose room is reserved and stays as it is.
fn note<'a>(log: &mut Vec<Event<'a>>, event: Event<'a>)
    requires { vec_len log.old < vec_capacity log.old }
    ensures items { log.new.items ≡ log.old.items ++ event.entry ∷ [] }
    ensures len { vec_len log.new ≡ vec_len log.old + 1 }
    ensures capacity { vec_capacity log.new ≡ vec_capacity log.old }
{
    log.push_reserved(event);
}

// The calls one after another, each with its event in the log.
fn run<'a, C: Chart>(
    mut desk: Desk<C>,
    tasks: Vec<Task<'a>>,
    mut log: Vec<Event<'a>>,
) -> Session<'a, C>
    requires empty { vec_len log ≡ 0 }
    requires room { vec_len tasks ≤ vec_capacity log }
    ensures log { map event_of result.log.items ≡ (performed_from (C.Chart.meaning (chart_of desk)) (standing_of desk) (map task_of tasks.entry.items)).log }
    ensures last { standing_of result.desk ≡ (performed_from (C.Chart.meaning (chart_of desk)) (standing_of desk) (map task_of tasks.entry.items)).last }
    ensures chart { chart_of result.desk ≡ chart_of desk }
{
    for task in tasks {
        let Step { desk: next, event } = desk.carry_out(task);
        desk = next;
        note(&mut log, event);
    }
    Session { log, desk }
}

// A sheet on the chart, and on it every call in order: the log of what was answered, and what stands there in the end.
// All memory is taken before the first call; where there is not enough, nothing is done and the chart comes back.
pub fn perform<'a, C: Chart>(
    heap: Global,
    chart: C,
    calls: &[Call<'a>],
) -> Result<Session<'a, C>, C>
    ensures promise { MatchResult result (λ s. Promise (C.Chart.meaning chart) (map call_of calls.now) (map event_of s.log.items) (standing_of s.desk)) (λ c. c ≡ chart) }
    ensures leads { IfOk result (λ s. LeadsTo (C.Chart.meaning chart) (map call_of calls.now) (map event_of s.log.items) (standing_of s.desk)) }
    ensures chart { IfOk result (λ s. chart_of s.desk ≡ chart) }
{
    let Ok(tasks) = prepare(heap, calls) else {
        return Err(chart);
    };
    let Ok(log) = Vec::with_capacity(heap, tasks.len()) else {
        return Err(chart);
    };
    let desk = Desk::new(heap, chart)?;
    Ok(run(desk, tasks, log))
}
