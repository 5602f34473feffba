// A second checker, which decides properties by going through the chart's graph, and its comparison with the sheet and
// the book on random charts and texts. It prints its seed, the number of charts, each disagreement, and how many there
// are.
#![tactic(auto)]

mod answers;
mod comparing;
mod deciding;
mod decision;
mod difference;
mod due;
mod files;
mod graph;
mod kind;
mod log;
mod modes;
mod options;
mod paths;
mod random;
mod stop;
mod texts;
mod trials;

use log::Log;
use options::{Options, read_options};
use std::alloc::Global;
use std::io;
use stop::Stop;
use trials::Trials;

// Charts one after another, all from one seed.
fn run_all(heap: Global, options: Options) -> Result<Log, Stop> {
    let mut trials = Trials::new(heap, options.seed);
    for number in 0..options.charts {
        trials.run(number)?;
    }
    let Trials { log, .. } = trials;
    Ok(log)
}

fn print_answers(rt: &HostRuntime, log: &Log) -> io::Result<()> {
    println!(rt;
        "texts {} skipped {} answers {} yes {}",
        log.texts, log.skipped, log.answers, log.yes
    )
}

fn print_counts(rt: &HostRuntime, log: &Log) -> io::Result<()> {
    println!(rt; "told after rounds {} early {}", log.told, log.early)?;
    println!(rt;
        "paths {} returning {} longest {} refused {}",
        log.paths, log.returns, log.longest, log.refused
    )
}

fn print_log(rt: &HostRuntime, log: &Log, tell: bool) -> io::Result<()> {
    for found in &log.first {
        println!(rt; "{found}")?;
    }
    if tell {
        print_answers(rt, log)?;
        print_counts(rt, log)?;
    }
    println!(rt; "disagreements {}", log.disagreements)
}

fn main(rt: HostRuntime) -> io::Result<()> {
    let options = read_options(&rt)?;
    let Options { seed, charts, tell } = options;
    println!(rt; "seed {seed} charts {charts}")?;
    match run_all(rt.alloc(), options) {
        Ok(log) => print_log(&rt, &log, tell),
        Err(stop) => println!(rt; "stopped: {stop}"),
    }
}
