// The program's arguments: a seed, a number of charts, and whether to tell how much was compared.
use std::{env, io};

#[derive(Clone, Copy)]
pub(crate) struct Options {
    pub(crate) seed: u32,
    pub(crate) charts: u32,
    pub(crate) tell: bool,
}

// What is absent, or no number, is 1 for a seed and 1000 for the charts.
pub(crate) fn read_options(rt: &HostRuntime) -> io::Result<Options> {
    let mut options = Options {
        seed: 1,
        charts: 1000,
        tell: false,
    };
    for (place, word) in env::args(rt)?.enumerate() {
        match place {
            1 => options.seed = word.as_str().parse().unwrap_or(1),
            2 => options.charts = word.as_str().parse().unwrap_or(1000),
            3 => options.tell = word.as_str() == "tell",
            _ => {}
        }
    }
    Ok(options)
}
