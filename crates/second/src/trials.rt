// A random chart of each kind, and the comparison on it.
use crate::comparing::Comparison;
use crate::files::{Most, Plan, filed};
use crate::graph::Graph;
use crate::kind::{Kind, kind_of};
use crate::log::{Log, Trial};
use crate::random::Random;
use crate::stop::Stop;
use crate::texts::names;
use chart::{Chart, CounterChart, FiledChart, Pair, fits};
use std::alloc::Global;

// Texts for a chart: few and small ones where it is large.
fn trial_of(chart: u32) -> Trial {
    let kind = kind_of(chart);
    let (texts, few) = match kind {
        Kind::Large | Kind::LongCounter => (2, 6),
        Kind::PairPair => (3, 8),
        _ => (4, 14),
    };
    Trial {
        chart,
        kind,
        texts,
        few,
    }
}

// Puts two charts side by side, which has to fit.
fn join<L: Chart + Drop, R: Chart + Drop>(left: L, right: R) -> Result<Pair<L, R>, Stop> {
    fits(&left, &right)?;
    Ok(Pair::new(left, right))
}

// The trials on charts that are drawn one after another.
#[derive(Drop)]
pub(crate) struct Trials {
    heap: Global,
    random: Random,
    pub(crate) log: Log,
}

impl Trials {
    pub(crate) fn new(heap: Global, seed: u32) -> Trials {
        Trials {
            heap,
            random: Random::new(u64::from(seed)),
            log: Log::new(heap),
        }
    }

    fn draw_within(&mut self, most: Most) -> Result<FiledChart, Stop> {
        let plan = Plan::draw(&mut self.random, most);
        filed(self.heap, &mut self.random, plan)
    }

    // A chart that stands alone: mostly with few marks, at times with as many as there can be.
    fn draw_small(&mut self) -> Result<FiledChart, Stop> {
        let most = Most {
            modes: 40,
            marks: if self.random.once_in(8) { 16 } else { 5 },
            width: 8,
        };
        self.draw_within(most)
    }

    // One with as many modes as there can be.
    fn draw_large(&mut self) -> Result<FiledChart, Stop> {
        let most = Most {
            modes: 256,
            marks: 5,
            width: 8,
        };
        let plan = Plan::of(&mut self.random, 256, most);
        filed(self.heap, &mut self.random, plan)
    }

    // A side of a pair.
    fn draw_side(&mut self, modes: u16) -> Result<FiledChart, Stop> {
        let most = Most {
            modes,
            marks: 3,
            width: 5,
        };
        self.draw_within(most)
    }

    fn draw_counter(&mut self, length: u16) -> Result<CounterChart, Stop> {
        let length = self.random.within(1, length.saturating_add(1));
        Ok(CounterChart::new(length)?)
    }

    fn compare<C: Chart>(&mut self, trial: Trial, chart: &C) -> Result<(), Stop> {
        let names = names(self.heap, chart.marks())?;
        let mut comparison = Comparison {
            graph: Graph {
                heap: self.heap,
                chart,
            },
            trial,
            names: names.as_str(),
            log: &mut self.log,
        };
        comparison.compare(&mut self.random)
    }

    // Draws the chart with this number and compares on it.
    pub(crate) fn run(&mut self, number: u32) -> Result<(), Stop> {
        let trial = trial_of(number);
        match trial.kind {
            Kind::Filed => {
                let chart = self.draw_small()?;
                self.compare(trial, &chart)
            }
            Kind::Large => {
                let chart = self.draw_large()?;
                self.compare(trial, &chart)
            }
            Kind::Counter => {
                let chart = self.draw_counter(60)?;
                self.compare(trial, &chart)
            }
            Kind::LongCounter => {
                let chart = self.draw_counter(256)?;
                self.compare(trial, &chart)
            }
            Kind::FiledFiled => {
                let chart = join(self.draw_side(12)?, self.draw_side(8)?)?;
                self.compare(trial, &chart)
            }
            Kind::FiledCounter => {
                let chart = join(self.draw_side(12)?, self.draw_counter(8)?)?;
                self.compare(trial, &chart)
            }
            Kind::CounterCounter => {
                let chart = join(self.draw_counter(10)?, self.draw_counter(10)?)?;
                self.compare(trial, &chart)
            }
            Kind::PairPair => {
                let left = join(self.draw_side(4)?, self.draw_counter(4)?)?;
                let right = join(self.draw_counter(4)?, self.draw_side(4)?)?;
                let chart = join(left, right)?;
                self.compare(trial, &chart)
            }
        }
    }
}
