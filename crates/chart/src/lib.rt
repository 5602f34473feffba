// Charts as the checker asks them: the questions of a chart with their answers, and the charts there are, which are
// counters, charts read from a file, pairs of charts, and lent charts.
#![tactic(auto)]

pub mod chart;
pub mod counter;
pub mod filed;
pub mod lent;
pub mod pair;
mod record;
mod side;

pub use chart::Chart;
pub use counter::CounterChart;
pub use filed::FiledChart;
pub use pair::{Pair, fits};
