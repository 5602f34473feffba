// The questions of a filed chart.
ghost use Rattle.std.specs.Prelude.{◌≡◌, ◌<◌};
ghost use Rattle.chart.specs.Records.{lawful-from, masked, meaning_of};
ghost use Rattle.chart.specs.Filed.{chart_of};
ghost use Rattle.std.specs.List.{slice_get};
ghost use Rattle.std.specs.Option.{option_map};
ghost use Rattle.ctl.specs.Chart.{ways_of};

use super::FiledChart;
use crate::chart::Chart;
use crate::record::ModeRecord;

// One shift and mask.
fn marked(marks: u16, mark: usize) -> bool
    requires { mark < 16 }
    ensures { result ≡ masked marks mark }
{
    (marks >> mark) & 1 == 1
}

impl FiledChart {
    fn record(&self, mode: u16) -> Option<&ModeRecord>
        ensures { option_map (λ x. x.now) result ≡ slice_get self.now.records.items mode }
    {
        self.records.get(mode as usize)
    }

    // A mode that is not there has no ways.
    fn ways(&self, mode: u16) -> &[u16]
        ensures { result.now ≡ ways_of (chart_of self.now) mode }
    {
        match self.record(mode) {
            Some(record) => record.ways(),
            None => &[],
        }
    }
}

impl Chart for FiledChart {
    ghost meaning = { λ c. meaning_of c.marks c.width c.start c.records.items };

    ghost lawful = { λ c. lawful-from _ c.bounds c.rows c.inside };

    fn modes(&self) -> u16 {
        self.records.len() as u16
    }

    fn marks(&self) -> usize {
        self.marks as usize
    }

    fn width(&self) -> usize {
        self.width as usize
    }

    fn start(&self) -> u16 {
        self.start
    }

    fn degree(&self, mode: u16) -> usize {
        self.ways(mode).len()
    }

    fn way(&self, mode: u16, place: usize) -> Option<u16> {
        self.ways(mode).get(place).copied()
    }

    fn stands(&self, mark: usize, mode: u16) -> bool {
        self.record(mode).is_some_and(|record| mark < self.marks as usize
            && marked(record.marks, mark))
    }
}
