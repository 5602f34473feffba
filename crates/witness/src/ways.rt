// The first way out of a mode that passes, for which the chart, the question and the mode are asked together.
ghost use Rattle.std.specs.Prelude.{◌≡◌};
ghost use Rattle.std.specs.Option.{unwrap_or};
ghost use Rattle.ctl.specs.Chart.{ways_of, way_at};
ghost use Rattle.ctl.specs.Tests.{any};
ghost use Rattle.ctl.specs.Paths.{first_way};
ghost use Rattle.witness.specs.Criteria.{first_in};

use crate::criterion::Criterion;
use chart::Chart;

// Where the way at a place leads; the mode itself where there is none.
fn way_at<C: Chart>(chart: &C, mode: u16, place: usize) -> u16
    ensures { result ≡ unwrap_or (way_at (C.Chart.meaning chart.now) mode place) mode }
{
    chart.way(mode, place).unwrap_or(mode)
}

// The first way out that passes, if one does.
fn find_way<C: Chart, K: Criterion>(chart: &C, criterion: &K, mode: u16) -> Option<u16>
    ensures { result ≡ first_in (K.Criterion.test criterion.now) (ways_of (C.Chart.meaning chart.now) mode) }
{
    (0..chart.degree(mode))
        .map(|place| way_at(chart, mode, place))
        .find(|x| criterion.admits(*x))
}

// The first way out that passes, or the mode itself where none does.
pub(crate) fn first_way<C: Chart, K: Criterion>(chart: &C, criterion: &K, mode: u16) -> u16
    ensures { result ≡ first_way (C.Chart.meaning chart.now) (K.Criterion.test criterion.now) mode }
{
    find_way(chart, criterion, mode).unwrap_or(mode)
}

// Whether some way out passes.
pub(crate) fn has_way<C: Chart, K: Criterion>(chart: &C, criterion: &K, mode: u16) -> bool
    ensures { result ≡ any (K.Criterion.test criterion.now) (ways_of (C.Chart.meaning chart.now) mode) }
{
    find_way(chart, criterion, mode).is_some()
}
