// Going through the graph of a chart: the path of fewest modes to a set of modes, and whether there is a circle.
ghost use Rattle.std.specs.Prelude.{◌≤◌};
ghost use Rattle.second.specs.Absent.{absent};

use crate::modes::Modes;
use chart::Chart;
use std::alloc::{AllocError, Global};
use std::collections::VecDeque;

// A chart's graph, and where going through it takes its memory.
#[derive_where(Clone, Copy)]
pub(crate) struct Graph<'a, C> {
    pub(crate) heap: Global,
    pub(crate) chart: &'a C,
}

// A mode that was reached, and how many modes its path has.
#[derive(Clone, Copy)]
struct Reached {
    mode: u16,
    modes: usize,
}

// A search breadth first: the modes that were reached, and those of them that were not gone on from.
#[derive(Drop)]
struct Search {
    seen: Modes,
    queue: VecDeque<Reached>,
}

impl Search {
    // Puts a mode at the end of the queue, but for one that was in it.
    fn reach(&mut self, mode: u16, modes: usize) -> Result<(), AllocError> {
        if self.seen.insert(mode) {
            self.queue.push_back(Reached { mode, modes })?;
        }
        Ok(())
    }

    // Reaches the modes one way on.
    fn follow<C: Chart>(&mut self, chart: &C, here: Reached) -> Result<(), AllocError> {
        for place in 0..chart.degree(here.mode) {
            if let Some(mode) = chart.way(here.mode, place) {
                self.reach(mode, here.modes.saturating_add(1))?;
            }
        }
        Ok(())
    }
}

// A search depth first inside a set of modes: the modes on the way down, and all that were come to.
#[derive(Drop)]
struct Descent<'a> {
    through: &'a Modes,
    path: Modes,
    seen: Modes,
}

impl Descent<'_> {
    // Whether going on from a mode closes a circle.
    fn closes<C: Chart>(&mut self, chart: &C, mode: u16) -> bool
        ensures { absent self.new.seen.held.items ≤ absent self.old.seen.held.items }
    {
        if self.path.has(mode) {
            return true;
        }
        if !self.through.has(mode) || !self.seen.insert(mode) {
            return false;
        }
        self.path.insert(mode);
        for place in 0..chart.degree(mode) {
            if let Some(next) = chart.way(mode, place) {
                if self.closes(chart, next) {
                    return true;
                }
            }
        }
        self.path.remove(mode);
        false
    }
}

impl<C: Chart> Graph<'_, C> {
    // Whether some way out of a mode leads to one that is wanted.
    pub(crate) fn leads<F: Fn(u16) -> bool>(&self, mode: u16, is_wanted: F) -> bool
        requires { F.IsAlwaysCallable is_wanted }
    {
        (0..self.chart.degree(mode)).any(|place| self
            .chart
            .way(mode, place)
            .is_some_and(|next| is_wanted(next)))
    }

    // How many modes a path from a mode to the target has at the fewest, if there is one: all its modes but the last
    // are in `through`. No mode is reached twice.
    pub(crate) fn fewest(
        &self,
        through: &Modes,
        target: &Modes,
        mode: u16,
    ) -> Result<Option<usize>, AllocError> {
        let mut search = Search {
            seen: Modes::uniform(self.heap, self.chart.modes(), false)?,
            queue: VecDeque::new(self.heap),
        };
        search.reach(mode, 1)?;
        // a `while let` would need a proof that the queue runs empty; these turns are enough
        for _ in 0..self.chart.modes() {
            let Some(here) = search.queue.pop_front() else {
                break;
            };
            if target.has(here.mode) {
                return Ok(Some(here.modes));
            }
            if through.has(here.mode) {
                search.follow(self.chart, here)?;
            }
        }
        Ok(None)
    }

    // Whether a circle inside `through` can be come to from a mode inside `through`.
    pub(crate) fn circles(&self, through: &Modes, mode: u16) -> Result<bool, AllocError> {
        let mut descent = Descent {
            through,
            path: Modes::uniform(self.heap, self.chart.modes(), false)?,
            seen: Modes::uniform(self.heap, self.chart.modes(), false)?,
        };
        Ok(descent.closes(self.chart, mode))
    }
}
