// The two walks: down the numbers, and by the first way out that keeps an answer.
ghost use Rattle.std.specs.Prelude.{◌≡◌, ◌+◌, ◌<◌, ◌≤◌, [], ◌++◌, length, slice_index};
ghost use Rattle.ctl.specs.Chart.{size};
ghost use Rattle.ctl.specs.Paths.{descent, staying};
ghost use Rattle.witness.specs.Path.{path_on, placed_at, traced};
ghost use Rattle.witness.specs.Criteria.{read_by, both_read};

use crate::criterion::{Criterion, number_of};
use crate::laying::add;
use crate::reading::{Numbered, Operands, Reading};
use crate::ways::first_way;
use basis::{Reserved, Stack};
use chart::Chart;

// Goes on by the first way out whose number is one less, as many modes as the number says.
pub(crate) fn descend<C: Chart>(chart: &C, numbers: &[u16], mode: u16, path: &mut Stack<'_, u16>)
    requires { path.old.count + slice_index numbers.now mode ≤ length path.old.slots.now }
    ensures holds { path_on path.new ≡ path_on path.old ++ descent (C.Chart.meaning chart.now) numbers.now (slice_index numbers.now mode) mode }
    ensures lender { path.new.slots.ghost_name ≡ path.old.slots.ghost_name }
{
    let mut at = mode;
    for number in (0..number_of(numbers, mode)).rev() {
        add(path, at);
        at = first_way(chart, &Numbered { numbers, number }, at);
    }
}

// The place where a mode was passed, if it was. A mode that the chart does not have leads nowhere but to itself, so
// it is where the walk began.
fn passed(places: &[Option<u16>], mode: u16) -> Option<u16>
    ensures { result ≡ placed_at places.now mode }
{
    places.get(mode as usize).copied().unwrap_or(Some(0))
}

impl<'a, C: Chart> Operands<'a, C> {
    // Whether both operands have the answer.
    fn closes(&self, mode: u16) -> bool
        ensures { result ≡ both_read self.now.left self.now.right mode }
    {
        self.left.admits(mode) && self.right.admits(mode)
    }

    // Goes on by the first way out with the answer, until both operands have it or a mode comes again: its place then.
    pub(crate) fn stay(
        &self,
        inside: Reading<'_>,
        mode: u16,
        places: &mut Reserved<Option<u16>, 256>,
        path: &mut Stack<'_, u16>,
    ) -> Option<usize>
        requires empty { path_on path.old ≡ [] }
        requires none { path.old.count ≡ 0 }
        requires room { 257 ≤ length path.old.slots.now }
        ensures path { traced path.new result ≡ staying (C.Chart.meaning self.now.chart.now) (both_read self.now.left self.now.right) (read_by inside.entry) (size (C.Chart.meaning self.now.chart.now)) [] mode }
        ensures lender { path.new.slots.ghost_name ≡ path.old.slots.ghost_name }
    {
        let modes = self.chart.modes();
        places.fill(modes as usize, None);
        let mut at = mode;
        for step in 0..modes {
            add(path, at);
            if self.closes(at) {
                return None;
            }
            places.set(at as usize, Some(step));
            let next = first_way(self.chart, &inside, at);
            if let Some(place) = passed(places.as_slice(), next) {
                return Some(place as usize);
            }
            at = next;
        }
        add(path, at);
        None
    }
}
