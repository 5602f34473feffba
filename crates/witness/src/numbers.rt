// How many modes the shortest path from each mode has, found by rounds: through modes with the left operand to one with
// the right.
ghost use Rattle.std.specs.Prelude.{◌≡◌, ◌<◌, length, map};
ghost use Rattle.std.specs.List.{range_with_len};
ghost use Rattle.ctl.specs.Chart.{size};
ghost use Rattle.ctl.specs.Paths.{numbered as numbered_at, numbers as shortest};
ghost use Rattle.witness.specs.Criteria.{read_by};

use crate::criterion::Criterion;
use crate::reading::{Operands, Reached};
use crate::scratch::Tables;
use crate::ways::has_way;
use basis::Reserved;
use chart::Chart;

impl<'a, C: Chart> Operands<'a, C> {
    // A mode's number after a round: the number it has, or the round's where the round reaches it. As in the
    // definition, 0 is no number.
    fn number_after(&self, before: &[u16], round: u16, mode: u16) -> u16
        requires few { round < 256 }
        requires there { mode < length before.now }
        ensures { result ≡ numbered_at (C.Chart.meaning self.now.chart.now) (read_by self.now.left) (read_by self.now.right) before.now round mode }
    {
        let number = before[mode as usize];
        if number > 0 {
            return number;
        }
        if self.right.admits(mode)
            || self.left.admits(mode) && has_way(self.chart, &Reached { numbers: before }, mode)
        {
            round + 1
        } else {
            0
        }
    }

    // One round over all modes, each of which has an entry in both tables.
    fn number_round(&self, before: &[u16], round: u16, next: &mut Reserved<u16, 256>)
        requires few { round < 256 }
        requires table { length before.now ≡ size (C.Chart.meaning self.now.chart.now) }
        requires fresh { length next.old ≡ size (C.Chart.meaning self.now.chart.now) }
        ensures { next.new ≡ map (numbered_at (C.Chart.meaning self.now.chart.now) (read_by self.now.left) (read_by self.now.right) before.now round) (range_with_len 0 (size (C.Chart.meaning self.now.chart.now))) }
    {
        for mode in 0..self.chart.modes() {
            next.set(mode as usize, self.number_after(before, round, mode));
        }
    }

    // The numbers after as many rounds as there are modes, which is enough for every path.
    pub(crate) fn find_numbers(&self, tables: &mut Tables)
        ensures { tables.new.numbers ≡ shortest (C.Chart.meaning self.now.chart.now) (read_by self.now.left) (read_by self.now.right) }
    {
        let Tables { numbers, next, .. } = tables;
        let modes = self.chart.modes();
        numbers.fill(modes as usize, 0);
        // every round writes over these, so only how many there are matters
        next.fill(modes as usize, 0);
        for round in 0..modes {
            self.number_round(numbers.as_slice(), round, next);
            std::mem::swap(numbers, next);
        }
    }
}
