// Two charts side by side, of which one moves at a time: its ways are the left ways with the right mode kept, then the
// right ways with the left mode kept. Where that is too large for a chart, the pair means the idle chart.
ghost use Rattle.std.specs.Prelude.{◌≡◌, ◌+◌, ◌*◌, ◌/◌, ◌<◌, true};
ghost use Rattle.chart.specs.Pairs.{fitted, mover_at, pair-lawful, sides_at};
ghost use Rattle.ctl.specs.Chart.{fitting, pair, pair_row, size};
ghost use Rattle.std.specs.List.{slice_get};

use super::chart::Chart;
use super::side::Side;
use basis::Refusal;

#[derive(Drop)]
pub struct Pair<L, R> {
    left: L,
    right: R,
}

// Whether the pair of two charts fits the bounds of a chart.
pub fn fits<L: Chart, R: Chart>(left: &L, right: &R) -> Result<(), Refusal>
    ensures { result ≡ fitted (L.Chart.meaning left.now) (R.Chart.meaning right.now) }
{
    if u32::from(left.modes()) * u32::from(right.modes()) > 256 {
        return Err(Refusal::TooManyModes);
    }
    if left.width() + right.width() > 16 {
        return Err(Refusal::TooWide);
    }
    if left.marks() + right.marks() > 16 {
        return Err(Refusal::TooManyMarks);
    }
    Ok(())
}

impl<L: Chart, R: Chart> Pair<L, R> {
    // Its meaning is the pair of the meanings.
    pub fn new(left: L, right: R) -> Pair<L, R>
        ensures { (result.left ≡ left) × (result.right ≡ right) }
    {
        Pair { left, right }
    }

    fn fit(&self) -> bool
        ensures { result ≡ fitting (L.Chart.meaning self.now.left) (R.Chart.meaning self.now.right) }
    {
        fits(&self.left, &self.right).is_ok()
    }

    // The modes of the sides, where the pair has the mode.
    fn sides(&self, mode: u16) -> Option<(u16, u16)>
        ensures { result ≡ sides_at (size (L.Chart.meaning self.now.left)) (size (R.Chart.meaning self.now.right)) mode }
    {
        let modes = self.right.modes();
        let left = mode / modes;
        (left < self.left.modes()).then_some((left, mode % modes))
    }

    // The side that moves, and the place among its own ways.
    fn mover(&self, left: u16, place: usize) -> Side
        ensures { result ≡ mover_at (L.Chart.meaning self.now.left) left place }
    {
        let ways = self.left.degree(left);
        if place < ways {
            Side::Left(place)
        } else {
            Side::Right(place - ways)
        }
    }

    // The pair's mode of two modes.
    fn mode_of(&self, left: u16, right: u16) -> u16
        requires { (fitting (L.Chart.meaning self.now.left) (R.Chart.meaning self.now.right) ≡ true) × ((left < size (L.Chart.meaning self.now.left)) × (right < size (R.Chart.meaning self.now.right))) }
        ensures { result ≡ left * size (R.Chart.meaning self.now.right) + right }
    {
        left * self.right.modes() + right
    }

    fn joined_way(&self, left: u16, right: u16, place: usize) -> Option<u16>
        requires { (fitting (L.Chart.meaning self.now.left) (R.Chart.meaning self.now.right) ≡ true) × ((left < size (L.Chart.meaning self.now.left)) × (right < size (R.Chart.meaning self.now.right))) }
        ensures { result ≡ slice_get (pair_row (L.Chart.meaning self.now.left) (R.Chart.meaning self.now.right) left right).ways place }
    {
        match self.mover(left, place) {
            Side::Left(own) => self.left.way(left, own).map(|way| self.mode_of(way, right)),
            Side::Right(own) => self
                .right
                .way(right, own)
                .map(|way| self.mode_of(left, way)),
        }
    }
}

// Each question tests the fit in an `if` of its own; a function over both cases would hide which answer is which.
impl<L: Chart, R: Chart> Chart for Pair<L, R> {
    ghost meaning = { λ p. pair (L.Chart.meaning p.left) (R.Chart.meaning p.right) };

    ghost lawful = { λ p. pair-lawful _ _ (L.Chart.lawful p.left) (R.Chart.lawful p.right) };

    fn modes(&self) -> u16 {
        if self.fit() {
            self.left.modes() * self.right.modes()
        } else {
            1
        }
    }

    fn marks(&self) -> usize {
        if self.fit() {
            self.left.marks() + self.right.marks()
        } else {
            0
        }
    }

    fn width(&self) -> usize {
        if self.fit() {
            self.left.width() + self.right.width()
        } else {
            1
        }
    }

    fn start(&self) -> u16 {
        if self.fit() {
            self.mode_of(self.left.start(), self.right.start())
        } else {
            0
        }
    }

    fn degree(&self, mode: u16) -> usize {
        if !self.fit() {
            return usize::from(mode == 0);
        }
        self.sides(mode).map_or(0, |(left, right)| {
            self.left.degree(left) + self.right.degree(right)
        })
    }

    fn way(&self, mode: u16, place: usize) -> Option<u16> {
        if !self.fit() {
            return (mode == 0 && place == 0).then_some(0);
        }
        let (left, right) = self.sides(mode)?;
        self.joined_way(left, right, place)
    }

    fn stands(&self, mark: usize, mode: u16) -> bool {
        if !self.fit() {
            return false;
        }
        let Some((left, right)) = self.sides(mode) else {
            return false;
        };
        let marks = self.left.marks();
        if mark < marks {
            self.left.stands(mark, left)
        } else {
            self.right.stands(mark - marks, right)
        }
    }
}
