// The counter of a length: each mode leads on or back to mode 0, the last only back. Mark 0 stands at the first mode,
// mark 1 at the last.
ghost use Rattle.std.specs.Prelude.{◌≡◌, ◌≤◌, true, false, Ok, Err};
ghost use Rattle.basis.specs.declared.refusal.Refusal.TheVariants.{CounterLength};
ghost use Rattle.chart.specs.Counters.{counter-lawful, counter_fits};
ghost use Rattle.ctl.specs.Chart.{counter};

use super::chart::Chart;
use basis::Refusal;

#[derive(Clone, Copy)]
pub struct CounterChart {
    length: u16,
    ghost bounds: { (1 ≤ length) × (length ≤ 256) },
}

impl CounterChart {
    // Its meaning is the counter of this length.
    pub fn new(length: u16) -> Result<CounterChart, Refusal>
        ensures { elim result [ Ok c ↦ (counter_fits length ≡ true) × (c.length ≡ length) | Err e ↦ (counter_fits length ≡ false) × (e ≡ CounterLength) ] }
    {
        if !(1..=256).contains(&length) {
            return Err(Refusal::CounterLength);
        }
        Ok(CounterChart { length })
    }
}

#[tactic(auto, using(crate::proofs::Counters::questions))]
impl Chart for CounterChart {
    ghost meaning = { λ c. counter c.length };

    ghost lawful = { λ c. counter-lawful c.length c.bounds.0 c.bounds.1 };

    fn modes(&self) -> u16 {
        self.length
    }

    fn marks(&self) -> usize {
        2
    }

    fn width(&self) -> usize {
        2
    }

    fn start(&self) -> u16 {
        0
    }

    fn degree(&self, mode: u16) -> usize {
        if mode >= self.length {
            0
        } else if mode + 1 == self.length {
            1
        } else {
            2
        }
    }

    fn way(&self, mode: u16, place: usize) -> Option<u16> {
        if place >= self.degree(mode) {
            None
        } else if place == 0 && mode < self.length - 1 {
            Some(mode + 1)
        } else {
            Some(0)
        }
    }

    fn stands(&self, mark: usize, mode: u16) -> bool {
        match mark {
            0 => mode == 0,
            1 => mode == self.length - 1,
            _ => false,
        }
    }
}
