// A lent chart is a chart with the same meaning.
use super::chart::Chart;

impl<'a, C: Chart> Chart for &'a C {
    ghost meaning = { λ c. C.Chart.meaning c.now };

    ghost lawful = { λ c. C.Chart.lawful c.now };

    fn modes(&self) -> u16 {
        (**self).modes()
    }

    fn marks(&self) -> usize {
        (**self).marks()
    }

    fn width(&self) -> usize {
        (**self).width()
    }

    fn start(&self) -> u16 {
        (**self).start()
    }

    fn degree(&self, mode: u16) -> usize {
        (**self).degree(mode)
    }

    fn way(&self, mode: u16, place: usize) -> Option<u16> {
        (**self).way(mode, place)
    }

    fn stands(&self, mark: usize, mode: u16) -> bool {
        (**self).stands(mark, mode)
    }
}
