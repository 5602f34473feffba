// A chart is a finite Kripke structure with ordered successors: modes are its states, ways its transitions, marks its
// atomic propositions. Every question answers what the chart's meaning holds, and out of range 0 ways, no way, not
// standing.
ghost use Rattle.ctl.specs.Chart.{Lawful, Meaning, size, way_at};
ghost use Rattle.ctl.specs.Chart.{degree as degree_at, stands as stands_at};
ghost use Rattle.std.specs.Prelude.{◌≡◌};

pub trait Chart {
    ghost meaning: { Self → Meaning };

    // within the bounds of every chart
    ghost lawful: { (c : Self) → Lawful (meaning c) };

    fn modes(&self) -> u16
        ensures { result ≡ size (meaning self.now) };

    fn marks(&self) -> usize
        ensures { result ≡ (meaning self.now).marks };

    // the most ways that may leave a mode
    fn width(&self) -> usize
        ensures { result ≡ (meaning self.now).width };

    fn start(&self) -> u16
        ensures { result ≡ (meaning self.now).start };

    // how many ways leave the mode
    fn degree(&self, mode: u16) -> usize
        ensures { result ≡ degree_at (meaning self.now) mode };

    // where the way at this place leads
    fn way(&self, mode: u16, place: usize) -> Option<u16>
        ensures { result ≡ way_at (meaning self.now) mode place };

    fn stands(&self, mark: usize, mode: u16) -> bool
        ensures { result ≡ stands_at (meaning self.now) mark mode };
}
