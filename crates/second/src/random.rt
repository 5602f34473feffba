// Random numbers from a seed, the same in every run.
ghost use Rattle.std.specs.Prelude.{◌<◌, ◌≤◌};

#[derive(Drop)]
pub(crate) struct Random {
    state: u64,
}

impl Random {
    // The state is never 0, from which no other number would come.
    pub(crate) fn new(seed: u64) -> Random {
        Random {
            state: seed.wrapping_mul(0x9E37_79B9_7F4A_7C15) | 1,
        }
    }

    // Three shifts and a product.
    fn next(&mut self) -> u64 {
        let mut x = self.state;
        x ^= x >> 12;
        x ^= x << 25;
        x ^= x >> 27;
        self.state = x;
        x.wrapping_mul(0x2545_F491_4F6C_DD1D)
    }

    // A number below a bound; 0 where the bound is 0.
    pub(crate) fn below(&mut self, bound: u16) -> u16
        ensures { 0 < bound → result < bound }
    {
        if bound == 0 {
            return 0;
        }
        ((self.next() >> 33) % u64::from(bound)) as u16
    }

    // A number from the first one on and below the end; the first where there is none.
    pub(crate) fn within(&mut self, first: u16, end: u16) -> u16
        ensures low { first ≤ result }
        ensures high { first < end → result < end }
    {
        if end <= first {
            return first;
        }
        first + self.below(end - first)
    }

    // True once in so many times.
    pub(crate) fn once_in(&mut self, times: u16) -> bool {
        self.below(times) == 0
    }

    // Sixteen random bits.
    pub(crate) fn bits(&mut self) -> u16 {
        ((self.next() >> 40) & 0xFFFF) as u16
    }
}
