// The side of a pair that moves along a way, and the place of the way among that side's own ways. Neither side is the
// other's failure or absence.
#[derive(Clone, Copy)]
pub enum Side {
    Left(usize),
    Right(usize),
}
