// A report as far as it is drafted.
ghost use Rattle.std.specs.Prelude.{◌+◌, ◌*◌, ◌≤◌, length, vec_len, vec_capacity};
ghost use Rattle.basis.specs.Lines.{spelling};
ghost use Rattle.std.specs.List.{flat_map};

use basis::Piece;

mod calls;

// The pieces of the lines so far, line ends among them, and how many rows stand. There is room for the heading, 32 rows
// and the total, so that only making a draft takes memory. The pieces are a plain vector, since several are put, and
// taken off again, at a time; the rows are told in the report and are no length of theirs.
#[derive(Drop)]
pub struct Draft {
    pieces: Vec<Piece<'static>>,
    rows: usize,
    ghost room: { 267 ≤ vec_capacity pieces },
    ghost few: { rows ≤ 32 },
    ghost within: { vec_len pieces ≤ 7 + 8 * rows },
    ghost short: { length (flat_map spelling pieces.items) ≤ 100 + 100 * rows },
}
