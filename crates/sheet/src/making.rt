// Memory for a sheet is taken once, when it is made.
ghost use Rattle.sheet.specs.State.{emptied, state_of};
ghost use Rattle.std.specs.Prelude.{◌≡◌, IfOk, vec_len};

use crate::work::Work;
use basis::Refusal;
use entry::{Scratch, Tally};
use property::postfix::Parts;
use report::Draft;
use rounds::{Line, ModeSet};
use std::alloc::Global;

// 64 places for lines. A loop, since `try_collect` was tried and left open how many it collects.
fn blank_lines(heap: Global) -> Result<Vec<Line>, Refusal>
    ensures { IfOk result (λ v. vec_len v ≡ 64) }
{
    let mut lines = Vec::with_capacity(heap, 64)?;
    for _ in 0..64u8 {
        lines.push_reserved(Line::new(heap)?);
    }
    Ok(lines)
}

impl Work {
    // A sheet without lines, or want of memory.
    pub(crate) fn new(heap: Global) -> Result<Work, Refusal>
        ensures { IfOk result (λ w. state_of w ≡ emptied) }
    {
        let lines = blank_lines(heap)?;
        let entries = Vec::with_capacity(heap, 32)?;
        let next = ModeSet::new(heap)?;
        let parts = Parts::new(heap)?;
        let writing = Scratch::new(heap)?;
        let showing = witness::Scratch::new(heap)?;
        let draft = Draft::new(heap)?;
        let tally = Tally {
            lines: 0,
            settled: 0,
        };
        Ok(Work {
            lines,
            tally,
            entries,
            next,
            parts,
            writing,
            showing,
            draft,
        })
    }
}
