// Drafting a report, and writing it.
ghost use Rattle.std.specs.Prelude.{◌≡◌, ◌+◌, ◌≤◌, [], ◌++◌, length, Ok, Err, vec_len, vec_capacity};
ghost use Rattle.basis.specs.Lines.{answered, overlaid};
ghost use Rattle.basis.specs.declared.refusal.Refusal.TheVariants.{Memory};
ghost use Rattle.report.specs.Drafts.{drafted, standing};
ghost use Rattle.report.specs.Reports.{counted, heading_line, rowed, total_line};

use super::Draft;
use crate::parts::{entry, heading, total};
use basis::{Piece, Refusal, put_line};
use ctl::Verdict;
use std::alloc::Global;

impl Draft {
    // An empty draft, or want of memory.
    pub fn new(heap: Global) -> Result<Draft, Refusal>
        ensures { elim result [ Ok d ↦ (drafted d ≡ []) × (standing d ≡ 0) | Err e ↦ e ≡ Memory ] }
    {
        let pieces = Vec::with_capacity(heap, 267)?;
        Ok(Draft { pieces, rows: 0 })
    }

    // Empties the draft and puts the heading.
    pub fn begin(&mut self, modes: usize, marks: usize, start: usize)
        ensures text { drafted self.new ≡ heading_line modes marks start }
        ensures count { standing self.new ≡ 0 }
    {
        self.pieces.clear();
        append(&mut self.pieces, &heading(modes, marks, start));
        self.rows = 0;
    }

    // One row more, numbered by how many stand already. A 33rd is left out.
    pub fn row(&mut self, line: usize, answer: Verdict, rounds: usize)
        ensures text { drafted self.new ≡ rowed (standing self.old) (drafted self.old) line answer rounds }
        ensures count { standing self.new ≡ counted (standing self.old) }
    {
        if self.rows < 32 {
            append(&mut self.pieces, &entry(self.rows, line, answer, rounds));
            self.rows += 1;
        }
    }

    // Lays the draft with the total below it into `out` from its beginning and answers its length; the rest of `out`
    // stays, and the draft does. No draft has more than 3,400 bytes with its total.
    pub fn write(&mut self, rounds: usize, most: usize, out: &mut [u8]) -> Result<usize, Refusal>
        ensures answer { result ≡ answered (drafted self.old ++ total_line rounds most) (length out.old) }
        ensures buffer { out.new ≡ overlaid (drafted self.old ++ total_line rounds most) out.old }
        ensures text { drafted self.new ≡ drafted self.old }
        ensures count { standing self.new ≡ standing self.old }
        ensures bound { length (drafted self.old ++ total_line rounds most) ≤ 3400 }
    {
        let before = self.pieces.len();
        append(&mut self.pieces, &total(rounds, most));
        let answer = put_line(out, &self.pieces);
        self.pieces.truncate(before);
        answer
    }
}

// The pieces have their room, and it stays as it is: the library's call for it promises only that it does not shrink.
fn append(pieces: &mut Vec<Piece<'static>>, more: &[Piece<'static>])
    requires { vec_len pieces.old + length more.now ≤ vec_capacity pieces.old }
    ensures items { pieces.new.items ≡ pieces.old.items ++ more.now }
    ensures len { vec_len pieces.new ≡ vec_len pieces.old + length more.now }
    ensures capacity { vec_capacity pieces.new ≡ vec_capacity pieces.old }
{
    for piece in more {
        pieces.push_reserved(*piece);
    }
}
