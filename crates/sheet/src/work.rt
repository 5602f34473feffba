// What a sheet or a book has beside its chart.
ghost use Rattle.std.specs.Prelude.{◌≡◌, ◌≤◌, vec_len, vec_capacity};
ghost use Rattle.ctl.specs.Lines.{Distinct, Ordered};
ghost use Rattle.sheet.specs.Used.{rules_in};

use entry::{Scratch, Tally};
use property::postfix::Parts;
use report::Draft;
use rounds::{Line, ModeSet};

// Room for 64 lines and 32 entries, of which some are in use; what lies past the tally is no part of the sheet. The
// places stay when lines go, since all memory is taken when the sheet is made, and the one tally is lent while a text's
// lines are written.
#[derive(Drop)]
pub struct Work {
    pub(crate) lines: Vec<Line>,
    pub(crate) tally: Tally,
    // the line of each entry; a plain vector, whose length is tested before a text's lines are written
    pub(crate) entries: Vec<usize>,
    // the set that a round makes
    pub(crate) next: ModeSet,
    // the parts of the text that is being entered, and what writing its lines needs
    pub(crate) parts: Parts,
    pub(crate) writing: Scratch,
    // what showing a path needs
    pub(crate) showing: witness::Scratch,
    // the report's rows
    pub(crate) draft: Draft,
    ghost rooms: { vec_len lines ≡ 64 },
    ghost few: { tally.lines ≤ 64 },
    ghost listed: { vec_len entries ≤ 32 },
    ghost reserved: { 32 ≤ vec_capacity entries },
    // operands stand before their lines, and no two lines are equal
    ghost ordered: { ∥ Ordered (rules_in tally.lines lines.items) ∥₁ },
    ghost apart: { ∥ Distinct (rules_in tally.lines lines.items) ∥₁ },
}

// Rounds made, and plain and looping lines written, since the sheet was last empty.
#[derive(Clone, Copy, PartialEq, Eq, Debug)]
pub struct Counts {
    pub rounds: usize,
    pub plain: usize,
    pub looping: usize,
}
