// A chart read from a file. The place for it is made once, with room for the most records that a file may have, so that
// opening a file takes no memory: one vector and one fact of its room, which a type for such vectors would not shorten.
ghost use Rattle.std.specs.Prelude.{◌≤◌, vec_capacity};
ghost use Rattle.chart.specs.Records.{Bounds, Inside, Rows, meaning_of};

use super::record::ModeRecord;

pub mod answers;
mod check;
mod open;

#[derive(Drop)]
pub struct FiledChart {
    marks: u8,
    width: u8,
    start: u16,
    records: Vec<ModeRecord>,
    ghost bounds: { Bounds (meaning_of marks width start records.items) },
    ghost rows: { Rows (meaning_of marks width start records.items) },
    ghost inside: { Inside (meaning_of marks width start records.items) },
    ghost narrow: { width ≤ 8 },
    ghost room: { 256 ≤ vec_capacity records },
}
