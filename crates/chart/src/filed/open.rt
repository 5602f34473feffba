// Making the place for a filed chart, and opening a file there.
ghost use Rattle.std.specs.Prelude.{◌≡◌, ℕ, ◌+◌, ◌*◌, ◌<◌, ◌≤◌, map, length, ◌⊎◌, Some, None, Ok, Err, MatchResult, vec_capacity, slice_index};
ghost use Rattle.basis.specs.declared.refusal.Refusal.TheVariants.{Memory};
ghost use Rattle.chart.specs.Filed.{Opened, chart_of};
ghost use Rattle.chart.specs.Files.{answer, degree_at, fault, file_chart, file_row, header_of, row_at, way_of};
ghost use Rattle.chart.specs.Records.{row_of};
ghost use Rattle.ctl.specs.Chart.{idle};
ghost use Rattle.std.specs.List.{range_with_len};

use super::FiledChart;
use super::check::{check, number};
use crate::record::{Header, ModeRecord};
use basis::Refusal;
use std::alloc::Global;

impl FiledChart {
    // A new place means the idle chart.
    pub fn new(heap: Global) -> Result<FiledChart, Refusal>
        ensures { elim result [ Ok c ↦ chart_of c ≡ idle | Err e ↦ e ≡ Memory ] }
    {
        let mut records = Vec::with_capacity(heap, 256)?;
        records.push_reserved(ModeRecord {
            marks: 0,
            degree: 1,
            ways: [0; 8],
        });
        Ok(FiledChart {
            marks: 0,
            width: 1,
            start: 0,
            records,
        })
    }

    // A new place with the file's chart, or the cause to refuse it.
    pub fn from_file(heap: Global, file: &[u8]) -> Result<FiledChart, Refusal>
        ensures { MatchResult result (λ c. (fault file.now ≡ None) × (chart_of c ≡ file_chart file.now)) (λ e. (e ≡ Memory) ⊎ (fault file.now ≡ Some e)) }
    {
        let mut chart = FiledChart::new(heap)?;
        chart.open(file)?;
        Ok(chart)
    }

    // Puts the file's chart here, or tells the first cause to refuse it and leaves the chart that is here.
    pub fn open(&mut self, file: &[u8]) -> Result<(), Refusal>
        ensures told { result ≡ answer (fault file.now) tt }
        ensures place { Opened file.now self.old self.new }
    {
        let header = check(file)?;
        self.read(file, &header);
        Ok(())
    }

    fn read(&mut self, file: &[u8], header: &Header)
        requires { (fault file.now ≡ None) × (header.now ≡ header_of file.now) }
        ensures { chart_of self.new ≡ file_chart file.now }
    {
        read_records(&mut self.records, file, header);
        self.marks = header.marks;
        self.width = header.width;
        self.start = header.start;
    }
}

fn read_ways(file: &[u8], at: usize, degree: u8) -> [u16; 8]
    requires { (at + (4 + 2 * degree) ≤ length file.now) × (degree ≤ 8) }
    ensures { (p : ℕ) → p < degree → slice_index result p ≡ way_of file.now at p }
{
    std::array::from_fn(|place| {
        if place < degree as usize {
            number(file, at + 4 + 2 * place)
        } else {
            0
        }
    })
}

// The record that begins at a byte.
fn read_record(file: &[u8], at: usize) -> ModeRecord
    requires { (at + (4 + 2 * degree_at file.now at) ≤ length file.now) × (degree_at file.now at ≤ 8) }
    ensures { (a : ℕ) → row_of a result ≡ row_at file.now a at }
{
    let degree = file[at + 2];
    ModeRecord {
        marks: number(file, at),
        degree,
        ways: read_ways(file, at, degree),
    }
}

fn read_records(records: &mut Vec<ModeRecord>, file: &[u8], header: &Header)
    requires { (fault file.now ≡ None) × ((header.now ≡ header_of file.now) × (256 ≤ vec_capacity records.old)) }
    ensures rows { map (row_of header.now.marks) records.new.items ≡ map (file_row file.now) (range_with_len 0 header.now.modes) }
    ensures room { 256 ≤ vec_capacity records.new }
{
    records.clear();
    for mode in 0..header.modes {
        records.push_reserved(read_record(file, header.place_of(mode)));
    }
}
