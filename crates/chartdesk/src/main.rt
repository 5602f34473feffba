// The program for fitters: it opens the chart file of its folder, takes the names from the first line of standard input
// and one call from each further line, and prints each with its answer before it reads the next.
#![tactic(auto)]

ghost use Rattle.basis.specs.declared.refusal.Refusal.TheVariants.{Memory};
ghost use Rattle.chart.specs.Filed.{chart_of as meaning_of};
ghost use Rattle.chart.specs.Files.{fault, file_chart};
ghost use Rattle.desk.specs.Steps.{clean_desk};
ghost use Rattle.desk.specs.Told.{chart_of, standing_of};
ghost use Rattle.std.specs.Prelude.{◌≡◌, ◌⊎◌, Some, None, MatchResult};

use chart::FiledChart;
use desk::Desk;
use intake::read_chart_file;
use std::io;

mod answer;
mod command;
mod path;
mod serving;

use basis::Refusal;
use serving::serve;
use std::alloc::Global;

// One byte more than the longest chart file has, which lies in an array, so that reading it takes no memory.
const FILE_BYTES: usize = 5133;

// A clean desk on the chart of a file, or why there is none.
fn open(heap: Global, file: &[u8]) -> Result<Desk<FiledChart>, Refusal>
    ensures { MatchResult result (λ d. (fault file.now ≡ None) × ((meaning_of (chart_of d) ≡ file_chart file.now) × (standing_of d ≡ clean_desk))) (λ e. (e ≡ Memory) ⊎ (fault file.now ≡ Some e)) }
{
    let chart = FiledChart::from_file(heap, file)?;
    Desk::new(heap, chart).map_err(|_| Refusal::Memory)
}

fn main(rt: HostRuntime) -> io::Result<()> {
    let mut file = [0; FILE_BYTES];
    let file = read_chart_file(&rt, &mut file)?;
    match open(rt.alloc(), file) {
        Ok(desk) => serve(&rt, desk),
        Err(refusal) => println!(rt; "{refusal}"),
    }
}
