// What standard input asks for.
ghost use Rattle.chartcheck.specs.Output.{calls_for, enter_all};
ghost use Rattle.desk.specs.Told.{call_of};
ghost use Rattle.intake.specs.Lines.{lines_of};
ghost use Rattle.std.specs.Prelude.{◌≡◌, map, IfOk};

use desk::Call;
use intake::lines_of;
use std::alloc::{AllocError, Global};
use std::iter;

// Every text is entered under the names, and then the sheet is finished.
fn enter_all<'a>(
    heap: Global,
    names: &'a [u8],
    texts: &[&'a [u8]],
) -> Result<Vec<Call<'a>>, AllocError>
    ensures { IfOk result (λ v. map call_of v.items ≡ enter_all names.now (map (λ x. x.now) texts.now)) }
{
    texts
        .iter()
        .map(|text| Call::Enter(names, text))
        .chain(iter::once(Call::Finish))
        .collect(heap)
}

// The first line has the names, each other one a text.
pub(crate) fn calls_for<'a>(heap: Global, input: &'a [u8]) -> Result<Vec<Call<'a>>, AllocError>
    ensures { IfOk result (λ v. map call_of v.items ≡ calls_for (lines_of input.now)) }
{
    let lines = lines_of(heap, input)?;
    match lines.split_first() {
        Some((names, texts)) => enter_all(heap, names, texts),
        None => enter_all(heap, input, &[]),
    }
}
