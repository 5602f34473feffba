// The modes of a path with a space between them, and the place to which the last one returns, as pieces of a line.
ghost use Rattle.basis.specs.Lines.{spelling};
ghost use Rattle.chartdesk.specs.Wording.{modes_text, path_text, return_text, spaced};
ghost use Rattle.desk.specs.Told.{path_of};
ghost use Rattle.std.specs.List.{flat_map};
ghost use Rattle.std.specs.Prelude.{◌≡◌, ◌++◌, IfOk, decimal, OnOk};

use basis::Piece;
use desk::Path;
use std::alloc::{AllocError, Global};

// Each function below says what it spells behind what stood there.

// A word and a number behind what stands there.
fn push_both<'a>(
    pieces: &mut Vec<Piece<'a>>,
    word: &'a [u8],
    number: usize,
) -> Result<(), AllocError>
    ensures { OnOk result (flat_map spelling pieces.new.items ≡ flat_map spelling pieces.old.items ++ (word.now ++ decimal number)) }
{
    // not as a row of the two, which would be written down first and then copied
    pieces.reserve(2)?;
    pieces.push_reserved(Piece::Text(word));
    pieces.push_reserved(Piece::Number(number));
    Ok(())
}

// Modes behind others.
fn push_modes<'a>(pieces: &mut Vec<Piece<'a>>, modes: &[u16]) -> Result<(), AllocError>
    ensures { OnOk result (flat_map spelling pieces.new.items ≡ flat_map spelling pieces.old.items ++ flat_map spaced modes.now) }
{
    for mode in modes {
        push_both(pieces, b" ", *mode as usize)?;
    }
    Ok(())
}

fn mode_pieces<'a>(heap: Global, modes: &[u16]) -> Result<Vec<Piece<'a>>, AllocError>
    ensures { IfOk result (λ v. flat_map spelling v.items ≡ modes_text modes.now) }
{
    let mut pieces = Vec::new(heap);
    if let Some((first, others)) = modes.split_first() {
        pieces.push(Piece::Number(*first as usize))?;
        push_modes(&mut pieces, others)?;
    }
    Ok(pieces)
}

// The place to which the last mode returns.
fn push_return<'a>(pieces: &mut Vec<Piece<'a>>, returns: Option<usize>) -> Result<(), AllocError>
    ensures { OnOk result (flat_map spelling pieces.new.items ≡ flat_map spelling pieces.old.items ++ return_text returns) }
{
    match returns {
        Some(place) => push_both(pieces, b" returns to ", place),
        None => Ok(()),
    }
}

pub(crate) fn path_pieces<'a>(heap: Global, path: &Path) -> Result<Vec<Piece<'a>>, AllocError>
    ensures { IfOk result (λ v. flat_map spelling v.items ≡ path_text (path_of path.now)) }
{
    let mut pieces = mode_pieces(heap, &path.modes)?;
    push_return(&mut pieces, path.returns)?;
    Ok(pieces)
}
