// The lines of a report as pieces.
ghost use Rattle.basis.specs.Lines.{spelling};
ghost use Rattle.report.specs.Reports.{entry_line, heading_line, total_text, word_of};
ghost use Rattle.std.specs.List.{flat_map};
ghost use Rattle.std.specs.Prelude.{◌≡◌, length};

use basis::Piece;
use ctl::Verdict;

pub(crate) fn heading(modes: usize, marks: usize, start: usize) -> [Piece<'static>; 7]
    ensures spelled { flat_map spelling result ≡ heading_line modes marks start }
    ensures count { length result ≡ 7 }
{
    [
        Piece::Text(b"modes "),
        Piece::Number(modes),
        Piece::Text(b" marks "),
        Piece::Number(marks),
        Piece::Text(b" start "),
        Piece::Number(start),
        Piece::Text(b"\n"),
    ]
}

// The word of an answer in a report. A piece borrows its bytes, which a `Display` could not lend; other formats have
// words of their own, in their own definitions.
pub(crate) fn word(answer: Verdict) -> &'static [u8]
    ensures { result.now ≡ word_of answer }
{
    match answer {
        Verdict::Yes => b"yes",
        Verdict::No => b"no",
        Verdict::Pending => b"pending",
    }
}

pub(crate) fn entry(
    number: usize,
    line: usize,
    answer: Verdict,
    rounds: usize,
) -> [Piece<'static>; 8]
    ensures spelled { flat_map spelling result ≡ entry_line number line answer rounds }
    ensures count { length result ≡ 8 }
{
    [
        Piece::Number(number),
        Piece::Text(b" line "),
        Piece::Number(line),
        Piece::Text(b" "),
        Piece::Text(word(answer)),
        Piece::Text(b" rounds "),
        Piece::Number(rounds),
        Piece::Text(b"\n"),
    ]
}

// Without its line end.
pub(crate) fn total(rounds: usize, most: usize) -> [Piece<'static>; 4]
    ensures spelled { flat_map spelling result ≡ total_text rounds most }
    ensures count { length result ≡ 4 }
{
    [
        Piece::Text(b"total "),
        Piece::Number(rounds),
        Piece::Text(b" of "),
        Piece::Number(most),
    ]
}
