// A line of text is a row of pieces and a line end. It is written into a caller's buffer whole or not at all.
// `specs/Lines.antt` says which bytes a line has and what the buffer holds after it.
ghost use Rattle.std.specs.Prelude.{◌≡◌, ◌+◌, ◌<◌, ◌≤◌, ◌++◌, length, drop, IfOk, decimal};
ghost use Rattle.basis.specs.Lines.{line_of, overlaid, representable, spelling, written};

use super::refusal::Refusal;

#[derive(Clone, Copy)]
pub enum Piece<'a> {
    Text(&'a [u8]),
    // in decimal
    Number(usize),
}

// How many bytes the line has, or `None` where no buffer could hold it.
pub fn line_length(pieces: &[Piece<'_>]) -> Option<usize>
    ensures { result ≡ representable (length (line_of pieces.now)) }
{
    let mut total: usize = 1;
    for piece in pieces {
        total = total.checked_add(piece_length(*piece))?;
    }
    Some(total)
}

// Lays the line into `out` from its beginning and answers its length; the rest of `out` stays.
pub fn put_line(out: &mut [u8], pieces: &[Piece<'_>]) -> Result<usize, Refusal>
    ensures answer { result ≡ written (line_of pieces.now) (length out.old) }
    ensures buffer { out.new ≡ overlaid (line_of pieces.now) out.old }
    ensures bound { IfOk result (λ n. n ≤ length out.old) }
{
    let Some(needed) = line_length(pieces) else {
        return Err(Refusal::ShortBuffer(usize::MAX));
    };
    if needed > out.len() {
        return Err(Refusal::ShortBuffer(needed));
    }
    let mut at = 0;
    for piece in pieces {
        at += put_piece(&mut out[at..], *piece);
    }
    out[at] = b'\n';
    Ok(needed)
}

fn piece_length(piece: Piece<'_>) -> usize
    ensures { result ≡ length (spelling piece.entry) }
{
    match piece {
        Piece::Text(text) => text.len(),
        Piece::Number(n) => figure_count(n),
    }
}

// Lays the piece into `out` from its beginning and answers its length.
fn put_piece(out: &mut [u8], piece: Piece<'_>) -> usize
    requires { length (spelling piece) ≤ length out.old }
    ensures count { result ≡ length (spelling piece.entry) }
    ensures buffer { out.new ≡ spelling piece.entry ++ drop (length (spelling piece.entry)) out.old }
{
    match piece {
        Piece::Text(text) => put_text(out, text),
        Piece::Number(n) => put_number(out, n),
    }
}

fn put_text(out: &mut [u8], text: &[u8]) -> usize
    requires { length text.now ≤ length out.old }
    ensures count { result ≡ length text.now }
    ensures buffer { out.new ≡ text.now ++ drop (length text.now) out.old }
{
    out[..text.len()].copy_from_slice(text);
    text.len()
}

// By hand, and not by the library's `itoa`, which fills a buffer of its own that is copied then: of numbers with few
// figures, as nearly all are here, that took two to seven times the time.
fn figure_count(n: usize) -> usize
    ensures { result ≡ length (decimal n) }
{
    let mut count = 1;
    let mut rest = n;
    while rest >= 10 {
        rest /= 10;
        count += 1;
    }
    count
}

// From the units leftward.
fn put_number(out: &mut [u8], n: usize) -> usize
    requires { length (decimal n) ≤ length out.old }
    ensures count { result ≡ length (decimal n) }
    ensures buffer { out.new ≡ decimal n ++ drop (length (decimal n)) out.old }
{
    let count = figure_count(n);
    let mut place = count - 1;
    let mut rest = n;
    while rest >= 10 {
        out[place] = figure(rest % 10);
        rest /= 10;
        place -= 1;
    }
    out[place] = figure(rest);
    count
}

// The byte of a single figure.
fn figure(digit: usize) -> u8
    requires { digit < 10 }
    ensures { result ≡ 48 + digit }
{
    b'0' + digit as u8
}
