// The line that answers a call: `line 6` of an entered text, `rounds 5` of advancing and finishing, `yes`, `no` or
// `pending` of asking, `rounds 5 plain 5 looping 2` of counting, the modes of a path as `0 1 2` or `1 returns to 0`,
// `cleared`, `reopened`, the refusal's line, or that the sheet or the book does not have the call.
// A line is laid into a buffer whole and its length answered, or not at all. `specs/Wording.antt` has its bytes.
ghost use Rattle.basis.specs.Lines.{line_of, overlaid, refusal_line, spelling};
ghost use Rattle.chartdesk.specs.Turns.{AnsweredOrMemory, LaidOrMemory};
ghost use Rattle.chartdesk.specs.Wording.{answer_of, asked_line, barred_text, counted_text, ended, entered_line, placed, shown_line};
ghost use Rattle.desk.specs.Told.{call_of, event_of, path_in, path_of};
ghost use Rattle.std.specs.List.{flat_map};
ghost use Rattle.std.specs.Prelude.{◌≡◌, ◌++◌, length, decimal};

use crate::path::path_pieces;
use basis::{Piece, Refusal, put_line};
use ctl::Verdict;
use desk::{Call, Event, Path};
use sheet::Counts;
use std::alloc::Global;

// Each function below lays one kind of answer: its two clauses say which, for what is answered and for the buffer.

pub(crate) fn put_pieces(pieces: &[Piece<'_>], out: &mut [u8]) -> Option<usize>
    ensures answer { result ≡ placed (line_of pieces.now) (length out.old) }
    ensures buffer { out.new ≡ overlaid (line_of pieces.now) out.old }
{
    put_line(out, pieces).ok()
}

pub(crate) fn put_refusal(refusal: Refusal, out: &mut [u8]) -> Option<usize>
    ensures answer { result ≡ placed (refusal_line refusal) (length out.old) }
    ensures buffer { out.new ≡ overlaid (refusal_line refusal) out.old }
{
    refusal.write_line(out).ok()
}

pub(crate) fn put_text(text: &[u8], out: &mut [u8]) -> Option<usize>
    ensures answer { result ≡ placed (ended text.now) (length out.old) }
    ensures buffer { out.new ≡ overlaid (ended text.now) out.old }
{
    put_pieces(&[Piece::Text(text)], out)
}

fn put_number(name: &[u8], number: usize, out: &mut [u8]) -> Option<usize>
    ensures answer { result ≡ placed (ended (name.now ++ decimal number)) (length out.old) }
    ensures buffer { out.new ≡ overlaid (ended (name.now ++ decimal number)) out.old }
{
    put_pieces(&[Piece::Text(name), Piece::Number(number)], out)
}

fn put_entered(answer: Result<usize, Refusal>, out: &mut [u8]) -> Option<usize>
    ensures answer { result ≡ placed (entered_line answer) (length out.old) }
    ensures buffer { out.new ≡ overlaid (entered_line answer) out.old }
{
    match answer {
        Ok(line) => put_number(b"line ", line, out),
        Err(refusal) => put_refusal(refusal, out),
    }
}

fn put_asked(answer: Result<Verdict, Refusal>, out: &mut [u8]) -> Option<usize>
    ensures answer { result ≡ placed (asked_line answer) (length out.old) }
    ensures buffer { out.new ≡ overlaid (asked_line answer) out.old }
{
    match answer {
        Ok(Verdict::Yes) => put_text(b"yes", out),
        Ok(Verdict::No) => put_text(b"no", out),
        Ok(Verdict::Pending) => put_text(b"pending", out),
        Err(refusal) => put_refusal(refusal, out),
    }
}

fn count_pieces(counts: Counts) -> [Piece<'static>; 6]
    ensures { flat_map spelling result ≡ counted_text counts }
{
    [
        Piece::Text(b"rounds "),
        Piece::Number(counts.rounds),
        Piece::Text(b" plain "),
        Piece::Number(counts.plain),
        Piece::Text(b" looping "),
        Piece::Number(counts.looping),
    ]
}

fn put_counts(counts: Counts, out: &mut [u8]) -> Option<usize>
    ensures answer { result ≡ placed (ended (counted_text counts)) (length out.old) }
    ensures buffer { out.new ≡ overlaid (ended (counted_text counts)) out.old }
{
    put_pieces(&count_pieces(counts), out)
}

// A sheet has every call but reopening.
fn put_barred(call: Call<'_>, out: &mut [u8]) -> Option<usize>
    ensures answer { result ≡ placed (ended (barred_text (call_of call.entry))) (length out.old) }
    ensures buffer { out.new ≡ overlaid (ended (barred_text (call_of call.entry))) out.old }
{
    match call {
        Call::Reopen => put_text(b"not on a sheet", out),
        _ => put_text(b"not in a book", out),
    }
}

fn put_shown(heap: Global, answer: &Result<Path, Refusal>, out: &mut [u8]) -> Option<usize>
    ensures { LaidOrMemory (shown_line (path_in answer.now)) out.old out.new result }
{
    match answer {
        Ok(path) => match path_pieces(heap, path) {
            Ok(pieces) => put_pieces(&pieces, out),
            Err(_) => put_refusal(Refusal::Memory, out),
        },
        Err(refusal) => put_refusal(*refusal, out),
    }
}

pub(crate) fn put_answer(heap: Global, event: &Event<'_>, out: &mut [u8]) -> Option<usize>
    ensures { AnsweredOrMemory (event_of event.now) out.old out.new result }
{
    match event {
        Event::Entered(_, _, answer) => put_entered(*answer, out),
        Event::Advanced(_, rounds) => put_number(b"rounds ", *rounds as usize, out),
        Event::Asked(_, _, answer) => put_asked(*answer, out),
        Event::Counted(counts) => put_counts(*counts, out),
        Event::Shown(_, _, _, answer) => put_shown(heap, answer, out),
        Event::Cleared => put_text(b"cleared", out),
        Event::Finished(rounds) => put_number(b"rounds ", *rounds, out),
        Event::Reopened => put_text(b"reopened", out),
        Event::Barred(call) => put_barred(*call, out),
    }
}
