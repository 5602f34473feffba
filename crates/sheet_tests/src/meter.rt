// The example meter: modes 0 vacant, 1 hired, 2 paying, each with a mark of its own; ways 0 to 0 and 1, 1 to 1 and 2,
// 2 to 0.
use basis::Refusal;
use chart::FiledChart;
use ctl::Verdict;
use sheet::{Book, Counts, Sheet};
use std::alloc::Global;
use std::process::Abort;
use std::test::Fail;
use witness::Shown;

const METER: &[u8] =
    b"MCH\x00\x01\x00\x03\x03\x02\x00\x00\x00\x00\x01\x02\x00\x00\x00\x00\x01\x00\x02\x02\x00\x00\x01\x00\x02\x00\x04\x01\x00\x00\x00\xFF\xFF";

const NAMES: &[u8] = b"vacant,hired,paying";

// Lines 0 to 6: nowhere, not hired, everywhere, paying, 4 until, 5 or, 6 release.
const CAN_PAY: &[u8] = b"AG(!hired|EFpaying)";

// Three lines more: 7 until, 8 or, 9 release.
const WILL_PAY: &[u8] = b"AG(!hired|AFpaying)";

fn blank(heap: Global) -> Result<Sheet<FiledChart>, Fail> {
    let mut chart = FiledChart::new(heap)?;
    chart.open(METER)?;
    Sheet::new(heap, chart).map_err(|_| Fail::new("no memory"))
}

fn finished(rt: &impl Abort, heap: Global) -> Result<Book<FiledChart>, Fail> {
    let mut sheet = blank(heap)?;
    assert_eq!(rt; sheet.enter(NAMES, CAN_PAY), Ok(6));
    assert_eq!(rt; sheet.enter(NAMES, WILL_PAY), Ok(9));
    Ok(sheet.finish())
}

// Line 4 takes four rounds, every other line to 6 takes one; a refused text and a later one change no answer.
#[test]
fn answers_come_early(rt: HostRuntime) -> Result<(), Fail> {
    let mut sheet = blank(rt.alloc())?;
    assert_eq!(rt; sheet.enter(NAMES, CAN_PAY), Ok(6));
    assert_eq!(rt; sheet.advance(5), 5);
    assert_eq!(rt; sheet.ask(4, 2), Ok(Verdict::Yes));
    assert_eq!(rt; sheet.ask(4, 1), Ok(Verdict::Pending));
    let shown = sheet.show(4, 2, &mut [0; 3]);
    assert_eq!(rt; shown, Err(Refusal::NotSettled));
    assert_eq!(rt; sheet.advance(65535), 5);
    assert_eq!(rt; sheet.ask(6, 0), Ok(Verdict::Yes));
    let refused = sheet.enter(NAMES, b"(vacant&EXabsent)");
    assert_eq!(rt; refused, Err(Refusal::UnknownName(10)));
    assert_eq!(rt; sheet.ask(7, 0), Err(Refusal::NoSuchLine));
    assert_eq!(rt; sheet.enter(NAMES, WILL_PAY), Ok(9));
    assert_eq!(rt; sheet.ask(9, 0), Ok(Verdict::Pending));
    let counts = Counts {
        rounds: 10,
        plain: 6,
        looping: 4,
    };
    assert_eq!(rt; sheet.count(), counts);
    Ok(())
}

// A line feed begins no token.
#[test]
fn a_line_feed_is_no_token(rt: HostRuntime) -> Result<(), Fail> {
    let mut sheet = blank(rt.alloc())?;
    assert_eq!(rt; sheet.enter(NAMES, b"\n"), Err(Refusal::NoToken(0)));
    Ok(())
}

// A line, a mode, how many modes are shown, where the last one returns, and three nines after it.
const PATHS: [(usize, u16, usize, Option<usize>, [u16; 3]); 3] = [
    (9, 0, 2, None, [0, 1, 9]),
    (7, 1, 1, Some(0), [1, 9, 9]),
    (4, 0, 3, None, [0, 1, 2]),
];

#[test]
fn a_book_tells_and_shows(rt: HostRuntime) -> Result<(), Fail> {
    let mut book = finished(&rt, rt.alloc())?;
    assert_eq!(rt; book.ask(6, 0), Ok(Verdict::Yes));
    assert_eq!(rt; book.ask(9, 0), Ok(Verdict::No));
    for (line, mode, modes, returns, after) in PATHS {
        let mut path = [9; 3];
        let answer = book.show(line, mode, &mut path);
        assert_eq!(rt; answer, Ok(Shown { modes, returns }));
        assert!(rt; path == after);
    }
    Ok(())
}

const REPORT: &[u8] =
    b"modes 3 marks 3 start 0\n0 line 6 yes rounds 1\n1 line 9 no rounds 4\ntotal 17 of 22\n";

#[test]
fn a_book_is_reported(rt: HostRuntime) -> Result<(), Fail> {
    let mut book = finished(&rt, rt.alloc())?;
    let mut short = [7; 81];
    assert_eq!(rt; book.report(&mut short), Err(Refusal::ShortBuffer(82)));
    assert!(rt; short == [7; 81]);
    let mut out = [7; 90];
    assert_eq!(rt; book.report(&mut out), Ok(82));
    assert!(rt; &out[0..82] == REPORT);
    assert!(rt; out[82..90] == [7; 8]);
    Ok(())
}

// A line, a mode, room for so many modes of its path, and why there is none.
const REFUSED: [(usize, u16, usize, Refusal); 4] = [
    (10, 0, 3, Refusal::NoSuchLine),
    (9, 3, 3, Refusal::NoSuchMode),
    (6, 0, 3, Refusal::NoSuchPath),
    (4, 0, 2, Refusal::ShortPath(3)),
];

#[test]
fn a_book_refuses(rt: HostRuntime) -> Result<(), Fail> {
    let mut book = finished(&rt, rt.alloc())?;
    assert_eq!(rt; book.ask(10, 0), Err(Refusal::NoSuchLine));
    assert_eq!(rt; book.ask(9, 3), Err(Refusal::NoSuchMode));
    for (line, mode, room, refusal) in REFUSED {
        let mut path = [9; 3];
        let answer = book.show(line, mode, &mut path[0..room.min(3)]);
        assert_eq!(rt; answer, Err(refusal));
        assert!(rt; path == [9; 3]);
    }
    Ok(())
}

// A book is read again as the sheet it was; a cleared sheet begins with line 0.
#[test]
fn sheets_are_reopened_and_cleared(rt: HostRuntime) -> Result<(), Fail> {
    let book = finished(&rt, rt.alloc())?;
    let mut sheet = book.reopen();
    assert_eq!(rt; sheet.enter(NAMES, b"hired"), Ok(10));
    assert_eq!(rt; sheet.advance(65535), 1);
    assert_eq!(rt; sheet.ask(10, 1), Ok(Verdict::Yes));
    let counts = Counts {
        rounds: 18,
        plain: 7,
        looping: 4,
    };
    assert_eq!(rt; sheet.count(), counts);
    sheet.clear();
    assert_eq!(rt; sheet.ask(0, 0), Err(Refusal::NoSuchLine));
    assert_eq!(rt; sheet.enter(NAMES, WILL_PAY), Ok(6));
    assert_eq!(rt; sheet.advance(65535), 11);
    Ok(())
}
