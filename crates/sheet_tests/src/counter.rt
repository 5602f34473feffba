// The counter of length 4: each mode leads on or back to mode 0; the marks stand at the first mode and at the last.
use basis::Refusal;
use chart::CounterChart;
use sheet::{Counts, Sheet};
use std::alloc::Global;
use std::test::Fail;
use witness::Shown;

const NAMES: &[u8] = b"first,last";

fn blank(heap: Global) -> Result<Sheet<CounterChart>, Fail> {
    let chart = CounterChart::new(4)?;
    Sheet::new(heap, chart).map_err(|_| Fail::new("no memory"))
}

// Everywhere, the last mode, and the until line of two rounds.
#[test]
fn a_counter_can_begin_again(rt: HostRuntime) -> Result<(), Fail> {
    let mut sheet = blank(rt.alloc())?;
    assert_eq!(rt; sheet.enter(NAMES, b"AFlast"), Ok(2));
    assert_eq!(rt; sheet.advance(65535), 4);
    let mut path = [9; 4];
    let shown = Shown {
        modes: 3,
        returns: Some(0),
    };
    assert_eq!(rt; sheet.show(2, 0, &mut path), Ok(shown));
    assert!(rt; path == [0, 1, 2, 9]);
    Ok(())
}

// 64 lines: the first mode, and 63 times some way on.
const LONGEST: &[u8] =
    b"EXEXEXEXEXEXEXEXEXEXEXEXEXEXEXEXEXEXEXEXEXEXEXEXEXEXEXEXEXEXEXEXEXEXEXEXEXEXEXEXEXEXEXEXEXEXEXEXEXEXEXEXEXEXEXEXEXEXEXEXEXEXEXfirst";

// Neither a 65th line nor a 33rd entry; what has its lines already is an entry more.
#[test]
fn a_sheet_is_full(rt: HostRuntime) -> Result<(), Fail> {
    let full = Err(Refusal::SheetFull);
    let counts = Counts {
        rounds: 0,
        plain: 64,
        looping: 0,
    };
    let mut sheet = blank(rt.alloc())?;
    assert_eq!(rt; sheet.enter(NAMES, LONGEST), Ok(63));
    assert_eq!(rt; sheet.enter(NAMES, b"(EXfirst&last)"), full);
    assert_eq!(rt; sheet.count(), counts);
    for _ in 0..31u8 {
        assert_eq!(rt; sheet.enter(NAMES, b"first"), Ok(0));
    }
    assert_eq!(rt; sheet.enter(NAMES, b"first"), full);
    assert_eq!(rt; sheet.count(), counts);
    assert_eq!(rt; sheet.advance(65535), 64);
    Ok(())
}
