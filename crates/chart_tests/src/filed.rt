// Files: the example meter, files cut short, headers off their limits, and each way to break a record.
use super::meter::{METER, edited, is_idle, is_meter};
use basis::Refusal;
use chart::FiledChart;
use std::test::Fail;

// The meter's file with the byte at a place changed, and what opening it answers.
const CASES: [(usize, u8, Result<(), Refusal>); 22] = [
    // the signature
    (0, 0x4C, Err(Refusal::Signature)),
    (4, 2, Err(Refusal::Signature)),
    // modes 0 and 259, marks 17, widths 0 and 9, start 3, the spare byte
    (6, 0, Err(Refusal::Header)),
    (5, 1, Err(Refusal::Header)),
    (7, 17, Err(Refusal::Header)),
    (8, 0, Err(Refusal::Header)),
    (8, 9, Err(Refusal::Header)),
    (10, 3, Err(Refusal::Header)),
    (11, 1, Err(Refusal::Header)),
    // too few modes and too small a width for the length
    (6, 2, Err(Refusal::FileLength)),
    (8, 1, Err(Refusal::FileLength)),
    // marks beyond the three: bits 3 and 8
    (13, 9, Err(Refusal::Record(0))),
    (12, 1, Err(Refusal::Record(0))),
    // no ways, three ways, the spare byte
    (22, 0, Err(Refusal::Record(1))),
    (22, 3, Err(Refusal::Record(1))),
    (31, 1, Err(Refusal::Record(2))),
    // a way to mode 3, an unused place that is not FFFF, a way in a place that is not used
    (27, 3, Err(Refusal::Record(1))),
    (35, 0xFE, Err(Refusal::Record(2))),
    (14, 1, Err(Refusal::Record(0))),
    // still charts: sixteen marks, another start, another way
    (7, 16, Ok(())),
    (10, 2, Ok(())),
    (27, 0, Ok(())),
];

// Opens a file after the meter's; a refusal leaves the meter.
fn answers(place: &mut FiledChart, file: &[u8], answer: Result<(), Refusal>) -> bool {
    place.open(&METER) == Ok(())
        && place.open(file) == answer
        && (answer == Ok(()) || is_meter(&*place))
}

#[test]
fn changed_bytes(rt: HostRuntime) -> Result<(), Fail> {
    let mut place = FiledChart::new(rt.alloc())?;
    for (at, byte, answer) in CASES {
        assert!(rt; answers(&mut place, &edited(at, byte), answer));
    }
    Ok(())
}

#[test]
fn lengths(rt: HostRuntime) -> Result<(), Fail> {
    let mut place = FiledChart::new(rt.alloc())?;
    assert!(rt; answers(&mut place, &METER[0..11], Err(Refusal::ShortFile)));
    assert!(rt; answers(&mut place, &METER[0..12], Err(Refusal::FileLength)));
    assert!(rt; answers(&mut place, &METER[0..35], Err(Refusal::FileLength)));
    assert!(rt; answers(&mut place, &[], Err(Refusal::ShortFile)));
    Ok(())
}

// A refusal leaves a new place idle. Of two bad records the lower one is told.
#[test]
fn new_place(rt: HostRuntime) -> Result<(), Fail> {
    let mut place = FiledChart::new(rt.alloc())?;
    assert!(rt; is_idle(&place));
    let mut file = edited(31, 1);
    file[22] = 0;
    assert!(rt; place.open(&file) == Err(Refusal::Record(1)));
    assert!(rt; is_idle(&place));
    Ok(())
}

#[test]
fn from_file(rt: HostRuntime) -> Result<(), Fail> {
    let meter = FiledChart::from_file(rt.alloc(), &METER)?;
    assert!(rt; is_meter(&meter));
    assert!(rt; FiledChart::from_file(rt.alloc(), &METER[..11]).err() == Some(Refusal::ShortFile));
    Ok(())
}
