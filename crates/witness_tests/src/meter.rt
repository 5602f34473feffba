// The example meter: modes 0 vacant, 1 hired, 2 paying, each with a mark of its own; ways 0 to 0 and 1, 1 to 1 and 2,
// 2 to 0.
use super::bench::settled;
use basis::Refusal;
use chart::FiledChart;
use ctl::{Connective, Quantifier, Rule, Temporal};
use std::test::Fail;
use witness::{Scratch, Shown, show};

const METER: &[u8] =
    b"MCH\x00\x01\x00\x03\x03\x02\x00\x00\x00\x00\x01\x02\x00\x00\x00\x00\x01\x00\x02\x02\x00\x00\x01\x00\x02\x00\x04\x01\x00\x00\x00\xFF\xFF";

// Always not hired or paying can come, line 6; always not hired or paying comes, line 9; then next, and staying.
const RULES: [Rule; 17] = [
    Rule::Constant(false),
    Rule::Mark(false, 1),
    Rule::Constant(true),
    Rule::Mark(true, 2),
    Rule::Path(Temporal::Until, Quantifier::Exists, 2, 3),
    Rule::Join(Connective::Or, 1, 4),
    Rule::Path(Temporal::Release, Quantifier::Forall, 0, 5),
    Rule::Path(Temporal::Until, Quantifier::Forall, 2, 3),
    Rule::Join(Connective::Or, 1, 7),
    Rule::Path(Temporal::Release, Quantifier::Forall, 0, 8),
    // some way out is paying, every way out is not hired
    Rule::Next(Quantifier::Exists, 3),
    Rule::Next(Quantifier::Forall, 1),
    // on some run never paying; on some run not paying before it is not hired, nor then
    Rule::Mark(false, 2),
    Rule::Path(Temporal::Release, Quantifier::Exists, 0, 12),
    Rule::Path(Temporal::Release, Quantifier::Exists, 1, 12),
    // on every run hired comes
    Rule::Mark(true, 1),
    Rule::Path(Temporal::Until, Quantifier::Forall, 2, 15),
];

// A line, a mode, how many modes are shown, where the last one returns, and three nines after it.
const PATHS: [(usize, u16, usize, Option<usize>, [u16; 3]); 8] = [
    (9, 0, 2, None, [0, 1, 9]),
    (7, 1, 1, Some(0), [1, 9, 9]),
    (4, 0, 3, None, [0, 1, 2]),
    (10, 1, 2, None, [1, 2, 9]),
    (11, 0, 2, None, [0, 1, 9]),
    (13, 1, 1, Some(0), [1, 9, 9]),
    (14, 0, 1, None, [0, 9, 9]),
    (16, 2, 2, Some(1), [2, 0, 9]),
];

#[test]
fn paths_bear_answers_out(rt: HostRuntime) -> Result<(), Fail> {
    let mut chart = FiledChart::new(rt.alloc())?;
    chart.open(METER)?;
    let lines = settled(rt.alloc(), &chart, &RULES)?;
    let mut scratch = Scratch::new(rt.alloc())?;
    for (line, mode, modes, returns, after) in PATHS {
        let mut path = [9; 3];
        let answer = show(&chart, &lines, line, mode, &mut scratch, &mut path);
        assert_eq!(rt; answer, Ok(Shown { modes, returns }));
        assert!(rt; path == after);
    }
    Ok(())
}

// A line and a mode where no one run bears the answer out; line 17 is not there.
const NO_PATHS: [(usize, u16); 8] = [
    (3, 2),
    (5, 0),
    (6, 0),
    (7, 2),
    (10, 0),
    (11, 2),
    (13, 2),
    (17, 0),
];

#[test]
fn refusals_leave_the_buffer(rt: HostRuntime) -> Result<(), Fail> {
    let mut chart = FiledChart::new(rt.alloc())?;
    chart.open(METER)?;
    let lines = settled(rt.alloc(), &chart, &RULES)?;
    let mut scratch = Scratch::new(rt.alloc())?;
    for (line, mode) in NO_PATHS {
        let mut path = [9; 3];
        let answer = show(&chart, &lines, line, mode, &mut scratch, &mut path);
        assert_eq!(rt; answer, Err(Refusal::NoSuchPath));
        assert!(rt; path == [9; 3]);
    }
    let mut path = [9; 2];
    let answer = show(&chart, &lines, 4, 0, &mut scratch, &mut path);
    assert_eq!(rt; answer, Err(Refusal::ShortPath(3)));
    assert!(rt; path == [9; 2]);
    let answer = show(&chart, &lines, 7, 1, &mut scratch, &mut []);
    assert_eq!(rt; answer, Err(Refusal::ShortPath(1)));
    Ok(())
}
