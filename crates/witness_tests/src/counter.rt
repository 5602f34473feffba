// The counter of length 4: each mode leads on or back to mode 0, and mark 1 stands at the last.
use super::bench::settled;
use chart::CounterChart;
use ctl::{Quantifier, Rule, Temporal};
use std::test::Fail;
use witness::{Scratch, Shown, show};

// On every run, and on some run, the last mode comes.
const RULES: [Rule; 4] = [
    Rule::Constant(true),
    Rule::Mark(true, 1),
    Rule::Path(Temporal::Until, Quantifier::Forall, 0, 1),
    Rule::Path(Temporal::Until, Quantifier::Exists, 0, 1),
];

// A line, a mode, where the last of three modes returns, and four nines after it.
const PATHS: [(usize, u16, Option<usize>, [u16; 4]); 3] = [
    (2, 0, Some(0), [0, 1, 2, 9]),
    (2, 1, Some(0), [1, 2, 0, 9]),
    (3, 1, None, [1, 2, 3, 9]),
];

#[test]
fn a_counter_can_begin_again(rt: HostRuntime) -> Result<(), Fail> {
    let chart = CounterChart::new(4)?;
    let lines = settled(rt.alloc(), &chart, &RULES)?;
    let mut scratch = Scratch::new(rt.alloc())?;
    for (line, mode, returns, after) in PATHS {
        let mut path = [9; 4];
        let answer = show(&chart, &lines, line, mode, &mut scratch, &mut path);
        assert_eq!(rt; answer, Ok(Shown { modes: 3, returns }));
        assert!(rt; path == after);
    }
    Ok(())
}
