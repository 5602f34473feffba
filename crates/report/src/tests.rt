// A report in full, in buffers too short, just long enough and longer; and a 33rd row.
use super::*;
use basis::Refusal;
use ctl::Verdict;
use std::test::Fail;

#[test]
fn an_example(rt: HostRuntime) -> Result<(), Fail> {
    let mut draft = Draft::new(rt.alloc())?;
    draft.row(1, Verdict::Yes, 1);
    draft.begin(3, 3, 0);
    draft.row(6, Verdict::Yes, 1);
    draft.row(9, Verdict::No, 4);
    let mut short = [b'.'; 81];
    assert_eq!(rt;
        draft.write(17, 22, &mut short),
        Err(Refusal::ShortBuffer(82))
    );
    assert_eq!(rt; short, [b'.'; 81]);
    let text =
        b"modes 3 marks 3 start 0\n0 line 6 yes rounds 1\n1 line 9 no rounds 4\ntotal 17 of 22\n..";
    let mut long = [b'.'; 84];
    assert_eq!(rt; draft.write(17, 22, &mut long), Ok(82));
    assert_eq!(rt; &long, text);
    Ok(())
}

#[test]
fn a_33rd_row_is_left_out(rt: HostRuntime) -> Result<(), Fail> {
    let mut draft = Draft::new(rt.alloc())?;
    draft.begin(1, 0, 0);
    for _ in 0..33 {
        draft.row(0, Verdict::Pending, 0);
    }
    assert_eq!(rt;
        draft.write(0, 0, &mut []),
        Err(Refusal::ShortBuffer(24 + 10 * 26 + 22 * 27 + 13))
    );
    Ok(())
}
