// Refusal lines in full, short buffers among them.
use super::*;
use std::process::Abort;
use std::test::Fail;

fn line_is(
    rt: &impl Abort,
    refusal: Refusal,
    out: &mut [u8],
    answer: Result<usize, Refusal>,
    after: &[u8],
) {
    assert_eq!(rt; refusal.write_line(out), answer);
    assert_eq!(rt; &*out, after);
}

#[test]
fn refusal_lines(rt: HostRuntime) {
    line_is(
        &rt,
        Refusal::Grammar(4),
        &mut [b'.'; 16],
        Ok(16),
        b"refused 13 at 4\n",
    );
    line_is(
        &rt,
        Refusal::Grammar(4),
        &mut [b'.'; 4],
        Err(Refusal::ShortBuffer(16)),
        b"....",
    );
    line_is(
        &rt,
        Refusal::ShortFile,
        &mut [b'.'; 12],
        Ok(10),
        b"refused 1\n..",
    );
    line_is(
        &rt,
        Refusal::Memory,
        &mut [],
        Err(Refusal::ShortBuffer(10)),
        b"",
    );
    line_is(
        &rt,
        Refusal::Record(0),
        &mut [b'.'; 15],
        Ok(15),
        b"refused 5 at 0\n",
    );
    line_is(
        &rt,
        Refusal::ShortBuffer(usize::MAX),
        &mut [b'.'; 2],
        Err(Refusal::ShortBuffer(35)),
        b"..",
    );
}

#[test]
fn refusals_print_as_their_lines(rt: HostRuntime) -> Result<(), Fail> {
    let text = format!(in rt.alloc(); "{}", Refusal::Grammar(4))?;
    assert_eq!(rt; text.as_str(), "refused 13 at 4");
    Ok(())
}

// Room for three: a fourth comes back, and the newest is taken off first.
#[test]
fn room_is_taken_once(rt: HostRuntime) -> Result<(), Fail> {
    let mut kept: Reserved<u16, 3> = Reserved::new(rt.alloc())?;
    assert_eq!(rt; kept.push(7), Ok(()));
    assert_eq!(rt; kept.push(8), Ok(()));
    assert_eq!(rt; kept.push(9), Ok(()));
    assert_eq!(rt; kept.push(10), Err(10));
    assert!(rt; *kept.as_slice() == *[7, 8, 9].as_slice());
    assert_eq!(rt; kept.pop(), Some(9));
    kept.set(0, 5);
    kept.set(2, 6);
    assert!(rt; *kept.as_slice() == *[5, 8].as_slice());
    kept.truncate(1);
    assert_eq!(rt; kept.len(), 1);
    kept.fill(4, 2);
    assert!(rt; *kept.as_slice() == *[2, 2, 2].as_slice());
    kept.clear();
    assert_eq!(rt; kept.pop(), None);
    Ok(())
}
