// Counters, and pairs of charts.
use super::meter::{METER, is_idle, marks_are, size_is, ways_are};
use basis::Refusal;
use chart::{Chart, CounterChart, FiledChart, Pair, fits};
use std::test::Fail;

#[test]
fn counters(rt: HostRuntime) -> Result<(), Fail> {
    assert!(rt; CounterChart::new(0).is_err() && CounterChart::new(257).is_err());
    let longest = CounterChart::new(256)?;
    assert!(rt; size_is(&longest, 256, 2, 2, 0) && ways_are(&longest, 254, &[255, 0]));
    let single = CounterChart::new(1)?;
    assert!(rt; ways_are(&single, 0, &[0]) && marks_are(&single, 0, &[true, true]));
    let counter = CounterChart::new(4)?;
    assert!(rt;
        ways_are(&counter, 0, &[1, 0]) && ways_are(&counter, 3, &[0]) && ways_are(&counter, 4, &[])
    );
    assert!(rt; marks_are(&counter, 0, &[true, false]) && marks_are(&counter, 3, &[false, true]));
    Ok(())
}

#[test]
fn too_many_modes(rt: HostRuntime) -> Result<(), Fail> {
    let sixteen = CounterChart::new(16)?;
    let seventeen = CounterChart::new(17)?;
    assert!(rt;
        fits(&sixteen, &sixteen) == Ok(()) && size_is(&Pair::new(sixteen, sixteen), 256, 4, 4, 0)
    );
    assert!(rt;
        fits(&sixteen, &seventeen) == Err(Refusal::TooManyModes)
            && is_idle(&Pair::new(sixteen, seventeen))
    );
    Ok(())
}

// Eight counters of length 1 are as wide as a chart may be.
#[test]
fn too_wide(rt: HostRuntime) -> Result<(), Fail> {
    let one = CounterChart::new(1)?;
    let two = Pair::new(one, one);
    let four = Pair::new(&two, &two);
    let eight = Pair::new(&four, &four);
    assert!(rt; size_is(&eight, 1, 16, 16, 0));
    assert!(rt; fits(&eight, &one) == Err(Refusal::TooWide) && is_idle(&Pair::new(&eight, one)));
    Ok(())
}

// A chart of sixteen marks and width 1, of which marks 0 and 15 stand.
#[test]
fn too_many_marks(rt: HostRuntime) -> Result<(), Fail> {
    let file = [
        0x4D, 0x43, 0x48, 0, 1, 0, 1, 16, 1, 0, 0, 0, 0x80, 0x01, 1, 0, 0, 0,
    ];
    let mut marked = FiledChart::new(rt.alloc())?;
    assert!(rt; marked.open(&file) == Ok(()));
    assert!(rt;
        marked.stands(0, 0) && marked.stands(15, 0) && !marked.stands(1, 0) && !marked.stands(14, 0)
    );
    assert!(rt;
        fits(&marked, &marked) == Err(Refusal::TooManyMarks)
            && is_idle(&Pair::new(&marked, &marked))
    );
    Ok(())
}

// Counters of 2 and 3, beside the example meter: mode 13 is modes 1, 1 and 1.
#[test]
fn pair_of_pairs(rt: HostRuntime) -> Result<(), Fail> {
    let mut meter = FiledChart::new(rt.alloc())?;
    let counters = Pair::new(CounterChart::new(2)?, CounterChart::new(3)?);
    assert!(rt; meter.open(&METER) == Ok(()) && ways_are(&counters, 0, &[3, 0, 1, 0]));
    let all = Pair::new(&counters, &meter);
    assert!(rt;
        size_is(&all, 18, 7, 6, 0)
            && ways_are(&all, 13, &[4, 16, 10, 13, 14])
            && ways_are(&all, 18, &[])
    );
    assert!(rt; marks_are(&all, 13, &[false, true, false, false, false, true, false]));
    Ok(())
}
