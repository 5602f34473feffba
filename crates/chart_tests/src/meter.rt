// The example meter: modes 0 vacant, 1 hired, 2 paying, each with a mark of its own; ways 0 to 0 and 1, 1 to 1 and 2,
// 2 to 0.
use chart::Chart;

pub(crate) const METER: [u8; 36] = [
    0x4D, 0x43, 0x48, 0x00, 0x01, 0x00, 0x03, 0x03, 0x02, 0x00, 0x00, 0x00, // header
    0x00, 0x01, 0x02, 0x00, 0x00, 0x00, 0x00, 0x01, // vacant
    0x00, 0x02, 0x02, 0x00, 0x00, 0x01, 0x00, 0x02, // hired
    0x00, 0x04, 0x01, 0x00, 0x00, 0x00, 0xFF, 0xFF, // paying
];

// The file with one byte of its own.
pub(crate) fn edited(at: usize, byte: u8) -> [u8; 36] {
    let mut file = METER;
    if at < 36 {
        file[at] = byte;
    }
    file
}

// The ways out of a mode are these, and no more.
pub(crate) fn ways_are<C: Chart>(chart: &C, mode: u16, ways: &[u16]) -> bool {
    ways.iter()
        .enumerate()
        .all(|(place, way)| chart.way(mode, place) == Some(*way))
        && chart.degree(mode) == ways.len()
        && chart.way(mode, ways.len()).is_none()
}

// Of all marks, these stand at the mode.
pub(crate) fn marks_are<C: Chart>(chart: &C, mode: u16, marks: &[bool]) -> bool {
    marks
        .iter()
        .enumerate()
        .all(|(mark, standing)| chart.stands(mark, mode) == *standing)
        && chart.marks() == marks.len()
        && !chart.stands(marks.len(), mode)
}

// Modes, marks, width and start.
pub(crate) fn size_is<C: Chart>(
    chart: &C,
    modes: u16,
    marks: usize,
    width: usize,
    start: u16,
) -> bool {
    chart.modes() == modes
        && chart.marks() == marks
        && chart.width() == width
        && chart.start() == start
}

pub(crate) fn is_idle<C: Chart>(chart: &C) -> bool {
    size_is(chart, 1, 0, 1, 0)
        && ways_are(chart, 0, &[0])
        && ways_are(chart, 1, &[])
        && marks_are(chart, 0, &[])
}

pub(crate) fn is_meter<C: Chart>(chart: &C) -> bool {
    size_is(chart, 3, 3, 2, 0) && meter_ways(chart) && meter_marks(chart)
}

fn meter_ways<C: Chart>(chart: &C) -> bool {
    ways_are(chart, 0, &[0, 1])
        && ways_are(chart, 1, &[1, 2])
        && ways_are(chart, 2, &[0])
        && ways_are(chart, 3, &[])
}

fn meter_marks<C: Chart>(chart: &C) -> bool {
    marks_are(chart, 0, &[true, false, false])
        && marks_are(chart, 1, &[false, true, false])
        && marks_are(chart, 2, &[false, false, true])
        && marks_are(chart, 3, &[false, false, false])
}
