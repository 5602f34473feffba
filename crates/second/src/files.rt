// Random chart files, and charts opened from them.
ghost use Rattle.std.specs.Prelude.{◌<◌};

use crate::random::Random;
use crate::stop::Stop;
use chart::FiledChart;
use std::alloc::{AllocError, Global};

// Where ways lead: anywhere, to modes of near numbers, or mostly to the same or higher numbers.
#[derive(Clone, Copy)]
enum Lead {
    Anywhere,
    Near,
    Onward,
}

// How often marks stand.
#[derive(Clone, Copy)]
enum Density {
    Seldom,
    Evenly,
    Mostly,
}

// What a random chart file is to have: the numbers of its header, and how its records are drawn.
#[derive(Clone, Copy)]
pub(crate) struct Plan {
    modes: u16,
    marks: u8,
    width: u8,
    lead: Lead,
    density: Density,
}

// The most modes, marks and ways out of a mode that a chart may have.
#[derive(Clone, Copy)]
pub(crate) struct Most {
    pub(crate) modes: u16,
    pub(crate) marks: u8,
    pub(crate) width: u8,
}

fn draw_lead(random: &mut Random) -> Lead {
    match random.below(3) {
        0 => Lead::Anywhere,
        1 => Lead::Near,
        _ => Lead::Onward,
    }
}

fn draw_density(random: &mut Random) -> Density {
    match random.below(4) {
        0 => Density::Seldom,
        1 => Density::Mostly,
        _ => Density::Evenly,
    }
}

impl Plan {
    // With exactly so many modes.
    pub(crate) fn of(random: &mut Random, modes: u16, most: Most) -> Plan {
        let marks = random.within(0, u16::from(most.marks).saturating_add(1));
        let width = random.within(1, u16::from(most.width).saturating_add(1));
        Plan {
            modes,
            marks: (marks & 0xFF) as u8,
            width: (width & 0xFF) as u8,
            lead: draw_lead(random),
            density: draw_density(random),
        }
    }

    pub(crate) fn draw(random: &mut Random, most: Most) -> Plan {
        let modes = random.within(1, most.modes.saturating_add(1));
        Plan::of(random, modes, most)
    }

    // A bit for each mark of the chart.
    fn draw_marks(self, random: &mut Random) -> u16 {
        let bits = match self.density {
            Density::Seldom => random.bits() & random.bits() & random.bits(),
            Density::Evenly => random.bits(),
            Density::Mostly => random.bits() | random.bits() | random.bits(),
        };
        let ones = 1u32.wrapping_shl(u32::from(self.marks)).wrapping_sub(1);
        bits & (ones & 0xFFFF) as u16
    }

    fn draw_way(self, random: &mut Random, mode: u16) -> u16 {
        match self.lead {
            Lead::Anywhere => random.below(self.modes),
            Lead::Near => mode
                .saturating_add(random.below(6))
                .saturating_add(self.modes)
                .saturating_sub(2)
                .checked_rem(self.modes)
                .unwrap_or(0),
            Lead::Onward if random.once_in(10) => random.below(self.modes),
            Lead::Onward => random.within(mode, self.modes),
        }
    }
}

// A chart file that is being written.
#[derive(Drop)]
struct Draft {
    plan: Plan,
    file: Vec<u8>,
}

impl Draft {
    // Two bytes, the high one first.
    fn put(&mut self, number: u16) -> Result<(), AllocError> {
        self.file.extend_from_slice(&number.to_be_bytes())
    }

    fn put_header(&mut self, random: &mut Random) -> Result<(), AllocError> {
        let Plan {
            modes,
            marks,
            width,
            ..
        } = self.plan;
        self.file.extend_from_slice(b"MCH\x00\x01")?;
        self.put(modes)?;
        self.file.extend_from_slice(&[marks, width])?;
        self.put(random.below(modes))?;
        self.file.extend_from_slice(&[0])
    }

    // The ways in order, and then FFFF in the places that are left.
    fn put_ways(&mut self, random: &mut Random, mode: u16, degree: u16) -> Result<(), AllocError> {
        let plan = self.plan;
        for place in 0..u16::from(plan.width) {
            self.put(if place < degree {
                plan.draw_way(random, mode)
            } else {
                0xFFFF
            })?;
        }
        Ok(())
    }

    fn put_record(&mut self, random: &mut Random, mode: u16) -> Result<(), AllocError> {
        let plan = self.plan;
        let degree = random.within(1, u16::from(plan.width).saturating_add(1));
        self.put(plan.draw_marks(random))?;
        self.file.extend_from_slice(&[(degree & 0xFF) as u8, 0])?;
        self.put_ways(random, mode, degree)
    }
}

fn file_of(heap: Global, random: &mut Random, plan: Plan) -> Result<Vec<u8>, AllocError> {
    let mut draft = Draft {
        plan,
        file: Vec::new(heap),
    };
    draft.put_header(random)?;
    for mode in 0..plan.modes {
        draft.put_record(random, mode)?;
    }
    let Draft { file, .. } = draft;
    Ok(file)
}

// The chart of a random file that follows a plan.
pub(crate) fn filed(heap: Global, random: &mut Random, plan: Plan) -> Result<FiledChart, Stop> {
    let file = file_of(heap, random, plan)?;
    Ok(FiledChart::from_file(heap, &file)?)
}
