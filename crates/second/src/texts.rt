// Random texts of properties, over the names a, b, c and on.
ghost use Rattle.std.specs.Prelude.{◌<◌};

use crate::random::Random;
use std::alloc::{AllocError, Global};

// The name of a mark, a letter.
fn name(mark: u16) -> char {
    char::from(b'a'.saturating_add((mark % 26) as u8))
}

// The names of so many marks, with commas between them.
pub(crate) fn names(heap: Global, marks: usize) -> Result<String, AllocError> {
    let mut names = String::new(heap);
    for mark in 0..marks {
        if mark > 0 {
            names.push(',')?;
        }
        names.push(name((mark & 0xFF) as u16))?;
    }
    Ok(names)
}

fn temporal_prefix(random: &mut Random) -> &'static str {
    match random.below(6) {
        0 => "EX",
        1 => "AX",
        2 => "EF",
        3 => "AF",
        4 => "EG",
        _ => "AG",
    }
}

fn prefix(random: &mut Random) -> &'static str {
    if random.once_in(4) {
        "!"
    } else {
        temporal_prefix(random)
    }
}

// A text over so many marks that is being written.
#[derive(Drop)]
struct Draft {
    text: String,
    marks: u16,
}

impl Draft {
    // A name or a constant.
    fn leaf(&mut self, random: &mut Random) -> Result<(), AllocError> {
        self.text.push(if self.marks == 0 || random.once_in(10) {
            if random.once_in(2) { '1' } else { '0' }
        } else {
            name(random.below(self.marks))
        })
    }

    // The opening of a square bracket, and its middle.
    fn square(&mut self, random: &mut Random) -> Result<char, AllocError> {
        self.text
            .push_str(if random.once_in(2) { "E[" } else { "A[" })?;
        Ok(if random.once_in(2) { 'U' } else { 'R' })
    }

    // Two operands, of all parts but the operator's own, and the signs between and after them.
    #[cycle(property)]
    fn operands(
        &mut self,
        random: &mut Random,
        parts: u16,
        middle: char,
        closing: char,
    ) -> Result<(), AllocError>
        requires { 2 < parts }
    {
        let left = random.within(1, parts - 1);
        self.property(random, left)?;
        self.text.push(middle)?;
        self.property(random, parts - left - 1)?;
        self.text.push(closing)
    }

    // A property whose outermost operator is about runs or ways.
    fn temporal(&mut self, random: &mut Random, parts: u16) -> Result<(), AllocError> {
        if parts < 3 || random.once_in(2) {
            self.text.push_str(temporal_prefix(random))?;
            self.property(random, parts.saturating_sub(1))
        } else {
            let middle = self.square(random)?;
            self.operands(random, parts, middle, ']')
        }
    }

    // A property of so many parts.
    #[cycle(property)]
    fn property(&mut self, random: &mut Random, parts: u16) -> Result<(), AllocError> {
        if parts < 2 {
            return self.leaf(random);
        }
        if parts < 3 || random.once_in(3) {
            self.text.push_str(prefix(random))?;
            return self.property(random, parts - 1);
        }
        if random.once_in(2) {
            self.text.push('(')?;
            let middle = if random.once_in(2) { '&' } else { '|' };
            self.operands(random, parts, middle, ')')
        } else {
            let middle = self.square(random)?;
            self.operands(random, parts, middle, ']')
        }
    }
}

// How many parts: a few mostly, at times as many as 100, which are at most 250 bytes.
fn draw_parts(random: &mut Random, few: u16) -> u16 {
    if few > 8 && random.once_in(12) {
        random.within(1, 101)
    } else {
        random.within(1, few.saturating_add(1))
    }
}

// A text over so many marks, of mostly at most a few parts. Three in four begin with an operator about runs or ways,
// behind at most two `!`s.
pub(crate) fn draw_text(
    heap: Global,
    random: &mut Random,
    marks: usize,
    few: u16,
) -> Result<String, AllocError> {
    let parts = draw_parts(random, few);
    let mut draft = Draft {
        text: String::new(heap),
        marks: (marks & 0xFF) as u16,
    };
    if random.once_in(4) {
        draft.property(random, parts)?;
    } else {
        for _ in 0..random.below(3) {
            draft.text.push('!')?;
        }
        draft.temporal(random, parts)?;
    }
    let Draft { text, .. } = draft;
    Ok(text)
}
