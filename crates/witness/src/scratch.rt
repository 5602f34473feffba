// What showing a path answers, and the memory that it works in.
ghost use Rattle.std.specs.Prelude.{◌≡◌, ◌≤◌, IfErr, vec_len};

use basis::{Refusal, Reserved};
use std::alloc::Global;

// How many modes the path has, and the place to which its last mode returns, if it does.
#[derive(Clone, Copy, PartialEq, Eq, Debug)]
pub struct Shown {
    pub modes: usize,
    pub returns: Option<usize>,
}

// Tables with an entry for each mode, of which a chart has at most 256: the numbers and the next ones, and the place
// where each mode was passed, if it was.
#[derive(Drop)]
pub struct Tables {
    pub(crate) numbers: Reserved<u16, 256>,
    pub(crate) next: Reserved<u16, 256>,
    pub(crate) places: Reserved<Option<u16>, 256>,
}

// What showing works in, made once: the tables, and slots for the modes of a path, one more than there are modes.
#[derive(Drop)]
pub struct Scratch {
    pub(crate) tables: Tables,
    pub(crate) slots: Vec<u16>,
    ghost room: { 257 ≤ vec_len slots },
}

impl Scratch {
    // All the memory that showing ever needs, or want of it.
    pub fn new(heap: Global) -> Result<Scratch, Refusal>
        ensures refused { IfErr result (λ e. e ≡ Refusal.Memory) }
    {
        let tables = Tables {
            numbers: Reserved::new(heap)?,
            next: Reserved::new(heap)?,
            places: Reserved::new(heap)?,
        };
        let slots = vec![in heap; 0; 257]?;
        Ok(Scratch { tables, slots })
    }
}
