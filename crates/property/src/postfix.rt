// The parts of a property in postfix order, in memory that is taken once.
ghost use Rattle.std.specs.Prelude.{◌≡◌, ◌<◌, [], ◌∷◌, ◌++◌, length, MatchResult};
ghost use Rattle.basis.specs.declared.refusal.Refusal.TheVariants.{Memory};

use crate::shape::Part;
use basis::{Refusal, Reserved};
use std::alloc::Global;

// Room for 255 parts, as many as a text of 255 bytes can have.
#[derive(Drop)]
pub struct Parts {
    list: Reserved<Part, 255>,
}

impl Parts {
    // No parts yet; the one case left open is that no memory can be had.
    pub fn new(heap: Global) -> Result<Parts, Refusal>
        ensures { MatchResult result (λ p. p.list ≡ []) (λ e. e ≡ Memory) }
    {
        Ok(Parts {
            list: Reserved::new(heap)?,
        })
    }

    pub fn as_slice(&self) -> &[Part]
        ensures { result.now ≡ self.now.list }
    {
        self.list.as_slice()
    }

    pub(crate) fn clear(&mut self)
        ensures { self.new.list ≡ [] }
    {
        self.list.clear();
    }

    pub(crate) fn push(&mut self, part: Part)
        requires { length self.old.list < 255 }
        ensures { self.new.list ≡ self.old.list ++ (part ∷ []) }
    {
        let _ = self.list.push(part);
    }
}
