// A vector whose room is taken once, when it is made, so that nothing done with it later takes memory.
ghost use Rattle.std.specs.Prelude.{◌≡◌, ◌≤◌, List, [], ◌∷◌, ◌++◌, length, min, replicate, reverse, take, if◌then◌else◌, Ok, Err, nat_lt, slice_set, vec_len, vec_capacity, MatchResult};
ghost use Rattle.basis.specs.Stacks.{newest, older};
ghost use Rattle.basis.specs.declared.refusal.Refusal.TheVariants.{Memory};

use super::refusal::Refusal;
use std::alloc::Global;
use std::marker::Model;

// At most `N` elements.
#[derive(Drop)]
pub struct Reserved<T, const N: usize> {
    items: Vec<T>,
}

// Clauses see the elements, the oldest first.
impl<T, const N: usize> Model for Reserved<T, N> {
    ghost Value = { List T };

    ghost view = { λ r. r.items.items };

    // the room stays what it was, so nothing was taken since
    ghost invariant = { λ r. (vec_len r.items ≤ N) × (vec_capacity r.items ≡ N) };
}

impl<T, const N: usize> Reserved<T, N> {
    // No elements yet, or want of memory.
    pub fn new(heap: Global) -> Result<Reserved<T, N>, Refusal>
        ensures { MatchResult result (λ r. r ≡ []) (λ e. e ≡ Memory) }
    {
        let items = Vec::with_capacity(heap, N)?;
        Ok(Reserved { items })
    }

    pub fn len(&self) -> usize
        ensures count { result ≡ length self.now }
        ensures bound { length self.now ≤ N }
    {
        self.items.len()
    }

    pub fn as_slice(&self) -> &[T]
        ensures elements { result.now ≡ self.now }
        ensures bound { length self.now ≤ N }
    {
        self.items.as_slice()
    }

    // Puts an element behind the others; where there is no room it comes back.
    pub fn push(&mut self, element: T) -> Result<(), T>
        ensures answer { result ≡ (if nat_lt (length self.old) N then Ok tt else Err element) }
        ensures after { self.new ≡ (if nat_lt (length self.old) N then self.old ++ element ∷ [] else self.old) }
    {
        if self.items.len() < N {
            self.items.push_reserved(element);
            Ok(())
        } else {
            Err(element)
        }
    }
}

impl<T: Drop, const N: usize> Reserved<T, N> {
    pub fn clear(&mut self)
        ensures { self.new ≡ [] }
    {
        self.items.clear();
    }

    // Keeps the first so many.
    pub fn truncate(&mut self, count: usize)
        ensures { self.new ≡ take count self.old }
    {
        self.items.truncate(count);
    }
}

impl<T: Copy, const N: usize> Reserved<T, N> {
    // Takes the newest element off.
    pub fn pop(&mut self) -> Option<T>
        ensures value { result ≡ newest (reverse self.old) }
        ensures rest { reverse self.new ≡ older (reverse self.old) }
    {
        self.items.pop()
    }

    // So many times one value, and nothing else; at most `N` times.
    pub fn fill(&mut self, count: usize, value: T)
        ensures { self.new ≡ replicate (min count N) value }
    {
        self.clear();
        for _ in 0..count.min(N) {
            self.items.push_reserved(value);
        }
    }

    // Puts a value in place of the element at a place, if there is one.
    pub fn set(&mut self, place: usize, value: T)
        ensures { self.new ≡ slice_set self.old place value }
    {
        if place < self.items.len() {
            self.items[place] = value;
        }
    }
}
