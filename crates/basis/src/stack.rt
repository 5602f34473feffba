// A stack over a slice that its owner lends: one struct for every kind of element. That the owner has its slice back
// only the slice's name can say, so each call has a clause `lender`.
ghost use Rattle.std.specs.Prelude.{◌≡◌, ℕ, ◌+◌, ◌-◌, ◌<◌, ◌≤◌, [], ◌∷◌, length, take, if◌then◌else◌, Some, None, Ok, Err, ◌≢◌, nat_lt, slice_set};
ghost use Rattle.basis.specs.Stacks.{held, newest, older};

#[derive(Drop)]
pub struct Stack<'a, T> {
    slots: &'a mut [T],
    count: usize,
    ghost within: { count ≤ length slots.now },
}

impl<'a, T: Copy> Stack<'a, T> {
    // An empty stack with as much room as the slice has elements.
    #[tactic(auto, using(crate::proofs::Stacked::held_none))]
    pub fn new(slots: &'a mut [T]) -> Stack<'a, T>
        ensures holds { held result.count result.slots.now ≡ [] }
        ensures count { result.count ≡ 0 }
        ensures slots { result.slots.now ≡ slots.old }
        ensures lender { result.slots.ghost_name ≡ slots.entry.ghost_name }
    {
        Stack { slots, count: 0 }
    }

    // The elements that are held, the oldest first.
    fn elements(&self) -> &[T]
        ensures { result.now ≡ take self.now.count self.now.slots.now }
    {
        &self.slots[..self.count]
    }

    // How many elements are held.
    pub fn len(&self) -> usize
        ensures { result ≡ self.now.count }
    {
        self.elements().len()
    }

    // Puts one element on top; a full stack hands it back and stays as it was.
    pub fn push(&mut self, element: T) -> Result<(), T>
        ensures value { result ≡ (if nat_lt self.old.count (length self.old.slots.now) then Ok tt else Err element) }
        ensures holds { held self.new.count self.new.slots.now ≡ (if nat_lt self.old.count (length self.old.slots.now) then element ∷ held self.old.count self.old.slots.now else held self.old.count self.old.slots.now) }
        ensures count { self.new.count ≡ (if nat_lt self.old.count (length self.old.slots.now) then self.old.count + 1 else self.old.count) }
        ensures slots { self.new.slots.now ≡ slice_set self.old.slots.now self.old.count element }
        ensures room { length self.new.slots.now ≡ length self.old.slots.now }
        ensures lender { self.new.slots.ghost_name ≡ self.old.slots.ghost_name }
    {
        if self.count < self.slots.len() {
            self.store(element);
            Ok(())
        } else {
            Err(element)
        }
    }

    // Puts one element on top, where there is room.
    fn store(&mut self, element: T)
        requires { self.old.count < length self.old.slots.now }
        ensures slots { self.new.slots.now ≡ slice_set self.old.slots.now self.old.count element }
        ensures count { self.new.count ≡ self.old.count + 1 }
        ensures lender { self.new.slots.ghost_name ≡ self.old.slots.ghost_name }
    {
        self.slots[self.count] = element;
        self.count += 1;
    }

    // Takes the newest element off.
    pub fn pop(&mut self) -> Option<T>
        ensures value { result ≡ newest (held self.old.count self.old.slots.now) }
        ensures holds { held self.new.count self.new.slots.now ≡ older (held self.old.count self.old.slots.now) }
        ensures count { self.new.count ≡ self.old.count - 1 }
        ensures slots { self.new.slots.now ≡ self.old.slots.now }
        ensures lender { self.new.slots.ghost_name ≡ self.old.slots.ghost_name }
    {
        if self.count == 0 {
            return None;
        }
        self.shrink();
        Some(self.slots[self.count])
    }

    // Forgets the newest element, where there is one.
    fn shrink(&mut self)
        requires { self.old.count ≢ 0 }
        ensures slots { self.new.slots.now ≡ self.old.slots.now }
        ensures count { self.new.count ≡ self.old.count - 1 }
        ensures lender { self.new.slots.ghost_name ≡ self.old.slots.ghost_name }
    {
        self.count -= 1;
    }

    // The newest element, which stays.
    #[tactic(auto, using(crate::proofs::Stacked::newest_last))]
    pub fn top(&self) -> Option<T>
        ensures { result ≡ newest (held self.now.count self.now.slots.now) }
    {
        self.elements().last().copied()
    }
}
