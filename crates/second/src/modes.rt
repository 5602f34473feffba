// A set of modes: for each mode of a chart whether it is in the set.
ghost use Rattle.std.specs.Prelude.{◌≡◌, ◌+◌, true, false, set, IfOk, vec_len, slice_index_or, slice_set};
ghost use Rattle.second.specs.Absent.{absent};

use std::alloc::{AllocError, Global};
use std::mem;

#[derive(Drop)]
pub(crate) struct Modes {
    held: Vec<bool>,
}

impl Modes {
    // Of so many modes each one, or none.
    pub(crate) fn uniform(heap: Global, count: u16, held: bool) -> Result<Modes, AllocError>
        ensures { IfOk result (λ m. vec_len m.held ≡ count) }
    {
        let held = vec![in heap; held; count as usize]?;
        Ok(Modes { held })
    }

    // Of so many modes those that a test says are in the set.
    pub(crate) fn of<F: FnMut(u16) -> Result<bool, AllocError>>(
        heap: Global,
        count: u16,
        is_held: F,
    ) -> Result<Modes, AllocError>
        requires { (state : F) (mode : _) → F.pre state mode }
    {
        let held = (0..count).map(is_held).try_collect(heap)?;
        Ok(Modes { held })
    }

    pub(crate) fn has(&self, mode: u16) -> bool
        ensures { result ≡ slice_index_or self.now.held.items mode false }
    {
        self.held.get(mode as usize).copied().unwrap_or(false)
    }

    // Puts a mode into the set, where it is one of the modes; whether it was not in it.
    pub(crate) fn insert(&mut self, mode: u16) -> bool
        ensures held { self.new.held.items ≡ slice_set self.old.held.items mode true }
        ensures fewer { result ≡ true → absent self.new.held.items + 1 ≡ absent self.old.held.items }
        ensures none { result ≡ false → absent self.new.held.items ≡ absent self.old.held.items }
    {
        // in a closure what is written would not be known afterwards
        match self.held.get_mut(mode as usize) {
            Some(held) => !mem::replace(held, true),
            None => false,
        }
    }

    // Takes a mode out of the set.
    pub(crate) fn remove(&mut self, mode: u16) {
        if let Some(held) = self.held.get_mut(mode as usize) {
            *held = false;
        }
    }

    // The modes that are not in the set.
    pub(crate) fn others(&self, heap: Global) -> Result<Modes, AllocError> {
        let held = self.held.iter().map(|held| !*held).collect(heap)?;
        Ok(Modes { held })
    }

    // The modes that a test takes, by whether they are in each of two sets.
    fn joined<F: Fn(bool, bool) -> bool>(
        &self,
        heap: Global,
        right: &Modes,
        takes: F,
    ) -> Result<Modes, AllocError>
        requires { F.IsAlwaysCallable takes }
    {
        let pairs = self.held.iter().zip(right.held.iter());
        let held = pairs
            .map(|(left, right)| takes(*left, *right))
            .collect(heap)?;
        Ok(Modes { held })
    }

    // The modes in both sets.
    pub(crate) fn and(&self, heap: Global, right: &Modes) -> Result<Modes, AllocError> {
        self.joined(heap, right, |left, right| left && right)
    }

    // The modes in one set or the other.
    pub(crate) fn or(&self, heap: Global, right: &Modes) -> Result<Modes, AllocError> {
        self.joined(heap, right, |left, right| left || right)
    }
}
