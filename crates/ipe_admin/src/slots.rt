ghost use Rattle.std.specs.Prelude.{◌≡◌, ◌<◌, ◌++◌, ◌∷◌, [], IfOk, length, remove, slice_index, slice_set};

use ipe_gate::Slot;
use std::alloc::{AllocError, Global};
use std::marker::Model;

/// The most slots: each loaded policy has one.
const MOST_SLOTS: usize = 32;

/// The slot of each loaded policy, in their order.
#[derive(Debug, Drop)]
pub(crate) struct Slots {
    slots: Vec<Slot>,
}

impl Model for Slots {
    ghost use Rattle.std.specs.Prelude.{◌≤◌, List, ℕ, length, vec_capacity};
    ghost use Rattle.ipe_admin.specs.Slots.{numbers_in};

    ghost Value = { List ℕ };

    ghost view = { numbers_in };

    ghost invariant = { λ s. (length s.slots.items ≤ 32) × (32 ≤ vec_capacity s.slots) };
}

impl Slots {
    /// No slots, with room for 32.
    pub(crate) fn new(alloc: Global) -> Result<Slots, AllocError>
        ensures { IfOk result (λ slots. slots ≡ []) }
    {
        Ok(Slots {
            slots: Vec::with_capacity(alloc, MOST_SLOTS)?,
        })
    }

    pub(crate) fn at(&self, place: usize) -> Slot
        requires { place < length self.now }
        ensures { result.number ≡ slice_index self.now place }
    {
        self.slots[place]
    }

    pub(crate) fn push(&mut self, slot: Slot)
        requires { length self.old < 32 }
        ensures { self.new ≡ self.old ++ slot.number ∷ [] }
    {
        // Room for each slot was made at the start.
        let _ = self.slots.push(slot);
    }

    /// Puts a slot in the place of another, which is given back.
    pub(crate) fn replace(&mut self, place: usize, slot: Slot) -> Slot
        requires { place < length self.old }
        ensures slots { self.new ≡ slice_set self.old place slot.number }
        ensures old { result.number ≡ slice_index self.old place }
    {
        let old = self.slots[place];
        self.slots[place] = slot;
        old
    }

    pub(crate) fn remove(&mut self, place: usize) -> Slot
        requires { place < length self.old }
        ensures slots { self.new ≡ remove self.old place }
        ensures old { result.number ≡ slice_index self.old place }
    {
        self.slots.remove(place)
    }
}
