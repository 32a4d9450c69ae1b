// The administrator and its calls.
ghost use Rattle.std.specs.Prelude.{◌≡◌, ◌≢◌, ◌<◌, ◌≤◌, [], ℕ, IsTrue, length, is_some, slice_index, slice_index_or, true, false};
ghost use Rattle.std.specs.Arc.{arc_value};
ghost use Rattle.ipe_image.specs.Reading.{image_in};
ghost use Rattle.ipe_gate_rule.specs.declared.view.Role.TheVariants.{Administrator};
ghost use Rattle.ipe_gate_rule.specs.Active.{packed_word};
ghost use Rattle.ipe_gate_rule.specs.History.{active_slot, content, epoch_of, out, switched_out};
ghost use Rattle.ipe_gate_rule.specs.Legal.{IsSound};
ghost use Rattle.ipe_gate_rule.specs.Regions.{BeginsWithImage};
ghost use Rattle.ipe_gate_rule.specs.Words.{table_words};
ghost use Rattle.ipe_gate_rule.proofs.Props.{sound_prop};

use crate::Slot;
use crate::table::{ENFORCE, EPOCH, GateTable, SLOT, SUCCESS};
use atomic_table::Seat;
use ipe_gate_rule::{ToLook, ToStore, ToSwitch, View};
use ipe_image::Image;
use std::alloc::Global;
use std::sync::Arc;

/// The administrator of a gate.
#[derive(Drop)]
pub struct GateAdmin {
    pub(crate) table: Arc<GateTable, Global>,
    pub(crate) seat: Seat<(), View>,
    pub(crate) passes: u32,
    pub(crate) epoch: u16,
    pub(crate) active: u32,
    pub(crate) sums: [u64; 64],
    pub(crate) bound: [bool; 64],
    pub ghost seated: { seat.table_id ≡ (arc_value table).shared.table_id },
    pub ghost wide: { (arc_value table).shared.table_id.words ≡ table_words },
    pub ghost plain: { seat.me.1 ≡ [] },
    pub ghost role: { seat.me.0.role ≡ Administrator passes },
    pub ghost sound: { IsSound seat.me.0.seen } by { sound_prop seat.me.0.seen },
    pub ghost epoch_is: { epoch ≡ epoch_of seat.me.0.seen },
    pub ghost active_is: { active ≡ active_slot seat.me.0.seen },
    pub ghost active_below: { active < 64 },
    pub ghost sums_len: { length sums ≡ 64 },
    pub ghost bound_len: { length bound ≡ 64 },
    pub ghost sums_are: { (k : ℕ) → k < 64 → slice_index sums k ≡ switched_out k seat.me.0.seen },
    pub ghost images: { (k : ℕ) → slice_index_or bound k false ≡ true →
        BeginsWithImage (λ i. content k i seat.me.0.seen) },
    pub ghost active_bound: { 0 < active → slice_index_or bound active false ≡ true },
}

/// What a switch finds: the epoch that ends, and how many claims were made in it.
#[derive(Debug, Drop)]
pub struct Old {
    pub epoch: u16,
    pub count: u64,
}

// ACTIVE with a count of 0.
fn fresh_word(epoch: u16, number: u32, enforce: bool, success: bool) -> u64
    requires { number < 64 }
    ensures { result ≡ packed_word 0 epoch number enforce success }
{
    let enforce = if enforce { ENFORCE } else { 0 };
    let success = if success { SUCCESS } else { 0 };
    u64::from(epoch) * EPOCH + u64::from(number) * SLOT + enforce + success
}

impl GateAdmin {
    ghost use Rattle.ipe_gate.specs.Slots.{bound_count, slot_number};
    ghost use Rattle.ipe_gate.specs.Seats.{IsBound, admin_seen, bound_slots};
    ghost use Rattle.ipe_gate.specs.Switching.{IsRetirement, IsSwitch};
    ghost use Rattle.ipe_gate.specs.Placing.{IsFound, IsLook, IsPlacement, IsStore};

    /// The present epoch: the number of switches.
    pub fn epoch(&self) -> u16
        ensures { result ≡ epoch_of (admin_seen self.now) }
    {
        self.epoch
    }

    /// The active slot, if one is.
    pub fn active(&self) -> Option<Slot>
        ensures { slot_number result ≡ active_slot (admin_seen self.now) }
    {
        Slot::of_number(self.active)
    }

    /// The number of bound slots: those that were placed and not retired.
    pub fn bound(&self) -> u32
        ensures { result ≡ bound_slots self.now }
    {
        let mut bound = 0;
        for is_bound in self.bound {
            if is_bound {
                bound += 1;
            }
        }
        bound
    }

    /// Makes a bound slot, or none, the active one, with these switches, by one atomic exchange.
    pub fn switch(&mut self, slot: Option<Slot>, enforce: bool, success: bool) -> Old
        requires room { epoch_of (admin_seen self.old) < 65535 }
        requires bound { 0 < slot_number slot → IsBound self.old (slot_number slot) }
        ensures { IsSwitch (slot_number slot) enforce success self.old self.new result }
    {
        let number = Slot::number_of(slot);
        let epoch = self.epoch + 1;
        let new = fresh_word(epoch, number, enforce, success);
        let found = self.table.shared.swap::<ToSwitch>(&mut self.seat, 0, new);
        let count = found % EPOCH;
        let old = Old {
            epoch: self.epoch,
            count,
        };
        self.sums[self.active as usize] += count;
        self.epoch = epoch;
        self.active = number;
        old
    }

    /// Lets go of a bound slot that isn't active: it can be placed again once every claim of it was returned.
    pub fn retire(&mut self, slot: Slot)
        requires bound { IsBound self.old slot.number }
        requires other { slot.number ≢ active_slot (admin_seen self.old) }
        ensures { IsRetirement slot.number self.old self.new }
    {
        self.bound[slot.number as usize] = false;
    }

    // Whether every claim of the slot was returned.
    fn look(&mut self, slot: u32) -> bool
        requires some { 0 < slot }
        requires below { slot < 64 }
        requires other { slot ≢ self.old.active }
        ensures { IsLook slot self.old self.new result }
    {
        let found = self
            .table
            .shared
            .load::<ToLook>(&mut self.seat, slot as usize);
        found == self.sums[slot as usize]
    }

    // The first slot that isn't bound and of which no claim is out. There is one, since at most 32 are bound, and at
    // most 30 passes hold one each.
    fn find(&mut self) -> u32
        requires { bound_count self.old.bound ≤ 32 }
        ensures { IsFound self.old self.new result }
    {
        for slot in 1..64 {
            if !self.bound[slot as usize] && self.look(slot) {
                return slot;
            }
        }
        unreachable!()
    }

    // Stores a word of the region of a slot of which no claim is out.
    fn store(&mut self, slot: u32, index: usize, word: u64)
        requires some { 0 < slot }
        requires below { slot < 64 }
        requires within { index < 4096 }
        requires other { slot ≢ self.old.active }
        requires free { out slot (admin_seen self.old) ≡ 0 }
        requires unbound { slice_index_or self.old.bound slot false ≡ false }
        ensures { IsStore slot index word self.old self.new }
    {
        let place = 64 + (slot as usize - 1) * 4096 + index;
        self.table
            .shared
            .store::<ToStore>(&mut self.seat, place, word);
    }

    // Stores words in the region of the first free slot, and binds it.
    fn place_words(&mut self, words: &[u64]) -> Slot
        requires room { bound_count self.old.bound ≤ 32 }
        requires short { length words.now ≤ 4096 }
        requires image { IsTrue (is_some (image_in words.now)) }
        ensures { IsPlacement self.old self.new result.number words.now }
    {
        let slot = self.find();
        for (index, word) in words.iter().enumerate() {
            self.store(slot, index, *word);
        }
        self.bound[slot as usize] = true;
        Slot { number: slot }
    }

    /// Binds the first slot, from 1 upwards, that isn't bound and of which every claim was returned, and stores the
    /// image in its region. It isn't active by that.
    pub fn place(&mut self, image: &Image) -> Slot
        requires { bound_slots self.old ≤ 32 }
        ensures { IsPlacement self.old self.new result.number image.now }
    {
        self.place_words(image.words())
    }
}
