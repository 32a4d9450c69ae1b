// How a change that was planned is made, without memory.
ghost use Rattle.std.specs.Prelude.{◌≡◌, ◌≢◌, ◌<◌, ◌≤◌, ◌^◌, is_some, length, true};
ghost use Rattle.ipe_machine.specs.Change.{Loads, done_by, entry_in};
ghost use Rattle.ipe_machine.specs.Policies.{Loaded};
ghost use Rattle.ipe_registry.specs.declared.change.Plan.TheVariants.{Ready};
ghost use Rattle.ipe_registry.specs.Change.{IsPlannedOn};
ghost use Rattle.ipe_gate_rule.specs.History.{active_slot, epoch_of};
ghost use Rattle.ipe_gate.specs.Seats.{IsBound, admin_seen, bound_slots};
ghost use Rattle.ipe_gate.specs.Slots.{slot_number};
ghost use Rattle.ipe_admin.specs.Agreement.{slot_in_force, slot_named};
ghost use Rattle.ipe_admin.specs.Changes.{IsBeginning, IsImageFor, IsLetGo, IsMade, IsPlaced, slot_left, slots_after};
ghost use Rattle.ipe_admin.specs.Outcomes.{policies_in};

use crate::Admin;
use crate::slots::Slots;
use ipe_gate::{GateAdmin, Slot};
use ipe_image::{Image, images_are_read_as_themselves};
use ipe_machine::{Done, commands_stay_or_begin};
use ipe_policy::Name;
use ipe_registry::{Change, Registry, Step};

impl Admin {
    // Makes a change that was planned on these very policies, with the image of the entry that it brings. The image is put
    // into a slot before the switch, and a slot that no policy has any more is let go of after it.
    pub(crate) fn make(&mut self, change: Change, image: Option<Image>) -> Done
        requires serial { (policies_in self.old).next < 2 ^ 63 }
        requires planned { IsPlannedOn (policies_in self.old) (Ready change) }
        requires image { IsImageFor (entry_in change) image }
        ensures made { IsMade change self.old self.new }
        ensures done { result ≡ done_by change }
    {
        commands_stay_or_begin();
        images_are_read_as_themselves();
        let raises = change.raises(&self.registry);
        let placed = place(&mut self.gate, image);
        let left = follow(&mut self.slots, &self.registry, &change, placed);
        let done = self.registry.commit(change);
        let slot = slot_in_force(&self.registry, &self.slots);
        let enforce = self.registry.enforce();
        let success = self.registry.success();
        begin(&mut self.gate, raises, slot, enforce, success);
        let_go(&mut self.gate, left);
        done
    }
}

// Puts the image, if there is one, into the first free slot.
fn place(gate: &mut GateAdmin, image: Option<Image>) -> Option<Slot>
    requires { bound_slots gate.old ≤ 32 }
    ensures placed { IsPlaced image gate.old gate.new (slot_number result) }
    ensures some { is_some result ≡ is_some image }
{
    match image {
        Some(image) => {
            prove!(image.words().len() <= 4096);
            Some(gate.place(&image))
        }
        None => None,
    }
}

// The slots after a change that isn't made yet, where the entry that it brings is in the slot `placed`. The slot that no
// policy has any more is given back.
fn follow(
    slots: &mut Slots,
    registry: &Registry,
    change: &Change,
    placed: Option<Slot>,
) -> Option<Slot>
    requires lengths { length slots.old ≡ length registry.now.loaded }
    requires room { (entry : Loaded) → change.now ≡ Loads entry → length slots.old < 32 }
    requires placed { is_some placed ≡ is_some (entry_in change.now) }
    ensures slots { slots.new ≡ slots_after registry.now slots.old (slot_number placed) change.now }
    ensures left { slot_number result ≡ slot_left registry.now slots.old (slot_number placed) change.now }
{
    match (change.step(), placed) {
        (Step::Load(_), Some(slot)) => {
            slots.push(slot);
            None
        }
        (Step::Update(entry), Some(slot)) => match registry.place(&entry.name) {
            Some(place) => Some(slots.replace(place, slot)),
            None => Some(slot),
        },
        (Step::Delete(name), _) => {
            let place = registry.place(name)?;
            Some(slots.remove(place))
        }
        _ => None,
    }
}

// The slot of the active policy.
fn slot_in_force(registry: &Registry, slots: &Slots) -> Option<Slot>
    requires { length slots.now ≡ length registry.now.loaded }
    ensures { slot_number result ≡ slot_in_force registry.now slots.now }
{
    match registry.active() {
        Some(name) => slot_named(registry, slots, name),
        None => None,
    }
}

// The slot of the policy of this name.
fn slot_named(registry: &Registry, slots: &Slots, name: &Name) -> Option<Slot>
    requires { length slots.now ≡ length registry.now.loaded }
    ensures { slot_number result ≡ slot_named name.now registry.now.loaded slots.now }
{
    match registry.place(name) {
        Some(place) => Some(slots.at(place)),
        None => None,
    }
}

// Switches to the slot where an epoch begins.
fn begin(gate: &mut GateAdmin, begins: bool, slot: Option<Slot>, enforce: bool, success: bool)
    requires room { begins ≡ true → epoch_of (admin_seen gate.old) < 65535 }
    requires bound { 0 < slot_number slot → IsBound gate.old (slot_number slot) }
    ensures { IsBeginning begins (slot_number slot) enforce success gate.old gate.new }
{
    if begins {
        gate.switch(slot, enforce, success);
    }
}

// Lets go of the slot, if there is one.
fn let_go(gate: &mut GateAdmin, slot: Option<Slot>)
    requires bound { 0 < slot_number slot → IsBound gate.old (slot_number slot) }
    requires other { 0 < slot_number slot → slot_number slot ≢ active_slot (admin_seen gate.old) }
    ensures { IsLetGo (slot_number slot) gate.old gate.new }
{
    if let Some(slot) = slot {
        gate.retire(slot);
    }
}
