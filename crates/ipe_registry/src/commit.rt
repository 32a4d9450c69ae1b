ghost use Rattle.std.specs.Prelude.{◌≡◌, ◌<◌, ◌^◌};
ghost use Rattle.ipe_machine.specs.Change.{done_by, made};
ghost use Rattle.ipe_registry.specs.declared.change.Plan.TheVariants.{Ready};
ghost use Rattle.ipe_registry.specs.Change.{IsPlannedOn};

use crate::change::Step;
use crate::registry::place_of;
use crate::{Change, Registry};
use ipe_machine::Done;

impl Registry {
    /// Makes a change that was planned on these very policies.
    pub fn commit(&mut self, change: Change) -> Done
        requires serial { self.old.next < 2 ^ 63 }
        requires planned { IsPlannedOn self.old (Ready change) }
        ensures after { self.new ≡ made self.old change }
        ensures done { result ≡ done_by change }
    {
        let done = change.done();
        if change.raises(self) {
            self.epoch += 1;
        }
        match change.step {
            Step::Load(entry) => {
                // Room for each entry was made at the start.
                let _ = self.entries.push(entry);
                self.next += 1;
            }
            Step::Update(entry) => {
                if let Some(place) = place_of(&self.entries, &entry.name) {
                    self.entries[place] = entry;
                }
                self.next += 1;
            }
            Step::Activate(name) => self.active = Some(name),
            Step::Delete(name) => {
                if let Some(place) = place_of(&self.entries, &name) {
                    self.entries.remove(place);
                }
            }
            Step::Enforce(on) => self.enforce = on,
            Step::SuccessAudit(on) => self.success = on,
        }
        done
    }
}
