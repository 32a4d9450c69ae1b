// The administrator, and its calls but commands.
ghost use Rattle.std.specs.Prelude.{◌≡◌, ◌<◌, ◌≤◌, IfOk};
ghost use Rattle.ipe_gate.specs.Seats.{admin_gate, gate_of, slot_held};
ghost use Rattle.ipe_gate.specs.Meeting.{AreAllPasses, IsClosing, IsMeeting};
ghost use Rattle.ipe_admin.specs.Agreement.{Agrees};

use crate::slots::Slots;
use ipe_gate::{Closed, GateAdmin, Pass, start};
use ipe_registry::Registry;
use std::alloc::{AllocError, Global};

/// The administrator of a running gate.
#[derive(Drop)]
pub struct Admin {
    pub(crate) gate: GateAdmin,
    pub(crate) registry: Registry,
    pub(crate) slots: Slots,
    pub ghost agrees: { Agrees gate registry slots },
}

impl Admin {
    ghost use Rattle.ipe_admin.specs.Outcomes.{gate_in, policies_in};
    ghost use Rattle.ipe_admin.specs.Starting.{IsFirst};

    /// A gate, which takes about 2 MB, with its passes in the order of their numbers, from 0. No policy is loaded, denials
    /// are enforced, and what is allowed isn't recorded.
    pub fn start(alloc: Global, passes: u32) -> Result<(Admin, Vec<Pass>), AllocError>
        requires some { 0 < passes }
        requires few { passes ≤ 30 }
        ensures { IfOk result (λ made. IsFirst passes made.0 made.1.items) }
    {
        let registry = Registry::new(alloc)?;
        let slots = Slots::new(alloc)?;
        let (gate, all) = start(alloc, passes)?;
        let admin = Admin {
            gate,
            registry,
            slots,
        };
        Ok((admin, all))
    }

    /// The policies that are loaded, the switches and the epoch.
    pub fn registry(&self) -> &Registry
        ensures { result.now ≡ policies_in self.now }
    {
        &self.registry
    }

    /// Afterwards the administrator and the pass have each seen all that either had seen.
    pub fn meet(&mut self, pass: &mut Pass)
        requires gate { gate_of pass.old ≡ admin_gate (gate_in self.old) }
        requires free { slot_held pass.old ≡ 0 }
        ensures met { IsMeeting pass.old pass.new (gate_in self.old) (gate_in self.new) }
        ensures policies { policies_in self.new ≡ policies_in self.old }
    {
        self.gate.meet(pass);
    }

    /// Ends the gate, with all its passes in the order of their numbers, none of which holds a slot.
    pub fn close(self, passes: Vec<Pass>) -> Closed
        requires { AreAllPasses (gate_in self) passes.items }
        ensures { IsClosing (gate_in self) passes.items result }
    {
        self.gate.close(passes)
    }
}
