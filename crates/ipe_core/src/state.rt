ghost use Rattle.std.specs.Prelude.{◌≡◌, ◌≤◌, IfOk};

use ipe_machine::{Event, Place};
use ipe_registry::Registry;
use std::alloc::{AllocError, Global};
use std::marker::Model;

/// The machine's state: the policies, the claims of the present epoch, and the serial that each pass holds.
#[derive(Debug, Drop)]
pub struct State {
    pub(crate) registry: Registry,
    pub(crate) count: u64,
    pub(crate) held: Vec<Option<u64>>,
}

impl Model for State {
    ghost use Rattle.ipe_machine.specs.Machine.{Machine};

    ghost Value = { Machine };

    ghost view = { λ s. record { policies = s.registry; count = s.count; held = s.held.items } };
}

const LAST_SERIAL: u64 = 1 << 63;

const MOST_CLAIMS: u64 = 1 << 40;

impl State {
    ghost use Rattle.std.specs.Prelude.{◌≡◌, ◌≤◌, IfOk};
    ghost use Rattle.ipe_machine.specs.Machine.{first_machine, is_allowed, next_place};

    /// The first state, with 1 to 30 passes that hold nothing.
    pub fn new(alloc: Global, passes: u32) -> Result<State, AllocError>
        requires some { 1 ≤ passes }
        requires few { passes ≤ 30 }
        ensures { IfOk result (λ state. state ≡ first_machine passes) }
    {
        Ok(State {
            registry: Registry::new(alloc)?,
            count: 0,
            held: vec![in alloc; None; passes as usize]?,
        })
    }

    /// Whether the event may come now.
    pub fn allows(&self, event: &Event) -> bool
        ensures { result ≡ is_allowed self.now event.now }
    {
        match event {
            Event::Command(_) => self.registry.next_serial() < LAST_SERIAL,
            Event::Claim { pass, .. } => {
                self.count < MOST_CLAIMS && matches!(self.held.get(*pass as usize), Some(None))
            }
            Event::Return { pass } => matches!(self.held.get(*pass as usize), Some(Some(_))),
        }
    }

    // The place of the next claim.
    pub(crate) fn place(&self) -> Place
        ensures { result ≡ next_place self.now }
    {
        Place {
            epoch: self.registry.epoch(),
            count: self.count,
        }
    }

    /// The loaded policies and what else the commands act on.
    pub fn registry(&self) -> &Registry
        ensures { result.now ≡ self.now.policies }
    {
        &self.registry
    }
}
