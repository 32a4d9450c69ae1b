ghost use Rattle.std.specs.Prelude.{◌≡◌};

use crate::{Entry, Registry};
use ipe_machine::{Done, Refusal};
use ipe_policy::Name;
use std::marker::Model;

/// What a change does. An entry is put in under its own name.
#[derive(Debug, Drop)]
pub enum Step {
    Load(Entry),
    Update(Entry),
    Activate(Name),
    Delete(Name),
    Enforce(bool),
    SuccessAudit(bool),
}

/// A change of the policies that is planned whole, with the entry or the name that it needs, so that making it takes no
/// memory.
#[derive(Debug, Drop)]
pub struct Change {
    pub(crate) step: Step,
}

impl Model for Change {
    ghost use Rattle.ipe_machine.specs.Change as machine;
    ghost use Rattle.ipe_registry.specs.Step.{change_of_step};

    ghost Value = { machine.Change };

    ghost view = { change_of_step };
}

/// What a command comes to: a refusal, nothing to do, or a change.
#[derive(Debug, Drop)]
pub enum Plan {
    Refused(Refusal),
    Same(Done),
    Ready(Change),
}

impl Change {
    ghost use Rattle.std.specs.Prelude.{◌≡◌};
    ghost use Rattle.std.specs.Option.{option_copied};
    ghost use Rattle.ipe_machine.specs.Change.{done_by, entry_in, raises};
    ghost use Rattle.ipe_registry.specs.Step.{seen_step};

    /// What it does.
    pub fn step(&self) -> &Step
        ensures { seen_step result.now ≡ self.now }
    {
        &self.step
    }

    /// The entry that a load or an update brings.
    pub fn entry(&self) -> Option<&Entry>
        ensures { option_copied result ≡ entry_in self.now }
    {
        match &self.step {
            Step::Load(entry) | Step::Update(entry) => Some(entry),
            Step::Activate(_) | Step::Delete(_) | Step::Enforce(_) | Step::SuccessAudit(_) => None,
        }
    }

    /// The answer of `commit`.
    pub fn done(&self) -> Done
        ensures { result ≡ done_by self.now }
    {
        match &self.step {
            Step::Load(_) => Done::Loaded,
            Step::Update(_) => Done::Updated,
            Step::Activate(_) => Done::Activated,
            Step::Delete(_) => Done::Deleted,
            Step::Enforce(_) | Step::SuccessAudit(_) => Done::Changed,
        }
    }

    /// Whether the epoch rises where the change is made on these policies.
    pub fn raises(&self, registry: &Registry) -> bool
        ensures { result ≡ raises registry.now self.now }
    {
        match &self.step {
            Step::Update(entry) => registry.is_active(&entry.name),
            Step::Activate(_) | Step::Enforce(_) | Step::SuccessAudit(_) => true,
            Step::Load(_) | Step::Delete(_) => false,
        }
    }
}
