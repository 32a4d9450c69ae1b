// The commands of an administrator.
ghost use Rattle.std.specs.Prelude.{◌≡◌, ◌<◌, ◌^◌, IfOk, IsTrue, OnErr, Ok};
ghost use Rattle.std.specs.Option.{option_copied};
ghost use Rattle.ipe_machine.specs.Change.{entry_in};
ghost use Rattle.ipe_admin.specs.Changes.{IsImageFor};
ghost use Rattle.ipe_admin.specs.Outcomes.{IsOutcome, policies_in};

use crate::{Admin, Outcome};
use ipe_audit::Lines;
use ipe_image::Image;
use ipe_machine::{Command, Done, Refusal};
use ipe_records::{command_records, image_of};
use ipe_registry::{Change, Plan};
use ipe_signer::Signer;
use std::alloc::{AllocError, Global};

impl Admin {
    /// Carries out a command, or refuses it. All memory is taken before the first step on the gate, and after out of memory
    /// nothing is changed. Only a command of one who may administer may meet that.
    pub fn command<S: Signer>(
        &mut self,
        alloc: Global,
        signer: &S,
        command: &Command,
    ) -> Result<Outcome, AllocError>
        requires { (policies_in self.old).next < 2 ^ 63 }
        ensures ok { IfOk result (IsOutcome (S.verdict_of signer.now) (Ok command.now) self.old self.new) }
        ensures err { OnErr result (self.new ≡ self.old) }
        ensures memory { OnErr result (IsTrue command.now.may) }
    {
        let plan = self.registry.plan(alloc, signer, command)?;
        let records = command_records(alloc, &self.registry, &plan)?;
        match plan {
            Plan::Refused(refusal) => Ok(self.outcome(Err(refusal), records)),
            Plan::Same(done) => Ok(self.outcome(Ok(done), records)),
            Plan::Ready(change) => {
                let image = image_for(alloc, &change)?;
                let done = self.make(change, image);
                Ok(self.outcome(Ok(done), records))
            }
        }
    }

    // An answer with these records, and the present epoch.
    pub(crate) fn outcome(&self, reply: Result<Done, Refusal>, records: Lines) -> Outcome
        ensures epoch { result.epoch ≡ (policies_in self.now).epoch }
        ensures reply { result.reply ≡ reply }
        ensures records { result.records ≡ records }
    {
        Outcome {
            epoch: self.registry.epoch(),
            reply,
            records,
        }
    }
}

// The image of the entry that a change brings.
fn image_for(alloc: Global, change: &Change) -> Result<Option<Image>, AllocError>
    ensures { IfOk result (IsImageFor (entry_in change.now)) }
{
    match change.entry() {
        Some(entry) => Ok(Some(image_of(alloc, entry)?)),
        None => Ok(None),
    }
}
