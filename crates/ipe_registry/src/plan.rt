ghost use Rattle.std.specs.Prelude.{◌≡◌, ◌<◌, ◌≤◌, ◌^◌, IfOk, OnErr, IsTrue};
ghost use Rattle.sha2.specs.Sha256.{sha256};
ghost use Rattle.ipe_policy.specs.Spelling.{words_of_image};
ghost use Rattle.ipe_parse.specs.Reading.{reading};
ghost use Rattle.ipe_machine.specs.Policies.{active_entry, entry_version};
ghost use Rattle.ipe_machine.specs.Answer.{act_answer, answer_by, activation_cases, deletion_cases, switch_cases};
ghost use Rattle.ipe_registry.specs.Change.{IsPlan};
ghost use Rattle.ipe_registry.specs.Step.{seen_step};
ghost use Rattle.ipe_registry.specs.Parts.{IsPlanOf, IsTaken, addition_answer, replacement_answer};

use crate::change::Step;
use crate::registry::MOST_LOADED;
use crate::{Change, Entry, Plan, Registry};
use ipe_machine::{Act, Command, Done, Refusal, Text, Value};
use ipe_parse::{BadText, ParseError, parse};
use ipe_policy::{Name, Policy, Version, image_words};
use ipe_signer::{Purpose, Signer, Verdict};
use sha2::{Digest, Sha256};
use std::alloc::{AllocError, Global};

/// The most bytes of a policy's text, and the most words of its image.
const MOST_TEXT: usize = 1_048_576;

const MOST_WORDS: u64 = 4096;

const LAST_EPOCH: u16 = u16::MAX;

const LOWEST: Version = Version {
    major: 0,
    minor: 0,
    rev: 0,
};

// The policy that a text brings with the text's digest, or the first refusal that the text alone meets.
fn taken<S: Signer>(
    alloc: Global,
    signer: &S,
    text: &[u8],
) -> Result<Result<(Policy, [u8; 32]), Refusal>, AllocError>
    ensures { IfOk result (IsTaken (S.verdict_of signer.now) text.now) }
{
    if text.len() > MOST_TEXT {
        return Ok(Err(Refusal::TooBig));
    }
    let digest = Sha256::digest(text);
    match signer.verdict(Purpose::Policy, &digest) {
        Verdict::Revoked => return Ok(Err(Refusal::Rejected)),
        Verdict::Unknown => return Ok(Err(Refusal::NoKey)),
        Verdict::Trusted => {}
    }
    match parse(alloc, text) {
        Ok(policy) => {
            let words = image_words(&policy);
            if words > MOST_WORDS {
                return Ok(Err(Refusal::TooWide { words }));
            }
            Ok(Ok((policy, digest)))
        }
        Err(ParseError::Bad { line, kind }) => {
            Ok(Err(Refusal::BadPolicy(BadText::Bad { line, kind })))
        }
        Err(ParseError::NoDefault { missing }) => {
            Ok(Err(Refusal::BadPolicy(BadText::NoDefault { missing })))
        }
        Err(ParseError::NoMemory) => Err(AllocError),
    }
}

fn ready(step: Step) -> Plan
    ensures { result ≡ Plan.Ready (seen_step step) }
{
    Plan::Ready(Change { step })
}

impl Registry {
    /// What a command comes to on the policies as they are. Nothing is changed. Memory may run out at a command of one
    /// who may administer.
    #[tactic(auto, using(crate::proofs::Plans::planned, crate::proofs::Plans::planned_ok))]
    pub fn plan<S: Signer>(
        &self,
        alloc: Global,
        signer: &S,
        command: &Command,
    ) -> Result<Plan, AllocError>
        requires { self.now.next < 2 ^ 63 }
        ensures plan { IfOk result (IsPlan (S.verdict_of signer.now) self.now command.now) }
        ensures memory { OnErr result (IsTrue command.now.may) }
    {
        if !command.may {
            return Ok(Plan::Refused(Refusal::NotPermitted));
        }
        match &command.act {
            Act::Load(text) => self.plan_load(alloc, signer, text),
            Act::Update(name, text) => self.plan_update(alloc, signer, name, text),
            Act::Activate(name, wanted) => self.plan_activation(name, *wanted),
            Act::Delete(name, wanted) => self.plan_deletion(name, *wanted),
            Act::Enforce(wanted) => Ok(self.plan_enforce(*wanted)),
            Act::SuccessAudit(wanted) => Ok(self.plan_success(*wanted)),
        }
    }

    fn plan_load<S: Signer>(
        &self,
        alloc: Global,
        signer: &S,
        text: &Text,
    ) -> Result<Plan, AllocError>
        requires { self.now.next < 2 ^ 63 }
        ensures { IfOk result (IsPlanOf self.now (Act.Load text.now)
            (act_answer (S.verdict_of signer.now) self.now (Act.Load text.now))) }
    {
        match taken(alloc, signer, text.as_slice())? {
            Ok(brought) => {
                let (policy, digest) = brought;
                self.plan_addition(alloc, text, policy, digest)
            }
            Err(refusal) => Ok(Plan::Refused(refusal)),
        }
    }

    // The rest of a load, of a text that brings this policy.
    fn plan_addition(
        &self,
        alloc: Global,
        text: &Text,
        policy: Policy,
        digest: [u8; 32],
    ) -> Result<Plan, AllocError>
        requires serial { self.now.next < 2 ^ 63 }
        requires digest { digest ≡ sha256 text.now }
        requires policy { reading text.now ≡ Ok policy }
        requires fits { words_of_image policy.items ≤ 4096 }
        ensures { IfOk result (IsPlanOf self.now (Act.Load text.now) (addition_answer self.now policy)) }
    {
        if self.entry(&policy.name).is_some() {
            return Ok(Plan::Refused(Refusal::Exists));
        }
        if self.entries.len() >= MOST_LOADED {
            return Ok(Plan::Refused(Refusal::NoSpace));
        }
        let entry = Entry::new(alloc, self.next, text.as_slice(), digest, policy)?;
        Ok(ready(Step::Load(entry)))
    }

    #[tactic(auto, using(crate::proofs::Plans::update_taken))]
    fn plan_update<S: Signer>(
        &self,
        alloc: Global,
        signer: &S,
        name: &Name,
        text: &Text,
    ) -> Result<Plan, AllocError>
        requires { self.now.next < 2 ^ 63 }
        ensures { IfOk result (IsPlanOf self.now (Act.Update name.now text.now)
            (act_answer (S.verdict_of signer.now) self.now (Act.Update name.now text.now))) }
    {
        let Some(entry) = self.entry(name) else {
            return Ok(Plan::Refused(Refusal::NoEntry));
        };
        let present = entry.version;
        match taken(alloc, signer, text.as_slice())? {
            Ok(brought) => {
                let (policy, digest) = brought;
                self.plan_replacement(alloc, name, present, text, policy, digest)
            }
            Err(refusal) => Ok(Plan::Refused(refusal)),
        }
    }

    // The rest of an update, of a name at this version and a text that brings this policy.
    fn plan_replacement(
        &self,
        alloc: Global,
        name: &Name,
        present: Version,
        text: &Text,
        policy: Policy,
        digest: [u8; 32],
    ) -> Result<Plan, AllocError>
        requires serial { self.now.next < 2 ^ 63 }
        requires digest { digest ≡ sha256 text.now }
        requires policy { reading text.now ≡ Ok policy }
        requires fits { words_of_image policy.items ≤ 4096 }
        ensures { IfOk result (IsPlanOf self.now (Act.Update name.now text.now)
            (replacement_answer self.now name.now present policy)) }
    {
        if policy.name.as_slice() != name.as_slice() {
            return Ok(Plan::Refused(Refusal::OtherName));
        }
        let offered = policy.version;
        if offered.packed() < present.packed() {
            return Ok(Plan::Refused(Refusal::Stale { present, offered }));
        }
        if self.is_active(name) && self.epoch == LAST_EPOCH {
            return Ok(Plan::Refused(Refusal::EpochFull));
        }
        let entry = Entry::new(alloc, self.next, text.as_slice(), digest, policy)?;
        Ok(ready(Step::Update(entry)))
    }

    fn plan_activation(&self, name: &Name, wanted: Value) -> Result<Plan, AllocError>
        ensures { IfOk result (IsPlanOf self.now (Act.Activate name.now wanted)
            (answer_by (activation_cases self.now name.now wanted) Done.Activated)) }
    {
        if wanted != Value::True {
            return Ok(Plan::Refused(Refusal::BadValue));
        }
        let found = self.entry(name);
        let Some(entry) = found else {
            return Ok(Plan::Refused(Refusal::NoEntry));
        };
        if self.is_active(name) {
            return Ok(Plan::Same(Done::AlreadyActive));
        }
        let offered = entry.version;
        let present = self.active_version();
        let stale = offered.packed() < present.packed();
        if stale {
            return Ok(Plan::Refused(Refusal::Stale { present, offered }));
        }
        if self.epoch == LAST_EPOCH {
            return Ok(Plan::Refused(Refusal::EpochFull));
        }
        Ok(ready(Step::Activate(name.clone()?)))
    }

    // The version of the active policy, or the lowest where none is active.
    fn active_version(&self) -> Version
        ensures { result ≡ entry_version (active_entry self.now) }
    {
        match self.active_entry() {
            Some(active) => active.version,
            None => LOWEST,
        }
    }

    fn plan_deletion(&self, name: &Name, wanted: Value) -> Result<Plan, AllocError>
        ensures { IfOk result (IsPlanOf self.now (Act.Delete name.now wanted)
            (answer_by (deletion_cases self.now name.now wanted) Done.Deleted)) }
    {
        if wanted != Value::True {
            return Ok(Plan::Refused(Refusal::BadValue));
        }
        if self.entry(name).is_none() {
            return Ok(Plan::Refused(Refusal::NoEntry));
        }
        let active = self.is_active(name);
        if active {
            return Ok(Plan::Refused(Refusal::IsActive));
        }
        Ok(ready(Step::Delete(name.clone()?)))
    }

    fn plan_enforce(&self, wanted: Value) -> Plan
        ensures { IsPlanOf self.now (Act.Enforce wanted)
            (answer_by (switch_cases self.now self.now.enforce wanted) Done.Changed) result }
    {
        let on = match wanted {
            Value::True => true,
            Value::False => false,
            Value::Bad => return Plan::Refused(Refusal::BadValue),
        };
        if on == self.enforce {
            return Plan::Same(Done::Same);
        }
        if self.epoch == LAST_EPOCH {
            return Plan::Refused(Refusal::EpochFull);
        }
        ready(Step::Enforce(on))
    }

    fn plan_success(&self, wanted: Value) -> Plan
        ensures { IsPlanOf self.now (Act.SuccessAudit wanted)
            (answer_by (switch_cases self.now self.now.success wanted) Done.Changed) result }
    {
        let on = match wanted {
            Value::True => true,
            Value::False => false,
            Value::Bad => return Plan::Refused(Refusal::BadValue),
        };
        if on == self.success {
            return Plan::Same(Done::Same);
        }
        if self.epoch == LAST_EPOCH {
            return Plan::Refused(Refusal::EpochFull);
        }
        ready(Step::SuccessAudit(on))
    }
}
