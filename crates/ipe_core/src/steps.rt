ghost use Rattle.std.specs.Prelude.{◌≡◌, ◌<◌, ◌^◌, IsTrue, IfOk, None, OnErr, slice_get, slice_set};
ghost use Rattle.ipe_policy.specs.Request.{evaluated_op};
ghost use Rattle.ipe_machine.specs.Policies.{active_entry};
ghost use Rattle.ipe_machine.specs.Answer.{after};
ghost use Rattle.ipe_machine.specs.Machine.{is_allowed, is_free, is_holding, outcome_of, reply_to, after_event, with_policies, ruling_for, ruling_at, ruling_by, after_claim, due_for};
ghost use Rattle.ipe_registry.specs.Change.{IsPlannedOn, answer_in, planned};
ghost use Rattle.ipe_core.specs.Memory.{wants_memory};

use crate::State;
use ipe_machine::{Command, CoreOutcome, CoreRuling, Event, Reply};
use ipe_policy::{Action, Context, Op, Request, decide};
use ipe_registry::{Entry, Plan};
use ipe_signer::Signer;
use std::alloc::{AllocError, Global};

/// The number of a denial, `EACCES`, as a hook answers it.
const DENIED: i32 = -13;

/// One step of the machine. Only a command of one who may administer may want memory, and then nothing is changed.
pub fn step<S: Signer>(
    alloc: Global,
    signer: &S,
    state: &mut State,
    event: &Event,
) -> Result<Reply, AllocError>
    requires { IsTrue (is_allowed state.old event.now) }
    ensures reply { IfOk result (λ reply. reply ≡ reply_to (S.verdict_of signer.now) state.old event.now) }
    ensures after { IfOk result (λ _. state.new ≡ after_event (S.verdict_of signer.now) state.old event.now) }
    ensures err { OnErr result (state.new ≡ state.old) }
    ensures memory { OnErr result (IsTrue (wants_memory event.now)) }
{
    match event {
        Event::Command(command) => {
            let outcome = run_command(alloc, signer, state, command)?;
            Ok(Reply::Command(outcome))
        }
        Event::Claim {
            pass,
            request,
            context,
            ..
        } => Ok(Reply::Claimed(claim(state, *pass, request, context))),
        Event::Return { pass } => {
            give_back(state, *pass);
            Ok(Reply::Returned)
        }
    }
}

fn run_command<S: Signer>(
    alloc: Global,
    signer: &S,
    state: &mut State,
    command: &Command,
) -> Result<CoreOutcome, AllocError>
    requires { state.old.policies.next < 2 ^ 63 }
    ensures reply { IfOk result (λ outcome. outcome ≡ outcome_of (S.verdict_of signer.now) state.old command.now) }
    ensures after { IfOk result (λ _. state.new
        ≡ with_policies state.old (after (S.verdict_of signer.now) state.old.policies command.now)) }
    ensures err { OnErr result (state.new ≡ state.old) }
    ensures memory { OnErr result (IsTrue command.now.may) }
{
    let plan = state.registry.plan(alloc, signer, command)?;
    Ok(commit(state, plan))
}

/// Does what was planned on this very state (`State::registry` has `plan`), which takes no memory and can't be refused.
/// Where the epoch rises, no claim is counted in it yet.
pub fn commit(state: &mut State, plan: Plan) -> CoreOutcome
    requires serial { state.old.policies.next < 2 ^ 63 }
    requires planned { IsPlannedOn state.old.policies plan }
    ensures reply { result.reply ≡ answer_in plan }
    ensures epoch { result.epoch ≡ (planned state.old.policies plan).epoch }
    ensures after { state.new ≡ with_policies state.old (planned state.old.policies plan) }
{
    let before = state.registry.epoch();
    let reply = match plan {
        Plan::Refused(refusal) => Err(refusal),
        Plan::Same(done) => Ok(done),
        Plan::Ready(change) => Ok(state.registry.commit(change)),
    };
    let epoch = state.registry.epoch();
    if epoch != before {
        state.count = 0;
    }
    CoreOutcome { epoch, reply }
}

/// Rules on a request. One that is evaluated is counted, and by it the pass holds the active policy.
pub fn claim(state: &mut State, pass: u32, request: &Request, context: &Context) -> CoreRuling
    requires free { IsTrue (is_free (slice_get state.old.held pass)) }
    requires few { state.old.count < 2 ^ 40 }
    ensures ruling { result ≡ ruling_for state.old (evaluated_op request.now) context.now }
    ensures due { result.record_due
        ≡ due_for state.old.policies (evaluated_op request.now) (active_entry state.old.policies) context.now }
    ensures after { state.new ≡ after_claim state.old pass (evaluated_op request.now) }
{
    match request.op() {
        None => CoreRuling {
            code: 0,
            place: None,
            serial: None,
            found: None,
            enforce: false,
            record_due: false,
        },
        Some(op) => {
            let ruling = ruling_at(state, op, context);
            state.count += 1;
            if let Some(serial) = ruling.serial {
                state.held[pass as usize] = Some(serial);
            }
            ruling
        }
    }
}

/// Returns what a pass holds.
pub fn give_back(state: &mut State, pass: u32)
    requires { IsTrue (is_holding (slice_get state.old.held pass)) }
    ensures { state.new ≡ record state.old { held = slice_set state.old.held pass None } }
{
    state.held[pass as usize] = None;
}

// The ruling on a request that is evaluated, at the state before it is counted.
fn ruling_at(state: &State, op: Op, context: &Context) -> CoreRuling
    ensures { result ≡ ruling_at state.now (active_entry state.now.policies) op context.now }
{
    match state.registry.active_entry() {
        None => CoreRuling {
            code: 0,
            place: Some(state.place()),
            serial: None,
            found: None,
            enforce: state.registry.enforce(),
            record_due: false,
        },
        Some(entry) => ruling_by(state, entry, op, context),
    }
}

// The ruling by a policy.
fn ruling_by(state: &State, entry: &Entry, op: Op, context: &Context) -> CoreRuling
    ensures { result ≡ ruling_by state.now entry.now op context.now }
{
    let found = decide(&entry.policy, op, context);
    let denied = found.action == Action::Deny;
    let enforce = state.registry.enforce();
    CoreRuling {
        code: if denied && enforce { DENIED } else { 0 },
        place: Some(state.place()),
        serial: Some(entry.serial),
        found: Some(found),
        enforce,
        record_due: denied || state.registry.success(),
    }
}
