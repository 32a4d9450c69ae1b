ghost use Rattle.std.specs.Prelude.{◌≡◌, ℕ, IfOk, OnErr, take};
ghost use Rattle.ipe_machine.specs.Run.{replies, after_all, IsLegal};

use crate::{State, step};
use ipe_machine::{Events, Replies, runs_go_on};
use ipe_signer::Signer;
use std::alloc::{AllocError, Global};

/// The replies to events, one after another. Where memory runs out, the state is that after some first events.
pub fn run_events<S: Signer>(
    alloc: Global,
    signer: &S,
    state: &mut State,
    events: &Events,
) -> Result<Replies, AllocError>
    requires { IsLegal (S.verdict_of signer.now) state.old events.now }
    ensures replies { IfOk result (λ found. found ≡ replies (S.verdict_of signer.now) state.old events.now) }
    ensures after { IfOk result (λ _. state.new ≡ after_all (S.verdict_of signer.now) state.old events.now) }
    ensures err { OnErr result ((k : ℕ)
        × (state.new ≡ after_all (S.verdict_of signer.now) state.old (take k events.now))) }
{
    runs_go_on();
    let mut found = Vec::new(alloc);
    for event in events.as_slice() {
        let reply = step(alloc, signer, state, event)?;
        found.push(reply)?;
    }
    Ok(Replies::from_vec(found))
}
