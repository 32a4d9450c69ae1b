ghost use Rattle.std.specs.Prelude.{◌≡◌, ◌<◌, ◌^◌, IsTrue, Some, is_some};
ghost use Rattle.ipe_policy.specs.Request.{evaluated_op};
ghost use Rattle.ipe_image.specs.Answer.{IsAnswer};
ghost use Rattle.ipe_image.specs.Parts.{ImageParts};
ghost use Rattle.ipe_image.specs.Reading.{image_in};
ghost use Rattle.ipe_machine.specs.Machine.{denies};
ghost use Rattle.ipe_gate.specs.Seats.{calls_made, slot_held, words_held};
ghost use Rattle.ipe_gate.specs.Claims.{IsReturn};
ghost use Rattle.ipe_hooks.specs.Rulings.{found_in, ruling_on};
ghost use Rattle.ipe_hooks.specs.Hooks.{IsHook, IsHookFor};

use ipe_gate::{Claimed, Pass};
use ipe_gate_rule::active_slot_has_image;
use ipe_image::{Hit, Place, Ruling, decide_words};
use ipe_policy::{Action, Context, Op, Request};

/// The number of a denial, `EACCES`, as a hook answers it.
const DENIED: i32 = -13;

/// The gate's ruling on a request. One that isn't evaluated is allowed without a step. Any other claims the active
/// policy, is ruled by it as it was at that claim, and returns it; where no policy is active it is allowed.
pub fn hook(pass: &mut Pass, request: &Request, context: &Context) -> Ruling
    requires free { slot_held pass.old ≡ 0 }
    requires few { calls_made pass.old < 2 ^ 35 }
    ensures { IsHookFor (evaluated_op request.now) pass.old pass.new context.now result }
{
    match request.op() {
        None => Ruling {
            code: 0,
            place: None,
            hit: None,
            enforce: false,
            record_due: false,
        },
        Some(op) => evaluate(pass, op, context),
    }
}

// The ruling on a request that is evaluated as this operation.
fn evaluate(pass: &mut Pass, op: Op, context: &Context) -> Ruling
    requires free { slot_held pass.old ≡ 0 }
    requires few { calls_made pass.old < 2 ^ 35 }
    ensures { IsHook pass.old pass.new op context.now result }
{
    let claimed = pass.claim();
    if claimed.slot.is_none() {
        return rule(&claimed, None);
    }
    active_slot_has_image();
    let hit = decide_and_return(pass, op, context);
    rule(&claimed, Some(hit))
}

// Decides by the image in the slot that the pass holds, and returns the slot.
fn decide_and_return(pass: &mut Pass, op: Op, context: &Context) -> Hit
    requires held { 0 < slot_held pass.old }
    requires image { IsTrue (is_some (image_in (words_held pass.old))) }
    ensures returned { IsReturn pass.old pass.new }
    ensures answer { (parts : ImageParts) → image_in (words_held pass.old) ≡ Some parts →
        IsAnswer parts op context.now result }
{
    let hit = decide_words(pass, op, context);
    pass.release();
    hit
}

// Whether what was decided denies.
fn denies(hit: &Option<Hit>) -> bool
    ensures { result ≡ denies (found_in hit.now) }
{
    match hit {
        Some(hit) => hit.found.action == Action::Deny,
        None => false,
    }
}

// The ruling at a claim, by what was decided there.
fn rule(claimed: &Claimed, hit: Option<Hit>) -> Ruling
    ensures { result ≡ ruling_on claimed.now.epoch claimed.now.count claimed.now.enforce claimed.now.success hit }
{
    let denied = denies(&hit);
    Ruling {
        code: if denied && claimed.enforce { DENIED } else { 0 },
        place: Some(Place {
            epoch: claimed.epoch,
            count: claimed.count,
        }),
        record_due: hit.is_some() && (denied || claimed.success),
        enforce: claimed.enforce,
        hit,
    }
}
