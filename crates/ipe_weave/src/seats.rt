ghost use Rattle.ipe_gate_rule.specs.History.{GoesOnFrom, active_slot};
ghost use Rattle.ipe_gate_rule.specs.Owners.{administrator_events, is_switch, own_events};
ghost use Rattle.ipe_gate_rule.specs.declared.event.Event.TheVariants.{Claim, Return};
ghost use Rattle.ipe_machine.specs.Policies.{Policies};
ghost use Rattle.ipe_hooks.specs.Hooks.{IsHook};
ghost use Rattle.ipe_hooks.specs.Law.{machine_ruling};
ghost use Rattle.ipe_weave.specs.Acts.{Since};
ghost use Rattle.ipe_weave.specs.Gate.{gate_basis, image_at, ruling_by_image};
ghost use Rattle.ipe_weave.specs.Lines.{Acted, task_in};
ghost use Rattle.ipe_weave.specs.Phases.{PhaseRan, PhasesRan};
ghost use Rattle.ipe_weave.specs.Seats.{AdminRan, Closes, PhaseMet, PhasesDone, WorkerRan, policies_through};
ghost use Rattle.ipe_weave.specs.Standing.{AnsweredBy, BeginsWith, ClaimedAt, IsIdle, is_active, policies_then, raised};
ghost use Rattle.std.specs.List.{AllZip};
ghost use Rattle.std.specs.Prelude.{◌≡◌, ◌++◌, ◌∷◌, [], List, false, map, true};

use ipe_image::images_are_read_as_themselves;
use ipe_machine::commands_stay_or_begin;

/// A hook on a request that is evaluated is ruled as a claim is where it made its own, by the image in the slot that is
/// active there. This call and the others here do nothing: their contracts are laws.
pub fn hooks_are_ruled_at_their_claims()
    ensures { (p : _) (q : _) (op : _) (context : _) (ruling : _) (is : IsHook p q op context ruling) →
        machine_ruling ruling ≡ ruling_by_image is.before (image_at (active_slot is.before) is.before) op context }
{}

/// What one more step or line adds to a worker's lines of a phase, on the gate: nothing ran at first; a hook that is
/// evaluated is answered at its claim; a return leaves what ran; a hook that isn't evaluated makes no step.
pub fn workers_run_one_more()
    ensures starts { (verdicts : _) (p : _) (first : _) → WorkerRan (gate_basis verdicts) p first first [] }
    ensures claims { (verdicts : _) (p : _) (first : _) (old : _) (before : _) (entries : _) (entry : Acted) →
        WorkerRan (gate_basis verdicts) p first old entries → GoesOnFrom before old →
        own_events p before ≡ own_events p old → is_active entry ≡ true → IsIdle entry →
        ClaimedAt (gate_basis verdicts) entry (record { event = Claim p; before = before }) →
        WorkerRan (gate_basis verdicts) p first (Claim p ∷ before) (entries ++ entry ∷ []) }
    ensures returns { (verdicts : _) (p : _) (first : _) (old : _) (before : _) (entries : _) →
        WorkerRan (gate_basis verdicts) p first old entries → GoesOnFrom before old →
        own_events p before ≡ own_events p old →
        WorkerRan (gate_basis verdicts) p first (Return p ∷ before) entries }
    ensures idles { (verdicts : _) (p : _) (first : _) (old : _) (entries : _) (entry : Acted) →
        WorkerRan (gate_basis verdicts) p first old entries → is_active entry ≡ false → IsIdle entry →
        WorkerRan (gate_basis verdicts) p first old (entries ++ entry ∷ []) }
{
    commands_stay_or_begin();
    images_are_read_as_themselves();
}

/// The same of the administrator's lines: nothing ran at first; a write or a read is answered by the policies, and where
/// a write raises the epoch one switch to the policies after it came, and none otherwise; what is learnt of others leaves
/// what ran.
pub fn administrator_runs_one_more()
    ensures starts { (verdicts : _) (policies : _) (first : _) →
        AdminRan (gate_basis verdicts) policies first first [] }
    ensures answers { (verdicts : _) (policies : _) (first : _) (old : _) (new : _) (entries : _) (entry : Acted) →
        let now : Policies = policies_then verdicts policies (map task_in entries) in
        AdminRan (gate_basis verdicts) policies first old entries →
        AnsweredBy verdicts now entry.line.task entry.reply →
        (since : Since is_switch old new) →
        AllZip (BeginsWith (gate_basis verdicts)) since.acts (raised verdicts now (entry.line.task ∷ [])) →
        AdminRan (gate_basis verdicts) policies first new (entries ++ entry ∷ []) }
    ensures meets { (verdicts : _) (policies : _) (first : _) (old : _) (new : _) (entries : _) →
        AdminRan (gate_basis verdicts) policies first old entries → GoesOnFrom new old →
        administrator_events new ≡ administrator_events old →
        AdminRan (gate_basis verdicts) policies first new entries }
{
    commands_stay_or_begin();
    images_are_read_as_themselves();
}

/// What each seat had seen before a phase and has seen when all have met makes it a phase in the gate's one history; one
/// phase more may follow those that are done; and up to a closed gate they are a run.
pub fn phases_meet()
    ensures phase { (verdicts : _) (workers : _) (policies : _) (before : _) (after : _) (lines : _) (entries : _) →
        PhaseMet (gate_basis verdicts) workers policies before after lines entries →
        PhaseRan (gate_basis verdicts) workers policies before after lines entries }
    ensures more { (verdicts : _) (workers : _) (policies : _) (before : _) (now : _) (after : _) (script : _)
        (phases : _) (lines : _) (entries : List Acted) →
        PhasesDone (gate_basis verdicts) workers policies before now script phases →
        PhaseRan (gate_basis verdicts) workers (policies_through verdicts policies phases) now after lines entries →
        PhasesDone (gate_basis verdicts) workers policies before after (script ++ lines ∷ []) (phases ++ entries ∷ []) }
    ensures run { (verdicts : _) (workers : _) (policies : _) (before : _) (now : _) (whole : _) (script : _)
        (phases : _) → PhasesDone (gate_basis verdicts) workers policies before now script phases →
        Closes now whole → PhasesRan (gate_basis verdicts) workers policies before whole script phases }
{
    commands_stay_or_begin();
    images_are_read_as_themselves();
}
