ghost use Rattle.std.specs.Prelude.{◌≡◌, ◌++◌, ◌∷◌, [], map};
ghost use Rattle.ipe_gate.specs.Seats.{admin_seen};
ghost use Rattle.ipe_weave.specs.Gate.{gate_basis};
ghost use Rattle.ipe_weave.specs.Lines.{task_in};
ghost use Rattle.ipe_weave.specs.Seats.{AdminRan};
ghost use Rattle.ipe_weave.specs.Standing.{policies_then};
ghost use Rattle.ipe_admin.specs.Outcomes.{IsOutcome, gate_in, policies_in, written};

use ipe_weave::administrator_runs_one_more;

/// The law that a write is one more line of the administrator's: with it, the lines that ran before are answered by the
/// policies one after another, and the switches since the first are those of the lines that raise the epoch. The call
/// does nothing: its contract is the law.
pub fn writes_are_lines()
    ensures ran { (verdicts : _) (policies : _) (first : _) (entries : _) (number : _) (may : _) (asked : _) (a : _)
        (b : _) (outcome : _) → AdminRan (gate_basis verdicts) policies first (admin_seen (gate_in a)) entries →
        policies_in a ≡ policies_then verdicts policies (map task_in entries) →
        IsOutcome verdicts asked a b outcome →
        AdminRan (gate_basis verdicts) policies first (admin_seen (gate_in b))
        (entries ++ written number may asked (policies_in a) outcome ∷ []) }
    ensures policies { (verdicts : _) (policies : _) (entries : _) (number : _) (may : _) (asked : _) (a : _) (b : _)
        (outcome : _) → policies_in a ≡ policies_then verdicts policies (map task_in entries) →
        IsOutcome verdicts asked a b outcome →
        policies_in b ≡ policies_then verdicts policies
        (map task_in (entries ++ written number may asked (policies_in a) outcome ∷ [])) }
{
    administrator_runs_one_more();
}
