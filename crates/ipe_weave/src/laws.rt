ghost use Rattle.ipe_gate_rule.specs.Legal.{Legal};
ghost use Rattle.ipe_machine.specs.Machine.{first_machine};
ghost use Rattle.ipe_machine.specs.Policies.{first_policies};
ghost use Rattle.ipe_weave.specs.Gate.{gate_basis};
ghost use Rattle.ipe_transcript.specs.Entries as transcript;
ghost use Rattle.ipe_transcript.specs.Filing.{LinesRise};
ghost use Rattle.ipe_transcript.specs.Keys.{own_of};
ghost use Rattle.ipe_weave.specs.Lines.{NumbersRise, entries_of, line_in, own_entries, own_lines};
ghost use Rattle.ipe_weave.specs.Phases.{IsOrderOf, IsPrinted, PhasesRan};
ghost use Rattle.ipe_weave.specs.Told.{IsFit, entry_of};
ghost use Rattle.std.specs.List.{AllByRecursion, AllZip};
ghost use Rattle.std.specs.Prelude.{◌≡◌, [], ℕ, map};

use ipe_image::images_are_read_as_themselves;
use ipe_machine::commands_stay_or_begin;

/// Where the phases ran on a gate, and each phase's entries are printed in such an order, the gate's one history stands
/// for the order in which they are printed, and the machine replies along it just what is printed. This call and the others
/// here do nothing: their contracts are laws.
pub fn gate_history_stands_for_the_printed_order()
    ensures { (verdicts : _) (workers : _) (whole : _) (script : _) (phases : _) (printed : _) → Legal whole →
        PhasesRan (gate_basis verdicts) workers first_policies [] whole script phases →
        AllZip IsPrinted phases printed →
        IsOrderOf (gate_basis verdicts) (first_machine workers) whole script printed }
{
    commands_stay_or_begin();
    images_are_read_as_themselves();
}

/// After such a run each phase's entries have an order in which they may be printed.
pub fn gate_run_can_be_printed()
    ensures { (verdicts : _) (workers : _) (whole : _) (script : _) (phases : _) → Legal whole →
        PhasesRan (gate_basis verdicts) workers first_policies [] whole script phases →
        (printed : _) × AllZip IsPrinted phases printed }
{
    commands_stay_or_begin();
    images_are_read_as_themselves();
}

/// The machine's replies are of the kinds of their lines, and each one's own entries are of its own lines. Where that is
/// so, what is told of lines that are printed in such an order is so too, whatever the files after hooks came to; and
/// where the lines' numbers rise, each one's rise there.
pub fn told_entries_are_printed()
    ensures fits { (verdicts : _) (machine : _) (lines : _) → AllByRecursion IsFit (entries_of verdicts machine lines) }
    ensures own { (verdicts : _) (machine : _) (lines : _) (actor : ℕ) →
        map line_in (own_entries actor (entries_of verdicts machine lines)) ≡ own_lines actor lines }
    ensures printed { (contents : _) (phase : _) (entries : _) (printed : _) → AllByRecursion IsFit entries →
        AllByRecursion IsFit printed → IsPrinted entries printed →
        transcript.IsPrinted (map (entry_of contents phase) entries) (map (entry_of contents phase) printed) }
    ensures rising { (contents : _) (phase : _) (lines : _) (entries : _) (printed : _) → NumbersRise lines →
        ((actor : ℕ) → map line_in (own_entries actor entries) ≡ own_lines actor lines) →
        AllByRecursion IsFit printed → IsPrinted entries printed →
        (actor : ℕ) → LinesRise transcript.line_of
        (own_of transcript.actor_of actor (map (entry_of contents phase) printed)) }
{}
