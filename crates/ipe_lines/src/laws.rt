ghost use Rattle.ipe_lines.specs.Events.{LinesAreEvents, VersionNeverFallsAlongLines};
ghost use Rattle.ipe_lines.specs.Files.{files_of};
ghost use Rattle.ipe_lines.specs.Spelled.{numbers_of, spelled};
ghost use Rattle.ipe_lines.specs.Asked.{lines_of, phases_of, verdicts_of};
ghost use Rattle.ipe_lines.specs.Told.{TellInOrder, one_list, told_phases};
ghost use Rattle.ipe_gate_rule.specs.Legal.{Legal};
ghost use Rattle.ipe_machine.specs.Policies.{first_policies};
ghost use Rattle.ipe_weave.specs.Gate.{gate_basis};
ghost use Rattle.ipe_weave.specs.Lines.{NumbersRise, own_lines};
ghost use Rattle.ipe_weave.specs.Phases.{PhasesRan};
ghost use Rattle.std.specs.List.{AllByRecursion};
ghost use Rattle.ipe_requests.specs.Requests.{requests_of};
ghost use Rattle.ipe_requests.specs.declared.script.Phase.{Phase};
ghost use Rattle.ipe_transcript.specs.Order.{AreOrdered};
ghost use Rattle.ipe_transcript.specs.Text.{transcript_text};
ghost use Rattle.std.specs.Prelude.{◌≡◌, ◌<◌, ◌^◌, [], ℕ, length, Ok};

use ipe_machine::active_version_never_falls;
use ipe_requests::requests_keep_their_rules;
use ipe_transcript::filed_entries_are_printed;
use ipe_weave::{
    gate_history_stands_for_the_printed_order, gate_run_can_be_printed, told_entries_are_printed,
};

/// The lines of a request file are the machine's own events, whatever order they come in; so once a policy is active, one
/// stays active along them, and its version doesn't fall. This call and the others here do nothing: their contracts are
/// laws.
pub fn active_version_never_falls_along_lines()
    ensures events { LinesAreEvents }
    ensures versions { VersionNeverFallsAlongLines }
{
    active_version_never_falls();
}

/// Where the lines of a request file ran on a gate, phase after phase up to a whole legal history, and each phase's entries
/// are then put in their order, they tell the lines in an order that keeps each one's lines in that one's order, with each
/// entry in its place; they are what the machine replies along this very order, and the history stands for it.
pub fn gate_run_is_told_in_order()
    ensures { (input : _) (script : _) (files : _) (history : _) (phases : _) (ordered : _) →
        requests_of input ≡ Ok script → Legal history →
        PhasesRan (gate_basis (verdicts_of script)) script.workers first_policies [] history (phases_of script files) phases →
        AreOrdered (length script.phases) (one_list (told_phases files 1 phases)) ordered →
        TellInOrder script files history ordered }
{
    requests_keep_their_rules();
    gate_run_can_be_printed();
    gate_history_stands_for_the_printed_order();
    told_entries_are_printed();
    filed_entries_are_printed();
}

/// In each phase of a request file the numbers of each one's lines rise.
pub fn numbers_of_lines_rise()
    ensures { (input : _) (script : _) (files : _) → requests_of input ≡ Ok script →
        AllByRecursion (λ (phase : Phase). (actor : ℕ) → NumbersRise (own_lines actor (lines_of script files phase.lines)))
        script.phases }
{
    requests_keep_their_rules();
}

/// A transcript spells its own order: the numbers after `line=`, line after line, are those of the lines of its entries, one
/// after another.
pub fn transcripts_spell_their_order()
    ensures { (input : _) (script : _) (images : _) (history : _) (entries : _) → requests_of input ≡ Ok script →
        length input < 2 ^ 32 → TellInOrder script (files_of script images) history entries →
        spelled (transcript_text entries) ≡ numbers_of entries }
{
    requests_keep_their_rules();
}
