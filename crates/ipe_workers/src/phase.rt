// A phase.
ghost use Rattle.std.specs.List.{flat_map};
ghost use Rattle.std.specs.Prelude.{◌≡◌, ◌+◌, ◌++◌, ◌≤◌, ◌^◌, [], IfOk, List, OnErr, OnOk, false, length, true};
ghost use Rattle.ipe_gate_rule.specs.declared.event.Event.{Event};
ghost use Rattle.ipe_admin.specs.Outcomes.{policies_in};
ghost use Rattle.ipe_lines.specs.Asked.{lines_of, verdicts_of};
ghost use Rattle.ipe_weave.specs.Lines.{NumbersRise, own_lines};
ghost use Rattle.ipe_workers.specs.Administering.{HasAdministered};
ghost use Rattle.ipe_workers.specs.Beside.{AllBegan, AllReady};
ghost use Rattle.ipe_workers.specs.Phases.{AreDone, AreLevel, AreSame, AreTaken, HasPhase};
ghost use Rattle.ipe_workers.specs.Prepared.{AreAsked, files_in};
ghost use Rattle.ipe_workers.specs.Workers.{entries_in};

use crate::beside::run_beside;
use crate::meeting::meet_all;
use crate::{Pace, Work, Worker};
use ipe_admin::Admin;
use ipe_requests::PhaseLine;
use ipe_signer::Signer;
use ipe_transcript::Entry;
use ipe_weave::phases_meet;
use std::alloc::AllocError;
use std::sync::Wait;
use std::thread::Threads;

// Whether each worker ran all its lines.
fn all_done(workers: &[Worker]) -> bool
    ensures { result ≡ true → AreDone workers.now }
{
    for worker in workers {
        if !worker.done {
            return false;
        }
    }
    true
}

// Takes the workers' entries, one worker's after another's.
fn take_entries(entries: &mut Vec<Entry>, workers: &mut [Worker]) -> Result<(), AllocError>
    ensures ok { OnOk result (entries.new.items ≡ entries.old.items ++ flat_map entries_in workers.old) }
    ensures kept { OnOk result (AreTaken workers.old workers.new) }
    ensures same { AreSame workers.old workers.new }
{
    for worker in workers.iter_mut() {
        entries.append(&mut worker.entries)?;
    }
    Ok(())
}

/// Runs the lines of a phase: those of the administrator and of each worker in threads, beside each other. Then all meet, so
/// that each has seen all that any had seen, and the entries are handed on: the administrator's, and then each worker's.
/// After out of memory the administrator and each worker have run the first of their lines.
pub fn run_phase<R: Threads + Wait + Sync, S: Signer + Sync, P: Pace>(
    rt: &R,
    pace: &P,
    work: &Work,
    signer: &S,
    lines: &[PhaseLine],
    admin: &mut Admin,
    workers: &mut [Worker],
) -> Result<Vec<Entry>, AllocError>
    requires signer { S.verdict_of signer.now ≡ verdicts_of work.now.objects.now.script }
    requires asked { AreAsked work.now.objects.now work.now.images.now lines.now }
    requires serials { (policies_in admin.old).next + length lines.now ≤ 2 ^ 62 }
    requires ready { AllReady work.now.objects.now work.now.images.now lines.now workers.old }
    requires all { length workers.old ≡ work.now.objects.now.script.workers }
    requires rising { NumbersRise (own_lines 0 (lines_of work.now.objects.now.script
        (files_in work.now.objects.now work.now.images.now) lines.now)) }
    requires level { (now : List Event) × AreLevel now admin.old workers.old }
    ensures ran { IfOk result (λ entries. (now : List Event) → AreLevel now admin.old workers.old →
        HasPhase work.now.objects.now work.now.images.now work.now.phase lines.now now admin.old admin.new
        workers.old workers.new entries.items) }
    ensures admin { OnErr result (HasAdministered work.now.objects.now work.now.images.now work.now.phase false lines.now
        admin.old admin.new [] []) }
    ensures workers { OnErr result (AllBegan work.now.objects.now work.now.images.now work.now.phase lines.now
        workers.old workers.new) }
{
    phases_meet();
    let mut entries = Vec::new(work.alloc);
    run_beside(rt, pace, work, signer, lines, admin, workers, &mut entries)?;
    if !all_done(workers) {
        return Err(AllocError);
    }
    meet_all(admin, workers);
    meet_all(admin, workers);
    take_entries(&mut entries, workers)?;
    Ok(entries)
}
