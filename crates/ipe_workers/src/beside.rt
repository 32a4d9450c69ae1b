// All workers beside each other, and the administrator beside them.
ghost use Rattle.std.specs.Prelude.{◌≡◌, ◌+◌, ◌<◌, ◌≤◌, ◌^◌, is_ok, length};
ghost use Rattle.std.specs.Thread.{IsSync};
ghost use Rattle.ipe_admin.specs.Outcomes.{policies_in};
ghost use Rattle.ipe_lines.specs.Asked.{verdicts_of};
ghost use Rattle.ipe_workers.specs.Administering.{HasAdministered};
ghost use Rattle.ipe_workers.specs.Beside.{AllRan, AllReady};
ghost use Rattle.ipe_workers.specs.Prepared.{AreAsked};
ghost use Rattle.ipe_workers.specs.Workers.{HasRun, IsReady, is_done};

use crate::administrator::administer;
use crate::{Pace, Work, Worker};
use ipe_admin::Admin;
use ipe_requests::PhaseLine;
use ipe_signer::Signer;
use ipe_transcript::Entry;
use std::alloc::AllocError;
use std::sync::Wait;
use std::thread::{self, Threads, join_mut};

// One of the workers, which notes whether it ran all its lines.
fn run_worker<R: Wait, P: Pace>(
    rt: &R,
    pace: &P,
    work: &Work,
    place: usize,
    lines: &[PhaseLine],
    worker: &mut Worker,
)
    requires few { place < 30 }
    requires asked { AreAsked work.now.objects.now work.now.images.now lines.now }
    requires ready { IsReady work.now.objects.now work.now.images.now (place + 1) lines.now worker.old }
    ensures { HasRun work.now.objects.now work.now.images.now work.now.phase (is_done worker.new) lines.now
        worker.old worker.new }
{
    let number = place as u32 + 1;
    let done = worker.run(rt, pace, work, number, lines).is_ok();
    worker.done = done;
}

// Runs a phase's lines in all workers, each in a thread of its own where one can be made, and else in this one.
fn run_workers<R: Threads + Wait + Sync, P: Pace>(
    rt: &R,
    pace: &P,
    work: &Work,
    lines: &[PhaseLine],
    workers: &mut [Worker],
)
    requires asked { AreAsked work.now.objects.now work.now.images.now lines.now }
    requires ready { AllReady work.now.objects.now work.now.images.now lines.now workers.old }
    ensures { AllRan work.now.objects.now work.now.images.now work.now.phase lines.now workers.old workers.new }
{
    let threads = workers.len().max(1);
    thread::for_each_mut(
        rt,
        workers,
        threads,
        &|place: usize, worker: &mut Worker|
            requires { (place < 30) × AreAsked work.now.objects.now work.now.images.now lines.now
                × IsReady work.now.objects.now work.now.images.now (place + 1) lines.now worker.now }
            ensures { HasRun work.entry.now.objects.now work.entry.now.images.now work.entry.now.phase (is_done worker.new)
                lines.entry.now worker.old worker.new }
        { run_worker(rt, pace, work, place, lines, worker) },
    );
}

/// Runs a phase's lines: the administrator's in one thread, where one can be made, and the workers' beside it. The
/// administrator's entries are added to `entries`, and each worker keeps its own. Out of memory in a worker is noted there.
pub fn run_beside<R: Threads + Wait + Sync, S: Signer + Sync, P: Pace>(
    rt: &R,
    pace: &P,
    work: &Work,
    signer: &S,
    lines: &[PhaseLine],
    admin: &mut Admin,
    workers: &mut [Worker],
    entries: &mut Vec<Entry>,
) -> Result<(), AllocError>
    requires signer { S.verdict_of signer.now ≡ verdicts_of work.now.objects.now.script }
    requires asked { AreAsked work.now.objects.now work.now.images.now lines.now }
    requires serials { (policies_in admin.old).next + length lines.now ≤ 2 ^ 62 }
    requires ready { AllReady work.now.objects.now work.now.images.now lines.now workers.old }
    ensures admin { HasAdministered work.now.objects.now work.now.images.now work.now.phase (is_ok result) lines.now
        admin.old admin.new entries.old.items entries.new.items }
    ensures workers { AllRan work.now.objects.now work.now.images.now work.now.phase lines.now workers.old workers.new }
{
    let (administered, _) = join_mut(
        rt,
        &mut || -> Result<(), AllocError>
            requires { (S.verdict_of signer.now ≡ verdicts_of work.now.objects.now.script)
                × AreAsked work.now.objects.now work.now.images.now lines.now
                × ((policies_in admin.now).next + length lines.now ≤ 2 ^ 62) }
            ensures { HasAdministered work.entry.now.objects.now work.entry.now.images.now work.entry.now.phase
                (is_ok result) lines.entry.now admin.entry.now admin.exit.now
                entries.entry.now.items entries.exit.now.items }
        { administer(work, signer, admin, lines, entries) },
        &mut ||
            requires { IsSync R.row × IsSync P.row
                × AreAsked work.now.objects.now work.now.images.now lines.now
                × AllReady work.now.objects.now work.now.images.now lines.now workers.now }
            ensures { AllRan work.entry.now.objects.now work.entry.now.images.now work.entry.now.phase lines.entry.now
                workers.entry.now workers.exit.now }
        { run_workers(rt, pace, work, lines, workers) },
    );
    administered
}
