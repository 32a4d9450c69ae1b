// The phases of a request file, one after another on one gate.
ghost use Rattle.std.specs.Prelude.{◌≡◌, ◌+◌, ◌≤◌, ◌^◌, [], IfOk, OnOk, length, map};
ghost use Rattle.ipe_admin.specs.Outcomes.{gate_in, policies_in};
ghost use Rattle.ipe_gate.specs.Meeting.{AreAllPasses, IsClosing};
ghost use Rattle.ipe_lines.specs.Asked.{verdicts_of};
ghost use Rattle.ipe_lines.specs.Files.{files_of};
ghost use Rattle.ipe_workers.specs.Beside.{AllReady};
ghost use Rattle.ipe_workers.specs.Phases.{AreLevel};
ghost use Rattle.ipe_workers.specs.Prepared.{ArePrepared};
ghost use Rattle.ipe_workers.specs.Workers.{pass_of};
ghost use Rattle.ipe_replay.specs.Ends.{end_of, last_policies};
ghost use Rattle.ipe_replay.specs.Phases.{HavePhases, IsWholeRun, MayRun, lines_in};

use crate::end::End;
use ipe_admin::Admin;
use ipe_gate::Closed;
use ipe_lines::numbers_of_lines_rise;
use ipe_objects::{Images, Objects};
use ipe_requests::{
    Phase, Requests, requests_are_read_of_their_spelling, requests_keep_their_rules,
};
use ipe_signer::Signer;
use ipe_transcript::{Entries, Entry};
use ipe_weave::phases_meet;
use ipe_workers::{Pace, Work, Worker, into_passes, make_workers, run_phase};
use std::alloc::{AllocError, Global};
use std::sync::Wait;
use std::thread::Threads;

// What a request file's lines are run with: where memory comes from, the declared files, and the images of the devices.
#[derive(Drop)]
pub(crate) struct Setting<'a> {
    pub(crate) alloc: Global,
    pub(crate) objects: &'a Objects<'a>,
    pub(crate) images: &'a Images,
}

// Runs phases, and adds their entries, one phase's after another's.
fn run_phases<R: Threads + Wait + Sync, S: Signer + Sync, P: Pace>(
    rt: &R,
    pace: &P,
    setting: &Setting<'_>,
    signer: &S,
    phases: &[Phase],
    admin: &mut Admin,
    workers: &mut [Worker],
) -> Result<Vec<Entry>, AllocError>
    requires signer { S.verdict_of signer.now ≡ verdicts_of setting.now.objects.now.script }
    requires may { MayRun setting.now.objects.now setting.now.images.now phases.now }
    requires few { length phases.now ≤ 16777216 }
    requires serials { (policies_in admin.old).next + length (lines_in phases.now) ≤ 2 ^ 62 }
    requires ready { AllReady setting.now.objects.now setting.now.images.now (lines_in phases.now) workers.old }
    requires all { length workers.old ≡ setting.now.objects.now.script.workers }
    requires level { AreLevel [] admin.old workers.old }
    ensures { IfOk result (λ entries. HavePhases setting.now.objects.now setting.now.images.now phases.now
        admin.old admin.new workers.old workers.new entries.items) }
{
    phases_meet();
    let mut entries = Vec::new(setting.alloc);
    for (place, phase) in phases.iter().enumerate() {
        let work = Work {
            alloc: setting.alloc,
            objects: setting.objects,
            images: setting.images,
            phase: place as u32 + 1,
        };
        let lines = phase.lines.as_slice();
        let mut told = run_phase(rt, pace, &work, signer, lines, admin, workers)?;
        entries.append(&mut told)?;
    }
    Ok(entries)
}

// Closes the gate of an administrator, with the passes of all workers.
fn close(alloc: Global, admin: Admin, workers: Vec<Worker>) -> Result<Closed, AllocError>
    requires { AreAllPasses (gate_in admin) (map pass_of workers.items) }
    ensures { IfOk result (λ closed. IsClosing (gate_in admin) (map pass_of workers.items) closed) }
{
    Ok(admin.close(into_passes(alloc, workers)?))
}

// Runs all phases of a request file on a new gate, tells what its policies are then, and closes it.
pub(crate) fn run_all<R: Threads + Wait + Sync, S: Signer + Sync, P: Pace>(
    rt: &R,
    pace: &P,
    setting: &Setting<'_>,
    signer: &S,
    requests: &Requests,
) -> Result<(Entries, Closed, End), AllocError>
    requires requests { setting.now.objects.now.script ≡ requests.now }
    requires prepared { ArePrepared setting.now.objects.now setting.now.images.now }
    requires signer { S.verdict_of signer.now ≡ verdicts_of requests.now }
    ensures whole { IfOk result (λ made. IsWholeRun setting.now.objects.now setting.now.images.now made.0 made.1) }
    ensures end { IfOk result (λ made.
        made.2 ≡ end_of (last_policies requests.now (files_of requests.now setting.now.images.now))) }
{
    requests_are_read_of_their_spelling(requests);
    requests_keep_their_rules();
    numbers_of_lines_rise();
    phases_meet();
    let phases = requests.phases.as_slice();
    let (mut admin, passes) = Admin::start(setting.alloc, requests.workers)?;
    let mut workers = make_workers(setting.alloc, setting.objects, passes)?;
    let entries = run_phases(rt, pace, setting, signer, phases, &mut admin, &mut workers)?;
    let end = End::of(admin.registry())?;
    let closed = close(setting.alloc, admin, workers)?;
    Ok((Entries::from_vec(entries), closed, end))
}
