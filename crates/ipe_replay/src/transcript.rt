ghost use Rattle.std.specs.Prelude.{◌≡◌, IfOk};
ghost use Rattle.ipe_gate.specs.Meeting.{history};
ghost use Rattle.ipe_lines.specs.Asked.{verdicts_of};
ghost use Rattle.ipe_lines.specs.Files.{files_of};
ghost use Rattle.ipe_lines.specs.Told.{TellInOrder};
ghost use Rattle.ipe_objects.specs.Devices.{AreImages};
ghost use Rattle.ipe_objects.specs.Ready.{Ready};
ghost use Rattle.ipe_replay.specs.Ends.{EndsWith, last_policies};
ghost use Rattle.ipe_replay.specs.Phases.{IsWholeRun};

use crate::Pace;
use crate::marks::signer_of;
use crate::phases::{Setting, run_all};
use ipe_audit::Brief;
use ipe_gate::Closed;
use ipe_lines::gate_run_is_told_in_order;
use ipe_objects::{Images, Objects};
use ipe_requests::{Requests, requests_are_read_of_their_spelling};
use ipe_signer::Signer;
use ipe_transcript::{Entries, Transcript};
use std::alloc::{AllocError, Global};
use std::sync::Wait;
use std::thread::Threads;

// The transcript of entries whose lines ran on this gate.
fn transcript_of(
    alloc: Global,
    requests: &Requests,
    images: &Images,
    entries: Entries,
    closed: &Closed,
) -> Result<Transcript, AllocError>
    requires { (objects : Ready) × (objects.script ≡ requests.now) × IsWholeRun objects images.now entries closed.now }
    ensures { IfOk result (λ transcript.
        TellInOrder requests.now (files_of requests.now images.now) (history closed.now) transcript) }
{
    requests_are_read_of_their_spelling(requests);
    gate_run_is_told_in_order();
    let phases = requests.phases.as_slice().len() as u32;
    Transcript::order(alloc, phases, entries)
}

/// The transcript of a request file, the gate on which its lines ran, closed, and the state after its last phase: the epoch,
/// what records tell of the active policy, and the switches.
#[derive(Drop)]
pub struct Replayed {
    pub transcript: Transcript,
    pub closed: Closed,
    pub epoch: u16,
    pub active: Option<Brief>,
    pub enforce: bool,
    pub success: bool,
}

// The same with the signer that the request file's marks are.
fn replay_signed<R: Threads + Wait + Sync, S: Signer + Sync, P: Pace>(
    rt: &R,
    alloc: Global,
    requests: &Requests,
    images: &Images,
    signer: &S,
    pace: &P,
) -> Result<Replayed, AllocError>
    requires images { AreImages requests.now images.now }
    requires signer { S.verdict_of signer.now ≡ verdicts_of requests.now }
    ensures tell { IfOk result (λ replayed. TellInOrder requests.now (files_of requests.now images.now)
        (history replayed.closed) replayed.transcript) }
    ensures end { IfOk result (λ replayed.
        EndsWith (last_policies requests.now (files_of requests.now images.now)) replayed) }
{
    let objects = Objects::build(alloc, signer, requests, images)?;
    let setting = Setting {
        alloc,
        objects: &objects,
        images,
    };
    let (entries, closed, end) = run_all(rt, pace, &setting, signer, requests)?;
    let transcript = transcript_of(alloc, requests, images, entries, &closed)?;
    Ok(Replayed {
        transcript,
        closed,
        epoch: end.epoch,
        active: end.active,
        enforce: end.enforce,
        success: end.success,
    })
}

/// The transcript of a request file whose devices have these images, and the gate on which its lines ran, closed. In each
/// phase the administrator and every worker run their lines beside each other, each worker with its own pass; what no
/// thread can be started for is done by the caller. The entries stand in an order that keeps each one's lines in that one's
/// order, with each entry in its place; the machine replies along this very order just what they tell, and the gate's one
/// history stands for it.
pub fn replay<R: Threads + Wait + Sync, P: Pace>(
    rt: &R,
    alloc: Global,
    requests: &Requests,
    images: &Images,
    pace: &P,
) -> Result<(Transcript, Closed), AllocError>
    requires { AreImages requests.now images.now }
    ensures { IfOk result (λ made.
        TellInOrder requests.now (files_of requests.now images.now) (history made.1) made.0) }
{
    let replayed = replay_to_end(rt, alloc, requests, images, pace)?;
    Ok((replayed.transcript, replayed.closed))
}

/// The same with the state after the last phase, which is that after the administrator's lines alone, whatever the workers
/// ask beside them.
pub fn replay_to_end<R: Threads + Wait + Sync, P: Pace>(
    rt: &R,
    alloc: Global,
    requests: &Requests,
    images: &Images,
    pace: &P,
) -> Result<Replayed, AllocError>
    requires { AreImages requests.now images.now }
    ensures tell { IfOk result (λ replayed. TellInOrder requests.now (files_of requests.now images.now)
        (history replayed.closed) replayed.transcript) }
    ensures end { IfOk result (λ replayed.
        EndsWith (last_policies requests.now (files_of requests.now images.now)) replayed) }
{
    let signer = signer_of(alloc, requests)?;
    replay_signed(rt, alloc, requests, images, &signer, pace)
}
