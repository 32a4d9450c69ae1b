ghost use Rattle.std.specs.Prelude.{◌≡◌, ◌≤◌, ◌++◌, IfOk, OnOk, length};
ghost use Rattle.ipe_gate.specs.Meeting.{history};
ghost use Rattle.ipe_lines.specs.Files.{files_of};
ghost use Rattle.ipe_lines.specs.Told.{TellInOrder, one_list};
ghost use Rattle.ipe_objects.specs.Devices.{AreImages};
ghost use Rattle.ipe_requests.specs.Words.{bit_word};
ghost use Rattle.ipe_replay.specs.Summary.{IsSummary, active_text, counts_text, summary_text, switches_text};

use crate::Pace;
use crate::counts::Tally;
use crate::transcript::{Replayed, replay_to_end};
use ipe_audit::Brief;
use ipe_gate::Closed;
use ipe_objects::Images;
use ipe_requests::{Requests, requests_are_read_of_their_spelling, requests_keep_their_rules};
use std::alloc::{AllocError, Global};
use std::sync::Wait;
use std::thread::Threads;

/// What the run of a request file came to: how many hooks it has, and how many of them claimed; how many lines of the
/// administrator, and how many of them were answered with the code 0; and the state after the last phase.
#[derive(Debug, Drop)]
pub struct Summary {
    pub hooks: u64,
    pub placed: u64,
    pub commands: u64,
    pub ok: u64,
    pub epoch: u16,
    pub active: Option<Brief>,
    pub enforce: bool,
    pub success_audit: bool,
}

/// What the run of a request file whose devices have these images came to, and the gate on which its lines ran, closed.
/// Whatever the schedule, the run comes to the same.
pub fn summarize<R: Threads + Wait + Sync, P: Pace>(
    rt: &R,
    alloc: Global,
    requests: &Requests,
    images: &Images,
    pace: &P,
) -> Result<(Summary, Closed), AllocError>
    requires { AreImages requests.now images.now }
    ensures { IfOk result (λ made.
        IsSummary requests.now (files_of requests.now images.now) (history made.1) made.0) }
{
    requests_are_read_of_their_spelling(requests);
    requests_keep_their_rules();
    let Replayed {
        transcript,
        closed,
        epoch,
        active,
        enforce,
        success,
    } = replay_to_end(rt, alloc, requests, images, pace)?;
    let tally = Tally::of(transcript.phases());
    let summary = Summary {
        hooks: tally.hooks,
        placed: tally.placed,
        commands: tally.commands,
        ok: tally.done,
        epoch,
        active,
        enforce,
        success_audit: success,
    };
    Ok((summary, closed))
}

fn counts(alloc: Global, summary: &Summary) -> Result<Vec<u8>, AllocError>
    ensures { IfOk result (λ text. text.items ≡ counts_text summary.now) }
{
    let hooks = summary.hooks;
    let placed = summary.placed;
    let commands = summary.commands;
    let ok = summary.ok;
    let epoch = summary.epoch;
    let text = format!(in alloc;
        "hooks={hooks} placed={placed} commands={commands} ok={ok} epoch={epoch}"
    )?;
    Ok(text.into_bytes())
}

fn append_active(
    alloc: Global,
    text: &mut Vec<u8>,
    active: &Option<Brief>,
) -> Result<(), AllocError>
    ensures { OnOk result (text.new.items ≡ text.old.items ++ active_text active.now) }
{
    match active {
        None => text.extend_from_slice(b" active=? version=?"),
        Some(active) => {
            text.extend_from_slice(b" active=")?;
            text.extend_from_slice(active.name.as_slice())?;
            text.extend_from_slice(b" version=")?;
            text.extend_from_slice(active.version.to_string(alloc)?.as_bytes())
        }
    }
}

fn switch(on: bool) -> &'static str
    ensures { result.now ≡ bit_word on }
{
    if on { "1" } else { "0" }
}

fn switches(alloc: Global, summary: &Summary) -> Result<String, AllocError>
    ensures { IfOk result (λ text. text.bytes.items ≡ switches_text summary.now) }
{
    let mut text = String::from_str(alloc, " enforce=")?;
    text.push_str(switch(summary.enforce))?;
    text.push_str(" success_audit=")?;
    text.push_str(switch(summary.success_audit))?;
    Ok(text)
}

/// The line that tells what a run came to, with its line feed.
pub fn summary_line(alloc: Global, summary: &Summary) -> Result<Vec<u8>, AllocError>
    ensures { IfOk result (λ line. line.items ≡ summary_text summary.now) }
{
    let mut line = counts(alloc, summary)?;
    append_active(alloc, &mut line, &summary.active)?;
    line.extend_from_slice(switches(alloc, summary)?.as_bytes())?;
    line.push(b'\n')?;
    Ok(line)
}
