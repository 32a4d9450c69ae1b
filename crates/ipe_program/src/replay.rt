ghost use Rattle.std.specs.Prelude.{◌≡◌, ◌≤◌, List, length, IfOk, IsErrOf, None, Some};
ghost use Rattle.ipe_words.specs.Count.{Rose};
ghost use Rattle.ipe_gate.specs.Meeting.{history};
ghost use Rattle.ipe_lines.specs.Files.{files_of};
ghost use Rattle.ipe_lines.specs.Spelled.{numbers_of, spelled};
ghost use Rattle.ipe_lines.specs.Told.{TellInOrder};
ghost use Rattle.ipe_objects.specs.Devices.{AreImages};
ghost use Rattle.ipe_objects.specs.declared.images.ImagesError.{ImagesError};
ghost use Rattle.ipe_transcript.specs.Text.{transcript_text};
ghost use Rattle.ipe_transcript.specs.declared.transcript.Entry.{Entry};
ghost use Rattle.ipe_program.specs.Replay.{IsDeviceRefusal, IsReplay, IsReplayRefusal, IsTranscript, kind_name, refusal_text};
ghost use Rattle.ipe_program.specs.Table.{ByStatus, HasText};
ghost use Rattle.ipe_words.specs.declared.status.Status.{Status};

use crate::answers::{Answer, Unanswered};
use crate::{Closed, Pace};
use blk_device::Devices;
use ipe_lines::transcripts_spell_their_order;
use ipe_objects::{Images, ImagesError, load_images};
use ipe_replay::replay;
use ipe_requests::{
    Requests, ScriptError, ScriptKind, bytes_are_requests_or_have_a_first_bad_line, parse_requests,
    requests_are_read_of_their_spelling,
};
use ipe_tasks::{bad_line, device_line};
use ipe_transcript::print_transcript;
use std::alloc::{AllocError, Global};
use std::sync::Wait;
use std::thread::Threads;

/// The most bytes of a request file.
pub(crate) const MOST_REQUESTS: u64 = 16_777_216;

/// The transcript of a request file over the devices that it names, or the line that tells its first bad line or the first
/// of its devices that is refused. Its lines run on threads, and with the transcript comes the gate that they ran on, closed.
pub(crate) fn replayed<R: Threads + Wait + Sync, D: Devices, P: Pace>(
    rt: &R,
    alloc: Global,
    input: &[u8],
    devices: &mut D,
    pace: &P,
) -> Result<Answer, Unanswered>
    requires { length input.now ≤ 16777216 }
    ensures answer { IfOk result (λ answer.
        ByStatus (IsReplay input.now (D.contents devices.old) answer.closed answer.text.items)
        (IsReplayRefusal input.now (D.contents devices.old) answer.text.items) answer.status) }
    ensures status { IfOk result (λ answer. HasText answer.status) }
    ensures no_gate { IfOk result (λ answer. answer.status ≡ Status.Refused → answer.closed ≡ None) }
    ensures unread { IsErrOf result Unanswered.ReadFault → ⊥ }
    ensures failed { IsErrOf result Unanswered.DeviceFault → Rose (D.faults devices.old) (D.faults devices.new) }
    ensures same { D.contents devices.new ≡ D.contents devices.old }
{
    bytes_are_requests_or_have_a_first_bad_line();
    match parse_requests(alloc, input) {
        Ok(requests) => over_devices(rt, alloc, &requests, devices, pace),
        Err(ScriptError::Bad { line, kind }) => {
            Ok(Answer::refused(bad_line(alloc, line, name_of(kind))?))
        }
        Err(ScriptError::NoMemory) => Err(Unanswered::NoMemory),
    }
}

// The transcript of requests over the devices that they name, or the line that refuses one of these.
fn over_devices<R: Threads + Wait + Sync, D: Devices, P: Pace>(
    rt: &R,
    alloc: Global,
    requests: &Requests,
    devices: &mut D,
    pace: &P,
) -> Result<Answer, Unanswered>
    ensures answer { IfOk result (λ answer.
        ByStatus (IsTranscript requests.now (D.contents devices.old) answer.closed answer.text.items)
        (IsDeviceRefusal requests.now (D.contents devices.old) answer.text.items) answer.status) }
    ensures status { IfOk result (λ answer. HasText answer.status) }
    ensures no_gate { IfOk result (λ answer. answer.status ≡ Status.Refused → answer.closed ≡ None) }
    ensures unread { IsErrOf result Unanswered.ReadFault → ⊥ }
    ensures failed { IsErrOf result Unanswered.DeviceFault → Rose (D.faults devices.old) (D.faults devices.new) }
    ensures same { D.contents devices.new ≡ D.contents devices.old }
{
    match load_images(alloc, requests, devices) {
        Ok(images) => {
            let (text, gate) = transcript(rt, alloc, requests, &images, pace)?;
            Ok(Answer::ran(text, gate))
        }
        Err(error) => Ok(Answer::refused(refused_device(alloc, error)?)),
    }
}

// The line that refuses a device, or why there is no answer.
fn refused_device(alloc: Global, error: ImagesError) -> Result<Vec<u8>, Unanswered>
    ensures text { IfOk result (λ text. refusal_text error ≡ Some text.items) }
    ensures unread { IsErrOf result Unanswered.ReadFault → ⊥ }
    ensures failed { IsErrOf result Unanswered.DeviceFault → error ≡ ImagesError.DeviceFault }
{
    match error {
        ImagesError::DeviceFault => Err(Unanswered::DeviceFault),
        ImagesError::NoMemory => Err(Unanswered::NoMemory),
        ImagesError::Missing { name } => Ok(device_line(alloc, name.as_slice(), "missing")?),
        ImagesError::TooLarge { name } => Ok(device_line(alloc, name.as_slice(), "too large")?),
        ImagesError::TooSmall { name } => Ok(device_line(alloc, name.as_slice(), "too small")?),
    }
}

// The text of the transcript of requests whose devices have these images, and the gate that they ran on, closed.
fn transcript<R: Threads + Wait + Sync, P: Pace>(
    rt: &R,
    alloc: Global,
    requests: &Requests,
    images: &Images,
    pace: &P,
) -> Result<(Vec<u8>, Closed), AllocError>
    requires { AreImages requests.now images.now }
    ensures { IfOk result (λ made. (entries : List (List Entry))
        × TellInOrder requests.now (files_of requests.now images.now) (history made.1) entries
        × (made.0.items ≡ transcript_text entries) × (spelled made.0.items ≡ numbers_of entries)) }
{
    requests_are_read_of_their_spelling(requests);
    transcripts_spell_their_order();
    let (transcript, gate) = replay(rt, alloc, requests, images, pace)?;
    let text = print_transcript(alloc, &transcript)?;
    Ok((text, gate))
}

// The name of what is wrong with a line.
fn name_of(kind: ScriptKind) -> &'static str
    ensures { result.now ≡ kind_name kind }
{
    match kind {
        ScriptKind::Unended => "Unended",
        ScriptKind::NoNewline => "NoNewline",
        ScriptKind::After => "After",
        ScriptKind::Header => "Header",
        ScriptKind::Form => "Form",
        ScriptKind::Number => "Number",
        ScriptKind::Name => "Name",
        ScriptKind::Hex => "Hex",
        ScriptKind::Table => "Table",
        ScriptKind::Twice => "Twice",
        ScriptKind::Unknown => "Unknown",
        ScriptKind::Range => "Range",
        ScriptKind::Limit => "Limit",
    }
}
