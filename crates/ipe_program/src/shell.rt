ghost use Rattle.std.specs.Prelude.{◌≡◌, codes, IfNone, IfOk, IfSome, IsErrOf, None, map, string_bytes};
ghost use Rattle.line_words.specs.Lines.{line_text};
ghost use Rattle.ipe_words.specs.Count.{Rose};
ghost use Rattle.ipe_program.specs.Answers.{Ends, IsAbove, IsAnswered, IsInput, IsWritten, status_of};
ghost use Rattle.ipe_program.specs.Asked.{HasRule, asked_by};
ghost use Rattle.ipe_tasks.specs.Asked.{HasTaskRule};
ghost use Rattle.ipe_program.specs.Shell.{Runs, Serves, handed, no_gate, nothing};
ghost use Rattle.ipe_program.specs.Sim.{IsSim};

use crate::answers::{Answer, Unanswered, answer_to, most_input};
use crate::asked::asked_by;
use crate::replay::{MOST_REQUESTS, replayed};
use crate::{Asked, Closed, Pace, Task, TreePart};
use blk_device::{Devices, ImageDevices, NamedBytes};
use ipe_roll_out::roll_out;
use ipe_words::{MemorySource, ReadAllError, Sink, Source, Status, read_all, write_all};
use std::alloc::{AllocError, Global};
use std::sync::Wait;
use std::thread::Threads;

/// The program: what its arguments ask, from the source and the devices to the sink. Arguments that ask for nothing are
/// wrong usage, and then nothing is read, written or handed out. A replay or a roll-out runs on threads, and its workers
/// call `pace` round each of their lines; once its answer is written whole, `closed` is the gate that it ran on.
pub fn run<R: Threads + Wait + Sync, S: Source, K: Sink, D: Devices, P: Pace>(
    rt: &R,
    alloc: Global,
    words: &Vec<String>,
    source: &mut S,
    sink: &mut K,
    devices: &mut D,
    pace: &P,
    closed: &mut Option<Closed>,
) -> Status
    ensures { Runs (asked_by (map string_bytes words.now.items)) result
        (handed S.remaining S.faults source.old source.new) (handed K.written K.faults sink.old sink.new)
        (handed D.contents D.faults devices.old devices.new) (record { before = closed.old; after = closed.new }) }
{
    match asked_by(alloc, words) {
        Ok(Some(asked)) => serve(rt, alloc, &asked, source, sink, devices, pace, closed),
        Ok(None) => Status::Usage,
        Err(AllocError) => Status::NoMemory,
    }
}

/// Writes one line, which tells the policy that the source's text reads as, or its first fault.
pub fn lint<S: Source, K: Sink>(alloc: Global, source: &mut S, sink: &mut K) -> Status
    ensures { Serves (Asked.Alone Task.Lint) result (handed S.remaining S.faults source.old source.new)
        (handed K.written K.faults sink.old sink.new) nothing no_gate }
{
    let none = NamedBytes::from_vec(Vec::new(alloc));
    let mut devices = ImageDevices::new(&none);
    serve_alone(alloc, &Task::Lint, source, sink, &mut devices)
}

/// Writes one line, which tells the file digest of the source's bytes for fs-verity with SHA-256, or that they are more
/// than 16,777,216. A block has 1,024, 2,048 or 4,096 bytes, and the salt at most 32.
pub fn measure<S: Source, K: Sink>(
    alloc: Global,
    block_size: u32,
    salt: &[u8],
    source: &mut S,
    sink: &mut K,
) -> Status
    requires { HasTaskRule (Task.Measure (record { block_size = block_size; salt = salt.now })) }
    ensures { Serves (Asked.Alone (Task.Measure (record { block_size = block_size; salt = salt.now }))) result
        (handed S.remaining S.faults source.old source.new) (handed K.written K.faults sink.old sink.new) nothing
        no_gate }
{
    let none = NamedBytes::from_vec(Vec::new(alloc));
    match Task::measure(alloc, block_size, salt) {
        Ok(task) => serve_alone(alloc, &task, source, sink, &mut ImageDevices::new(&none)),
        Err(AllocError) => Status::NoMemory,
    }
}

/// Writes one line, which tells the root hash of a device's image for dm-verity, and how many levels and hash blocks its
/// tree has, or why the device is refused. A block has 512, 1,024, 2,048 or 4,096 bytes, the salt at most 256, and the
/// device's name 1 to 255 visible ones. With the files of a system the device is a path, seen from the present folder.
pub fn root<K: Sink, D: Devices>(
    alloc: Global,
    block_size: u32,
    salt: &[u8],
    device: &[u8],
    sink: &mut K,
    devices: &mut D,
) -> Status
    requires { HasTaskRule (Task.Tree TreePart.Root
        (record { block_size = block_size; salt = salt.now; device = device.now })) }
    ensures { Serves (Asked.Alone (Task.Tree TreePart.Root
        (record { block_size = block_size; salt = salt.now; device = device.now }))) result nothing
        (handed K.written K.faults sink.old sink.new) (handed D.contents D.faults devices.old devices.new) no_gate }
{
    let mut source = MemorySource::new(Vec::new(alloc), 1, Vec::new(alloc));
    match Task::tree(alloc, TreePart::Root, block_size, salt, device) {
        Ok(task) => serve_alone(alloc, &task, &mut source, sink, devices),
        Err(AllocError) => Status::NoMemory,
    }
}

/// Serves what is asked: reads the source to its end, where its bytes are wanted, makes the whole answer of these and the
/// devices, and writes it. Once the answer of a replay or a roll-out is written whole, `closed` is the gate that it ran on.
pub fn serve<R: Threads + Wait + Sync, S: Source, K: Sink, D: Devices, P: Pace>(
    rt: &R,
    alloc: Global,
    asked: &Asked,
    source: &mut S,
    sink: &mut K,
    devices: &mut D,
    pace: &P,
    closed: &mut Option<Closed>,
) -> Status
    requires { HasRule asked.now }
    ensures { Serves asked.now result (handed S.remaining S.faults source.old source.new)
        (handed K.written K.faults sink.old sink.new) (handed D.contents D.faults devices.old devices.new)
        (record { before = closed.old; after = closed.new }) }
{
    let answer = answer(rt, alloc, asked, source, devices, pace);
    finish(answer, sink, closed)
}

/// Serves a task in the same way, by the calling thread alone.
pub fn serve_alone<S: Source, K: Sink, D: Devices>(
    alloc: Global,
    task: &Task,
    source: &mut S,
    sink: &mut K,
    devices: &mut D,
) -> Status
    requires { HasTaskRule task.now }
    ensures { Serves (Asked.Alone task.now) result (handed S.remaining S.faults source.old source.new)
        (handed K.written K.faults sink.old sink.new) (handed D.contents D.faults devices.old devices.new) no_gate }
{
    let answer = answer_alone(alloc, task, source, devices);
    finish(answer, sink, &mut None)
}

// The answer to what is asked.
fn answer<R: Threads + Wait + Sync, S: Source, D: Devices, P: Pace>(
    rt: &R,
    alloc: Global,
    asked: &Asked,
    source: &mut S,
    devices: &mut D,
    pace: &P,
) -> Result<Answer, Unanswered>
    requires { HasRule asked.now }
    ensures { IsAnswered asked.now result (handed S.remaining S.faults source.old source.new)
        (handed D.contents D.faults devices.old devices.new) }
{
    match asked {
        Asked::Replay => answer_replay(rt, alloc, source, devices, pace),
        Asked::Sim(seed) => answer_sim(rt, alloc, *seed, pace),
        Asked::Alone(task) => answer_alone(alloc, task, source, devices),
    }
}

// The answer to a replay. An input above the limit is refused before anything is asked of a device.
fn answer_replay<R: Threads + Wait + Sync, S: Source, D: Devices, P: Pace>(
    rt: &R,
    alloc: Global,
    source: &mut S,
    devices: &mut D,
    pace: &P,
) -> Result<Answer, Unanswered>
    ensures { IsAnswered Asked.Replay result (handed S.remaining S.faults source.old source.new)
        (handed D.contents D.faults devices.old devices.new) }
{
    match read_input(alloc, Some(MOST_REQUESTS), source)? {
        Some(input) => replayed(rt, alloc, &input, devices, pace),
        None => too_long(alloc),
    }
}

// The answer to a roll-out: nothing is read, and no device asked.
fn answer_sim<R: Threads + Wait + Sync, P: Pace>(
    rt: &R,
    alloc: Global,
    seed: u64,
    pace: &P,
) -> Result<Answer, Unanswered>
    ensures answer { IfOk result (λ answer. IsSim seed answer.closed answer.text.items) }
    ensures status { IfOk result (λ answer. answer.status ≡ Status.Done) }
    ensures no_fault { (IsErrOf result Unanswered.ReadFault → ⊥) × (IsErrOf result Unanswered.DeviceFault → ⊥) }
{
    let (text, gate) = roll_out(rt, alloc, seed, pace)?;
    Ok(Answer::ran(text, gate))
}

// The answer to a task. An input above the limit is refused before anything is asked of a device.
fn answer_alone<S: Source, D: Devices>(
    alloc: Global,
    task: &Task,
    source: &mut S,
    devices: &mut D,
) -> Result<Answer, Unanswered>
    requires { HasTaskRule task.now }
    ensures { IsAnswered (Asked.Alone task.now) result (handed S.remaining S.faults source.old source.new)
        (handed D.contents D.faults devices.old devices.new) }
{
    match read_input(alloc, most_input(task), source)? {
        Some(input) => answer_to(alloc, task, &input, devices),
        None => too_long(alloc),
    }
}

// All bytes of the source, where they are wanted and at most so many. Where none are wanted the source isn't read.
fn read_input<S: Source>(
    alloc: Global,
    most: Option<u64>,
    source: &mut S,
) -> Result<Option<Vec<u8>>, Unanswered>
    ensures input { IfOk result (λ read. IfSome read (λ input.
        IsInput most (S.remaining source.old) (S.remaining source.new) input.items)) }
    ensures above { IfOk result (λ read. IfNone read (IsAbove most (S.remaining source.old))) }
    ensures fault { IsErrOf result Unanswered.ReadFault → Rose (S.faults source.old) (S.faults source.new) }
    ensures no_device { IsErrOf result Unanswered.DeviceFault → ⊥ }
    ensures stays { most ≡ None → source.new ≡ source.old }
{
    let Some(most) = most else {
        return Ok(Some(Vec::new(alloc)));
    };
    match read_all(alloc, source, most) {
        Ok(input) => Ok(Some(input)),
        Err(ReadAllError::TooLong { .. }) => Ok(None),
        Err(ReadAllError::ReadFault) => Err(Unanswered::ReadFault),
        Err(ReadAllError::NoMemory) => Err(Unanswered::NoMemory),
    }
}

// The answer to an input above its limit.
fn too_long(alloc: Global) -> Result<Answer, Unanswered>
    ensures text { IfOk result (λ answer. answer.text.items ≡ line_text (codes "refused: too long")) }
    ensures status { IfOk result (λ answer. answer.status ≡ Status.Refused) }
    ensures no_gate { IfOk result (λ answer. answer.closed ≡ None) }
    ensures no_fault { (IsErrOf result Unanswered.ReadFault → ⊥) × (IsErrOf result Unanswered.DeviceFault → ⊥) }
{
    let text = b"refused: too long\n".to_vec(alloc)?;
    Ok(Answer::refused(text))
}

// Ends a call: writes the answer, or says why there is none.
fn finish<K: Sink>(
    answer: Result<Answer, Unanswered>,
    sink: &mut K,
    closed: &mut Option<Closed>,
) -> Status
    ensures { Ends answer result (handed K.written K.faults sink.old sink.new)
        (record { before = closed.old; after = closed.new }) }
{
    match answer {
        Ok(answer) => write_answer(answer, sink, closed),
        Err(why) => status_of(why),
    }
}

// Writes an answer. Only when all of it is written its gate is handed out, if it has one.
fn write_answer<K: Sink>(answer: Answer, sink: &mut K, closed: &mut Option<Closed>) -> Status
    ensures { IsWritten answer result (handed K.written K.faults sink.old sink.new)
        (record { before = closed.old; after = closed.new }) }
{
    let Answer {
        text,
        status,
        closed: gate,
    } = answer;
    match write_all(sink, &text) {
        Ok(()) => {
            if gate.is_some() {
                *closed = gate;
            }
            status
        }
        Err(_) => Status::WriteFault,
    }
}

// How a call ends that has no answer.
fn status_of(why: Unanswered) -> Status
    ensures { result ≡ status_of why }
{
    match why {
        Unanswered::ReadFault => Status::ReadFault,
        Unanswered::DeviceFault => Status::DeviceFault,
        Unanswered::NoMemory => Status::NoMemory,
    }
}
