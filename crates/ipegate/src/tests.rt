use blk_device::{Devices, ImageDevices, NamedBytes};
use ipe_program::{Closed, NoPace, Pace, run};
use ipe_words::{MemorySink, MemorySource, Sink, Source};
use std::alloc::{AllocError, Global};
use std::sync::Wait;
use std::thread::Threads;

// The words as `run` takes them.
fn owned(alloc: Global, words: &[&str]) -> Result<Vec<String>, AllocError> {
    let mut owned = Vec::new(alloc);
    for word in words {
        owned.push(String::from_str(alloc, word)?)?;
    }
    Ok(owned)
}

/// The status of [`run`] with these words, at this pace. Each test calls it here, so that its contract is shown to the
/// checker once.
pub fn called<R: Threads + Wait + Sync, S: Source, K: Sink, D: Devices, P: Pace>(
    rt: &R,
    alloc: Global,
    words: &[&str],
    source: &mut S,
    sink: &mut K,
    devices: &mut D,
    pace: &P,
    closed: &mut Option<Closed>,
) -> Result<u8, AllocError> {
    let words = owned(alloc, words)?;
    let status = run(rt, alloc, &words, source, sink, devices, pace, closed);
    Ok(status.number())
}

/// The same at no pace, where the gate isn't looked at.
pub fn served<R: Threads + Wait + Sync, S: Source, K: Sink, D: Devices>(
    rt: &R,
    alloc: Global,
    words: &[&str],
    source: &mut S,
    sink: &mut K,
    devices: &mut D,
) -> Result<u8, AllocError> {
    called(rt, alloc, words, source, sink, devices, &NoPace, &mut None)
}

/// The status and what was written, with these words, where there is no device.
pub fn answered<R: Threads + Wait + Sync>(
    rt: &R,
    alloc: Global,
    words: &[&str],
    input: &[u8],
) -> Result<(u8, Vec<u8>), AllocError> {
    let mut source = MemorySource::new(input.to_vec(alloc)?, 100, Vec::new(alloc));
    let mut sink = MemorySink::new(alloc, 100, 65_536, Vec::new(alloc))?;
    let items = NamedBytes::from_vec(Vec::new(alloc));
    let mut devices = ImageDevices::new(&items);
    let status = served(rt, alloc, words, &mut source, &mut sink, &mut devices)?;
    Ok((status, sink.written().to_vec(alloc)?))
}
