use super::tests::{answered, called};
use blk_device::{ImageDevices, NamedBytes};
use ipe_program::{Closed, Pace, Pass};
use ipe_words::{MemorySink, MemorySource};
use std::alloc::{AllocError, Global};
use std::sync::Wait;
use std::sync::atomic::{AtomicU64, Ordering};
use std::test::Fail;
use std::thread::Threads;

/// What the roll-outs of seeds come to, as `peers/sim_lines.py --summary` tells it, which knows nothing of this program.
const SUMMARIES: [(&str, &str); 4] = [
    (
        "0",
        "hooks=80000 placed=72032 commands=300 ok=176 epoch=64 active=p0 version=1.3.0 enforce=0 success_audit=0\n",
    ),
    (
        "1",
        "hooks=80000 placed=71997 commands=300 ok=169 epoch=50 active=p1 version=1.3.0 enforce=0 success_audit=0\n",
    ),
    (
        "4294967296",
        "hooks=80000 placed=71941 commands=300 ok=173 epoch=59 active=p1 version=1.3.0 enforce=1 success_audit=0\n",
    ),
    (
        "18446744073709551615",
        "hooks=80000 placed=71962 commands=300 ok=168 epoch=58 active=p2 version=1.3.0 enforce=0 success_audit=1\n",
    ),
];

#[test]
fn each_seed_comes_to_its_line(rt: HostRuntime) -> Result<(), Fail> {
    let alloc = rt.alloc();
    for (seed, line) in SUMMARIES {
        let (status, text) = answered(&rt, alloc, &["sim", seed], b"")?;
        assert_eq!(rt; status, 0, "{seed}");
        assert_eq!(rt; text.as_slice(), line.as_bytes(), "{seed}");
    }
    Ok(())
}

#[test]
fn every_schedule_comes_to_the_same(rt: HostRuntime) -> Result<(), Fail> {
    let alloc = rt.alloc();
    let (seed, line) = SUMMARIES[1];
    for _ in 0..20 {
        let (status, text) = answered(&rt, alloc, &["sim", seed], b"")?;
        assert_eq!(rt; status, 0);
        assert_eq!(rt; text.as_slice(), line.as_bytes());
    }
    Ok(())
}

#[test]
fn words_that_are_no_seed_are_refused(rt: HostRuntime) -> Result<(), Fail> {
    let alloc = rt.alloc();
    for word in [
        "",
        "-1",
        "+1",
        "01",
        "1 ",
        "0x1",
        "one",
        "18446744073709551616",
    ] {
        let (status, text) = answered(&rt, alloc, &["sim", word], b"")?;
        assert_eq!(rt; status, 2, "{word}");
        assert!(rt; text.is_empty(), "{word}");
    }
    for words in [&["sim"][..], &["sim", "1", "2"][..], &["Sim", "1"][..]] {
        let (status, _) = answered(&rt, alloc, words, b"")?;
        assert_eq!(rt; status, 2);
    }
    Ok(())
}

/// How many hook lines were begun and ended, each with a pass of its own.
#[derive(Drop)]
struct Calls {
    begun: AtomicU64,
    ended: AtomicU64,
}

impl Pace for Calls {
    fn before<R: Wait>(&self, _rt: &R, _worker: u32, _line: u32, pass: Option<&Pass>) {
        if pass.is_some() {
            self.begun.fetch_add(1, Ordering::SeqCst);
        }
    }

    fn after<R: Wait>(&self, _rt: &R, _worker: u32, _line: u32, pass: Option<&Pass>) {
        if pass.is_some() {
            self.ended.fetch_add(1, Ordering::SeqCst);
        }
    }
}

/// The status of the roll-out of seed 1 at this pace. No device is named.
fn rolled_out<R: Threads + Wait + Sync, P: Pace>(
    rt: &R,
    alloc: Global,
    pace: &P,
    closed: &mut Option<Closed>,
) -> Result<u8, AllocError> {
    let mut source = MemorySource::new(Vec::new(alloc), 1, Vec::new(alloc));
    let mut sink = MemorySink::new(alloc, 4096, 4096, Vec::new(alloc))?;
    let items = NamedBytes::from_vec(Vec::new(alloc));
    let mut devices = ImageDevices::new(&items);
    let status = called(
        rt,
        alloc,
        &["sim", "1"],
        &mut source,
        &mut sink,
        &mut devices,
        pace,
        closed,
    )?;
    Ok(status)
}

#[test]
fn each_hook_is_run_once(rt: HostRuntime) -> Result<(), Fail> {
    let alloc = rt.alloc();
    let pace = Calls {
        begun: AtomicU64::new(0),
        ended: AtomicU64::new(0),
    };
    let mut closed = None;
    let status = rolled_out(&rt, alloc, &pace, &mut closed)?;
    assert_eq!(rt; status, 0);
    assert_eq!(rt; pace.begun.load(Ordering::SeqCst), 80_000);
    assert_eq!(rt; pace.ended.load(Ordering::SeqCst), 80_000);
    assert!(rt; closed.is_some());
    Ok(())
}
