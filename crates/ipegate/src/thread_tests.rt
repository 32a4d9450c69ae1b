use super::device_tests::device;
use super::tests::called;
use blk_device::{ImageDevices, NamedBytes};
use ipe_program::{NoPace, Pace, Pass};
use ipe_words::{MemorySink, MemorySource};
use std::alloc::{AllocError, Global};
use std::sync::Wait;
use std::sync::atomic::{AtomicU64, Ordering};
use std::test::Fail;
use std::thread::{self, Threads};

/// What stands before the phases: a policy that allows the files of the initial root file system and of signed volumes, and
/// one that denies the root of the volume `app`.
const DECLARED: &str = "ipe-requests 1
workers 4
text m1 9
policy_name=prod policy_version=2.1.0
DEFAULT action=DENY
# revoked roots
op=EXECUTE dmverity_roothash=sha256:aaaaaaaaaaaaaaaaaaaaaaaaaaaaaaaaaaaaaaaaaaaaaaaaaaaaaaaaaaaaaaaa action=DENY
op=EXECUTE dmverity_roothash=sha256:bbbbbbbbbbbbbbbbbbbbbbbbbbbbbbbbbbbbbbbbbbbbbbbbbbbbbbbbbbbbbbbb action=DENY
op=EXECUTE boot_verified=TRUE action=ALLOW
op=EXECUTE dmverity_signature=TRUE action=ALLOW
op=KMODULE boot_verified=TRUE action=ALLOW
op=KMODULE dmverity_signature=TRUE action=ALLOW
text m2 10
policy_name=prod policy_version=2.1.1
DEFAULT action=DENY
# revoked roots
op=EXECUTE dmverity_roothash=sha256:076a27c79e5ace2a3d47f9dd2e83e4ff6ea8872b3c2218f66c92b89b55f36560 action=DENY
op=EXECUTE dmverity_roothash=sha256:aaaaaaaaaaaaaaaaaaaaaaaaaaaaaaaaaaaaaaaaaaaaaaaaaaaaaaaaaaaaaaaa action=DENY
op=EXECUTE dmverity_roothash=sha256:bbbbbbbbbbbbbbbbbbbbbbbbbbbbbbbbbbbbbbbbbbbbbbbbbbbbbbbbbbbbbbbb action=DENY
op=EXECUTE boot_verified=TRUE action=ALLOW
op=EXECUTE dmverity_signature=TRUE action=ALLOW
op=KMODULE boot_verified=TRUE action=ALLOW
op=KMODULE dmverity_signature=TRUE action=ALLOW
text init 1
hello
volume app 1 z.img z.img 512 512 1 0 sha256 076a27c79e5ace2a3d47f9dd2e83e4ff6ea8872b3c2218f66c92b89b55f36560 - 2 root_hash_sig_key_desc app-key
file /init boot rootfs 2 init
file /app/tool volume app 0 512 12
mark policy trusted text m1
mark policy trusted text m2
mark root trusted hex 076a27c79e5ace2a3d47f9dd2e83e4ff6ea8872b3c2218f66c92b89b55f36560
phase
admin write new_policy text m1
admin write policies/prod/active echo 1
phase
";

/// In one phase the policy is replaced while each worker runs a file of the volume and one of the initial root file system, and
/// loads a module from the volume. Line 36 is the first of them.
const REPLACED: &str = "admin write policies/prod/update text m2
w1 exec 1 tool /app/tool
w1 exec 1 init /init
w1 read 1 modprobe module /app/tool
w2 exec 2 tool /app/tool
w2 exec 2 init /init
w2 read 2 modprobe module /app/tool
w3 exec 3 tool /app/tool
w3 exec 3 init /init
w3 read 3 modprobe module /app/tool
w4 exec 4 tool /app/tool
w4 exec 4 init /init
w4 read 4 modprobe module /app/tool
end
";

/// Hooks that are evaluated and hooks that aren't, by turns: a mapping that may not be executed, and a change of protection to
/// one that may, of a file and of none.
const MAPPED: &str = "w1 mmap 1 ld 1 /init
w1 mmap 1 ld 5 /init
w1 mprotect 1 ld 1 4 /init
w1 mprotect 1 ld 0 4 -
w2 exec 2 init /init
w2 mmap 2 ld 1 /init
end
";

/// The status and what was written, at this pace, over a device of zeros.
fn replayed<R: Threads + Wait + Sync, P: Pace>(
    rt: &R,
    alloc: Global,
    phase: &str,
    pace: &P,
) -> Result<(u8, String), AllocError> {
    let mut input = DECLARED.as_bytes().to_vec(alloc)?;
    input.extend_from_slice(phase.as_bytes())?;
    let mut source = MemorySource::new(input, 4096, Vec::new(alloc));
    let mut sink = MemorySink::new(alloc, 4096, 65_536, Vec::new(alloc))?;
    let items = device(alloc, vec![in alloc; 0; 512]?)?;
    let mut devices = ImageDevices::new(&items);
    let mut closed = None;
    let status = called(
        rt,
        alloc,
        &["replay"],
        &mut source,
        &mut sink,
        &mut devices,
        pace,
        &mut closed,
    )?;
    let text = String::from_utf8(sink.written().to_vec(alloc)?).unwrap_or(String::new(alloc));
    Ok((status, text))
}

/// What a hook line of the phase is answered in an epoch, by its place among them: three of each worker.
fn answer(alloc: Global, place: u8, epoch: u32, count: u32) -> Result<String, AllocError> {
    let line = u32::from(place) + 37;
    let worker = place / 3 + 1;
    let (code, rule) = match (place % 3, epoch) {
        (0, 1) => (0, 4),
        (0, _) => (-13, 1),
        (1, 1) => (0, 3),
        (1, _) => (0, 4),
        (_, 1) => (0, 6),
        (_, _) => (0, 7),
    };
    format!(in alloc;
        "line={line} w{worker} code={code} epoch={epoch} count={count} policy={epoch} by=rule:{rule}"
    )
}

/// What stands after it: the record of a denial, or the digest of the file.
fn after(alloc: Global, place: u8, epoch: u32) -> Result<String, AllocError> {
    let worker = place / 3 + 1;
    match (place % 3, epoch) {
        (0, 2) => format!(in alloc;
            "type=1420 ipe_op=EXECUTE ipe_hook=BPRM_CHECK enforcing=1 pid={worker} comm=\"tool\" path=\"/app/tool\" dev=\"app\" ino=12 rule=\"op=EXECUTE dmverity_roothash=sha256:076a27c79e5ace2a3d47f9dd2e83e4ff6ea8872b3c2218f66c92b89b55f36560 action=DENY\""
        ),
        (1, _) => String::from_str(
            alloc,
            "content sha256:5891b5b522d5df086d0ff0b110fbd9d21bb4fc7163af34d08286a2e846f6be03",
        ),
        _ => String::from_str(
            alloc,
            "content sha256:076a27c79e5ace2a3d47f9dd2e83e4ff6ea8872b3c2218f66c92b89b55f36560",
        ),
    }
}

/// The place of the hook line that is answered so.
fn place_of(alloc: Global, line: &str, epoch: u32, count: u32) -> Result<Option<u8>, AllocError> {
    for place in 0..12 {
        if answer(alloc, place, epoch, count)?.as_str() == line {
            return Ok(Some(place));
        }
    }
    Ok(None)
}

/// Whether each of the twelve hooks is answered by the policy of its epoch, with counts from 0 in each epoch.
fn is_replaced_in_between(alloc: Global, text: &str) -> Result<bool, AllocError> {
    let mut epoch = 1;
    let mut count: u32 = 0;
    let mut hooks: u32 = 0;
    let mut next = None;
    for line in text.lines().skip_while(|line| *line != "phase 2").skip(1) {
        if let Some((place, then)) = next.take() {
            if after(alloc, place, then)?.as_str() != line {
                return Ok(false);
            }
        } else if line == "line=36 admin code=0 epoch=2" {
            epoch = 2;
            count = 0;
        } else if line == "end" {
            return Ok(epoch == 2 && hooks == 12);
        } else if let Some(place) = place_of(alloc, line, epoch, count)? {
            next = Some((place, epoch));
            count = count.saturating_add(1);
            hooks = hooks.saturating_add(1);
        } else if !line.starts_with("type=1422 ") && !line.starts_with("type=1421 ") {
            return Ok(false);
        }
    }
    Ok(false)
}

#[test]
fn a_policy_is_replaced_while_four_workers_ask(rt: HostRuntime) -> Result<(), Fail> {
    let alloc = rt.alloc();
    for _ in 0..100 {
        let (status, text) = replayed(&rt, alloc, REPLACED, &NoPace)?;
        assert_eq!(rt; status, 0);
        assert!(rt; is_replaced_in_between(alloc, text.as_str())?, "{text}");
    }
    Ok(())
}

/// How often one looks whether the other has come.
const MOST_TURNS: u32 = 1_000_000;

/// Holds the first hooks of workers 1 and 2 until both have come.
#[derive(Drop)]
struct Together {
    first: AtomicU64,
    second: AtomicU64,
    alone: AtomicU64,
}

impl Pace for Together {
    fn before<R: Wait>(&self, _rt: &R, worker: u32, _line: u32, _pass: Option<&Pass>) {
        let (own, other) = match worker {
            1 => (&self.first, &self.second),
            2 => (&self.second, &self.first),
            _ => return,
        };
        own.store(1, Ordering::SeqCst);
        for _ in 0..MOST_TURNS {
            if other.load(Ordering::SeqCst) == 1 {
                return;
            }
            thread::yield_now();
        }
        self.alone.store(1, Ordering::SeqCst);
    }

    fn after<R: Wait>(&self, _rt: &R, _worker: u32, _line: u32, _pass: Option<&Pass>) {}
}

#[test]
fn workers_run_beside_each_other(rt: HostRuntime) -> Result<(), Fail> {
    let pace = Together {
        first: AtomicU64::new(0),
        second: AtomicU64::new(0),
        alone: AtomicU64::new(0),
    };
    let (status, _) = replayed(&rt, rt.alloc(), REPLACED, &pace)?;
    assert_eq!(rt; status, 0);
    assert_eq!(rt; pace.first.load(Ordering::SeqCst), 1);
    assert_eq!(rt; pace.second.load(Ordering::SeqCst), 1);
    assert_eq!(rt; pace.alone.load(Ordering::SeqCst), 0);
    Ok(())
}

/// How often a line was begun and ended, and what its worker's pass had claimed before it and after it.
#[derive(Drop)]
struct Note {
    begun: AtomicU64,
    ended: AtomicU64,
    claims_before: AtomicU64,
    claims_after: AtomicU64,
}

/// A note for each line.
#[derive(Drop)]
struct Notes {
    notes: Vec<Note>,
}

impl Notes {
    fn new(alloc: Global) -> Result<Notes, AllocError> {
        let mut notes = Vec::new(alloc);
        for _ in 0..64 {
            notes.push(Note {
                begun: AtomicU64::new(0),
                ended: AtomicU64::new(0),
                claims_before: AtomicU64::new(0),
                claims_after: AtomicU64::new(0),
            })?;
        }
        Ok(Notes { notes })
    }

    /// Whether the line was begun and ended once, and made so many claims.
    fn is_once(&self, line: usize, claims: u64) -> bool {
        match self.notes.get(line) {
            Some(note) => {
                let before = note.claims_before.load(Ordering::SeqCst);
                note.begun.load(Ordering::SeqCst) == 1
                    && note.ended.load(Ordering::SeqCst) == 1
                    && note.claims_after.load(Ordering::SeqCst) == before.saturating_add(claims)
            }
            None => false,
        }
    }
}

impl Pace for Notes {
    fn before<R: Wait>(&self, _rt: &R, _worker: u32, line: u32, pass: Option<&Pass>) {
        if let (Some(note), Some(pass)) = (self.notes.get(line as usize), pass) {
            note.begun.fetch_add(1, Ordering::SeqCst);
            note.claims_before.store(pass.calls(), Ordering::SeqCst);
        }
    }

    fn after<R: Wait>(&self, _rt: &R, _worker: u32, line: u32, pass: Option<&Pass>) {
        if let (Some(note), Some(pass)) = (self.notes.get(line as usize), pass) {
            note.ended.fetch_add(1, Ordering::SeqCst);
            note.claims_after.store(pass.calls(), Ordering::SeqCst);
        }
    }
}

#[test]
fn a_claim_is_made_while_its_line_runs(rt: HostRuntime) -> Result<(), Fail> {
    let alloc = rt.alloc();
    let pace = Notes::new(alloc)?;
    let (status, _) = replayed(&rt, alloc, MAPPED, &pace)?;
    assert_eq!(rt; status, 0);
    for (line, claims) in [(36, 0), (37, 1), (38, 0), (39, 1), (40, 1), (41, 0)] {
        assert!(rt; pace.is_once(line, claims), "{line}");
    }
    let pace = Notes::new(alloc)?;
    let (status, _) = replayed(&rt, alloc, REPLACED, &pace)?;
    assert_eq!(rt; status, 0);
    for line in 37..49 {
        assert!(rt; pace.is_once(line, 1), "{line}");
    }
    assert!(rt; !pace.is_once(36, 0));
    Ok(())
}
