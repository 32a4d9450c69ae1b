ghost use Rattle.std.specs.Prelude.{◌≡◌, ◌<◌, ◌≤◌, [], ◌++◌, length, take, drop, Some, is_err, IfOk, OnErr};
ghost use Rattle.ipe_words.specs.Count.{Rose, counted};
ghost use Rattle.ipe_words.specs.Source.{GivesTold};
ghost use Rattle.ipe_words.specs.Sink.{Appends, AppendsPrefix};
ghost use Rattle.ipe_words.specs.Memory.{is_planned, read_fails, write_fails, given_count, taken_count};

use super::{Failed, Sink, Source};
use std::alloc::{AllocError, Global};
use std::marker::Model;

/// A source over bytes in memory, which gives them in pieces and fails where it is planned.
#[derive(Debug, Drop)]
pub struct MemorySource {
    bytes: Vec<u8>,
    given: usize,
    piece: usize,
    plan: Vec<u32>,
    calls: u64,
    faults: u64,
}

impl Model for MemorySource {
    ghost use Rattle.std.specs.Prelude.{◌≤◌, drop, vec_len};
    ghost use Rattle.ipe_words.specs.Memory.{Supply};

    ghost Value = { Supply };

    ghost view = { λ s. record {
      left = drop s.given s.bytes.items;
      piece = s.piece;
      plan = s.plan.items;
      calls = s.calls;
      faults = s.faults;
    } };

    ghost invariant = { λ s. (s.given ≤ vec_len s.bytes) × (1 ≤ s.piece) };
}

impl MemorySource {
    /// The source of these bytes. A call gives at most `piece` of them. The calls with a number in `plan` fail: the
    /// first has the number 1.
    pub fn new(bytes: Vec<u8>, piece: usize, plan: Vec<u32>) -> MemorySource
        requires { 1 ≤ piece }
        ensures { result ≡ record { left = bytes.items; piece = piece; plan = plan.items; calls = 0; faults = 0 } }
    {
        MemorySource {
            bytes,
            given: 0,
            piece,
            plan,
            calls: 0,
            faults: 0,
        }
    }
}

impl Source for MemorySource {
    ghost remaining = { λ s. Some s.left };

    ghost faults = { λ s. s.faults };

    fn read(&mut self, buf: &mut [u8]) -> Result<usize, Failed>
        ensures bound { IfOk result (λ n. n ≤ length buf.old) }
        ensures given { IfOk result (λ n. GivesTold (Some self.old.left) (Some self.new.left) buf.new n) }
        ensures never_falls { self.old.faults ≤ self.new.faults }
        ensures failed { OnErr result (Rose self.old.faults self.new.faults) }

        // Which calls fail, and what a call gives and leaves.
        ensures fails { is_err result ≡ read_fails self.old }
        ensures count { IfOk result (λ n. n ≡ given_count self.old (length buf.old)) }
        ensures after { IfOk result (λ n.
            self.new ≡ record self.old { left = drop n self.old.left; calls = counted self.old.calls }) }
        ensures after_failed { OnErr result (self.new ≡ record self.old {
          calls = counted self.old.calls;
          faults = counted self.old.faults;
        }) }
        ensures buffer { IfOk result (λ n. buf.new ≡ take n self.old.left ++ drop n buf.old) }
        ensures untouched { OnErr result (buf.new ≡ buf.old) }
    {
        self.calls = self.calls.saturating_add(1);
        if contains_call(self.plan.as_slice(), self.calls) {
            self.faults = self.faults.saturating_add(1);
            return Err(Failed);
        }
        let rest = &self.bytes[self.given..];
        let count = self.piece.min(rest.len()).min(buf.len());
        buf[..count].copy_from_slice(&rest[..count]);
        self.given += count;
        Ok(count)
    }
}

/// A sink into memory, which takes bytes in pieces and fails where it is planned and where it is full.
#[derive(Debug, Drop)]
pub struct MemorySink {
    bytes: Vec<u8>,
    room: usize,
    piece: usize,
    plan: Vec<u32>,
    calls: u64,
    faults: u64,
}

impl Model for MemorySink {
    ghost use Rattle.std.specs.Prelude.{◌≤◌, vec_len, vec_capacity};
    ghost use Rattle.ipe_words.specs.Memory.{Store};

    ghost Value = { Store };

    ghost view = { λ s. record {
      written = s.bytes.items;
      room = s.room;
      piece = s.piece;
      plan = s.plan.items;
      calls = s.calls;
      faults = s.faults;
    } };

    ghost invariant = { λ s. (vec_len s.bytes ≤ s.room) × (s.room ≤ vec_capacity s.bytes) × (1 ≤ s.piece) };
}

impl MemorySink {
    /// An empty sink with room for `room` bytes, which it reserves. A call takes at most `piece` of them. The calls
    /// with a number in `plan` fail: the first has the number 1.
    pub fn new(
        alloc: Global,
        piece: usize,
        room: usize,
        plan: Vec<u32>,
    ) -> Result<MemorySink, AllocError>
        requires { 1 ≤ piece }
        ensures { IfOk result (λ sink. sink ≡ record {
          written = [];
          room = room;
          piece = piece;
          plan = plan.items;
          calls = 0;
          faults = 0;
        }) }
    {
        let bytes = Vec::with_capacity(alloc, room)?;
        Ok(MemorySink {
            bytes,
            room,
            piece,
            plan,
            calls: 0,
            faults: 0,
        })
    }

    /// The bytes that were written, in order.
    pub fn written(&self) -> &[u8]
        ensures { result.now ≡ self.now.written }
    {
        self.bytes.as_slice()
    }
}

impl Sink for MemorySink {
    ghost written = { λ s. Some s.written };

    ghost faults = { λ s. s.faults };

    fn write(&mut self, buf: &[u8]) -> Result<usize, Failed>
        ensures bound { IfOk result (λ n. n ≤ length buf.now) }
        ensures progress { IfOk result (λ n. 0 < length buf.now → 0 < n) }
        ensures taken { IfOk result (λ n. Appends (Some self.old.written) (Some self.new.written) (take n buf.now)) }
        ensures prefix { OnErr result (AppendsPrefix (Some self.old.written) (Some self.new.written) buf.now) }
        ensures never_falls { self.old.faults ≤ self.new.faults }
        ensures failed { OnErr result (Rose self.old.faults self.new.faults) }

        // Which calls fail, and what a call takes and leaves.
        ensures fails { is_err result ≡ write_fails self.old buf.now }
        ensures count { IfOk result (λ n. n ≡ taken_count self.old (length buf.now)) }
        ensures after { IfOk result (λ n. self.new ≡ record self.old {
          written = self.old.written ++ take n buf.now;
          calls = counted self.old.calls;
        }) }
        ensures after_failed { OnErr result (self.new ≡ record self.old {
          calls = counted self.old.calls;
          faults = counted self.old.faults;
        }) }
    {
        self.calls = self.calls.saturating_add(1);
        let free = self.room - self.bytes.len();
        if contains_call(self.plan.as_slice(), self.calls) || (free == 0 && !buf.is_empty()) {
            self.faults = self.faults.saturating_add(1);
            return Err(Failed);
        }
        let count = self.piece.min(free).min(buf.len());
        self.bytes.extend_from_slice(&buf[..count]).unwrap();
        Ok(count)
    }
}

// Whether the plan names the call of this number.
fn contains_call(plan: &[u32], call: u64) -> bool
    ensures { result ≡ is_planned plan.now call }
{
    plan.iter().any(|planned| u64::from(*planned) == call)
}
