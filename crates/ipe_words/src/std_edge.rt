ghost use Rattle.std.specs.Prelude.{◌≡◌, ◌<◌, ◌≤◌, length, take, IfOk, OnOk, OnErr};
ghost use Rattle.std.specs.Io.KnownBytes.{Appends, Consumes, IsAtEnd, Keeps};
ghost use Rattle.ipe_words.specs.Count.{Rose, counted};

use super::{Failed, Sink, Source};
use std::io::{Read, Write};
use std::marker::Model;

/// A reader of std as a source. An error of the reader is a fault, and nothing is tried again.
#[derive(Drop)]
pub struct StdSource<R> {
    inner: R,
    faults: u64,
}

impl<R> Model for StdSource<R> {
    ghost use Rattle.ipe_words.specs.Count.{Adapter};

    ghost Value = { Adapter R };

    ghost view = { λ s. record { inner = s.inner; faults = s.faults } };
}

impl<R> StdSource<R> {
    /// The source over this reader.
    pub fn new(inner: R) -> StdSource<R>
        ensures { result ≡ record { inner = inner; faults = 0 } }
    {
        StdSource { inner, faults: 0 }
    }
}

impl<R: Read> Source for StdSource<R> {
    ghost use Rattle.std.specs.Prelude.{None};

    ghost remaining = { λ _. None };

    ghost faults = { λ s. s.faults };

    fn read(&mut self, buf: &mut [u8]) -> Result<usize, Failed>
        ensures bound { IfOk result (λ n. n ≤ length buf.old) }
        ensures never_falls { self.old.faults ≤ self.new.faults }
        ensures failed { OnErr result (Rose self.old.faults self.new.faults) }

        // What the reader's own clauses say of its bytes, and that only its errors are counted.
        ensures bytes { IfOk result (λ n.
            Consumes (R.remaining self.old.inner) (R.remaining self.new.inner) (take n buf.new)) }
        ensures end { IfOk result (λ n.
            n ≡ 0 → 0 < length buf.new → IsAtEnd (R.remaining self.new.inner)) }
        ensures bytes_stay { OnErr result (Keeps (R.remaining self.old.inner) (R.remaining self.new.inner)) }
        ensures not_counted { OnOk result (self.new.faults ≡ self.old.faults) }
        ensures one_counted { OnErr result (self.new.faults ≡ counted self.old.faults) }
    {
        match self.inner.read(buf) {
            Ok(given) => Ok(given),
            Err(_) => {
                self.faults = self.faults.saturating_add(1);
                Err(Failed)
            }
        }
    }
}

/// A writer of std as a sink. An error of the writer is a fault, and so is a writer that takes nothing of a piece that
/// isn't empty. Nothing is tried again.
#[derive(Drop)]
pub struct StdSink<W> {
    inner: W,
    faults: u64,
}

impl<W> Model for StdSink<W> {
    ghost use Rattle.ipe_words.specs.Count.{Adapter};

    ghost Value = { Adapter W };

    ghost view = { λ s. record { inner = s.inner; faults = s.faults } };
}

impl<W> StdSink<W> {
    /// The sink over this writer.
    pub fn new(inner: W) -> StdSink<W>
        ensures { result ≡ record { inner = inner; faults = 0 } }
    {
        StdSink { inner, faults: 0 }
    }
}

impl<W: Write> Sink for StdSink<W> {
    ghost use Rattle.std.specs.Prelude.{None};

    ghost written = { λ _. None };

    ghost faults = { λ s. s.faults };

    fn write(&mut self, buf: &[u8]) -> Result<usize, Failed>
        ensures bound { IfOk result (λ n. n ≤ length buf.now) }
        ensures progress { IfOk result (λ n. 0 < length buf.now → 0 < n) }
        ensures never_falls { self.old.faults ≤ self.new.faults }
        ensures failed { OnErr result (Rose self.old.faults self.new.faults) }

        // What the writer's own clauses say of its bytes, and that only a failed call is counted.
        ensures bytes { IfOk result (λ n.
            Appends (W.contents self.old.inner) (W.contents self.new.inner) (take n buf.now)) }
        ensures bytes_stay { OnErr result (Keeps (W.contents self.old.inner) (W.contents self.new.inner)) }
        ensures not_counted { OnOk result (self.new.faults ≡ self.old.faults) }
        ensures one_counted { OnErr result (self.new.faults ≡ counted self.old.faults) }
    {
        match self.inner.write(buf) {
            Ok(taken) if taken > 0 || buf.is_empty() => Ok(taken),
            _ => {
                self.faults = self.faults.saturating_add(1);
                Err(Failed)
            }
        }
    }
}
