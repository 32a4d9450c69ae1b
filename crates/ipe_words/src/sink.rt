ghost use Rattle.std.specs.Prelude.{◌≡◌, ◌<◌, ◌≤◌, ℕ, List, Option, length, OnOk, OnErr, IfOk, take};
ghost use Rattle.ipe_words.specs.Count.{Rose};
ghost use Rattle.ipe_words.specs.Sink.{Appends, AppendsPrefix};

use super::Failed;

/// Where bytes go to.
pub trait Sink {
    /// The bytes that are written, where the sink tells them.
    ghost written: { Self → Option (List ℕ) };

    /// How many calls have failed. The count stands still at 2^64 - 1.
    ghost faults: { Self → ℕ };

    /// Takes some first bytes of `buf`, and says how many: at least one of a piece that isn't empty.
    /// Where it fails it may have taken some too.
    fn write(&mut self, buf: &[u8]) -> Result<usize, Failed>
        ensures bound { IfOk result (λ n. n ≤ length buf.now) }
        ensures progress { IfOk result (λ n. 0 < length buf.now → 0 < n) }
        ensures taken { IfOk result (λ n. Appends (written self.old) (written self.new) (take n buf.now)) }
        ensures prefix { OnErr result (AppendsPrefix (written self.old) (written self.new) buf.now) }
        ensures never_falls { faults self.old ≤ faults self.new }
        ensures failed { OnErr result (Rose (faults self.old) (faults self.new)) };
}

/// Writes all the bytes, in as many calls as the sink needs. Each call is offered all that is left.
pub fn write_all<K: Sink>(sink: &mut K, bytes: &[u8]) -> Result<(), Failed>
    ensures all { OnOk result (Appends (K.written sink.old) (K.written sink.new) bytes.now) }
    ensures prefix { OnErr result (AppendsPrefix (K.written sink.old) (K.written sink.new) bytes.now) }
    ensures never_falls { K.faults sink.old ≤ K.faults sink.new }
    ensures failed { OnErr result (Rose (K.faults sink.old) (K.faults sink.new)) }
{
    let mut rest = bytes;
    while !rest.is_empty() {
        let taken = sink.write(rest)?;
        rest = &rest[taken..];
    }
    Ok(())
}
