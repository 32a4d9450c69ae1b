ghost use Rattle.std.specs.Prelude.{◌≡◌, ◌<◌, ◌≤◌, ℕ, List, Option, length, vec_len, IfOk, OnErr, IfSome, IsErrOf};
ghost use Rattle.ipe_words.specs.Count.{Rose};
ghost use Rattle.ipe_words.specs.Source.{GivesTold, LeavesRest, TakesAll};

use std::alloc::Global;
use thiserror::Error;

/// A call on a source or a sink failed, and was counted there.
#[derive(Clone, Copy, Debug, PartialEq, Eq)]
pub struct Failed;

/// Where bytes come from.
pub trait Source {
    /// The bytes that are left, where the source tells them.
    ghost remaining: { Self → Option (List ℕ) };

    /// How many calls have failed. The count stands still at 2^64 - 1.
    ghost faults: { Self → ℕ };

    /// Gives the next bytes into the front of `buf`, and says how many. 0 for a buffer that isn't empty is the end.
    fn read(&mut self, buf: &mut [u8]) -> Result<usize, Failed>
        ensures bound { IfOk result (λ n. n ≤ length buf.old) }
        ensures given { IfOk result (λ n. GivesTold (remaining self.old) (remaining self.new) buf.new n) }
        ensures never_falls { faults self.old ≤ faults self.new }
        ensures failed { OnErr result (Rose (faults self.old) (faults self.new)) };
}

/// Why a source was not read to its end.
#[derive(Debug, Drop, Error)]
pub enum ReadAllError {
    #[error("the input could not be read")]
    ReadFault,
    #[error("the input has more than {limit} bytes")]
    TooLong { limit: u64 },
    #[error("out of memory")]
    NoMemory,
}

// How many bytes a call of `read` is offered room for.
const CHUNK: usize = 8192;

/// All that is left of a source, where that is at most `limit` bytes. After it is too long or out of memory, a rest of what
/// was there is left.
pub fn read_all<S: Source>(alloc: Global, src: &mut S, limit: u64) -> Result<Vec<u8>, ReadAllError>
    ensures all { IfOk result (λ bytes. TakesAll (S.remaining src.old) (S.remaining src.new) bytes.items) }
    ensures within { IfOk result (λ bytes. vec_len bytes ≤ limit) }
    ensures read_fault { IsErrOf result ReadAllError.ReadFault → Rose (S.faults src.old) (S.faults src.new) }
    ensures too_long { IsErrOf result (ReadAllError.TooLong limit)
        → IfSome (S.remaining src.old) (λ left. limit < length left) }
    ensures limit_named { (other : ℕ) → IsErrOf result (ReadAllError.TooLong other) → other ≡ limit }
    ensures rest_too_long { IsErrOf result (ReadAllError.TooLong limit)
        → LeavesRest (S.remaining src.old) (S.remaining src.new) }
    ensures rest_no_memory { IsErrOf result ReadAllError.NoMemory
        → LeavesRest (S.remaining src.old) (S.remaining src.new) }
    ensures never_falls { S.faults src.old ≤ S.faults src.new }
{
    let mut bytes = Vec::new(alloc);
    let mut chunk = [0; CHUNK];
    'reading: loop {
        let given = src.read(&mut chunk).map_err(|_| ReadAllError::ReadFault)?;
        if given == 0 {
            return Ok(bytes);
        }
        if limit - (bytes.len() as u64) < given as u64 {
            return Err(ReadAllError::TooLong { limit });
        }
        bytes
            .extend_from_slice(&chunk[..given])
            .map_err(|_| ReadAllError::NoMemory)?;
    }
}
