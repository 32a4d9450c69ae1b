ghost use Rattle.blk_device.specs.Contents.{CanRead, HasBytes, HasNone, HasSize, content};
ghost use Rattle.blk_device.specs.Planned.{buffer_of, count_of, over, size_of};
ghost use Rattle.ipe_words.specs.Count.{Rose};
ghost use Rattle.std.specs.Prelude.{◌≡◌, ◌-◌, ◌<◌, ◌≤◌, Some, drop, length, min, take, IfOk, IsErrOf};

use super::{DevError, Devices, NamedBytes};
use std::marker::Model;

/// Devices over bytes that are lent. They never answer that they failed.
#[derive(Debug, Drop)]
pub struct ImageDevices<'a> {
    items: &'a NamedBytes,
}

impl<'a> Model for ImageDevices<'a> {
    ghost use Rattle.blk_device.specs.Contents.{Contents};

    ghost Value = { Contents };

    ghost view = { λ s. s.items.now };
}

impl<'a> ImageDevices<'a> {
    /// The devices with these contents.
    pub fn new(items: &'a NamedBytes) -> ImageDevices<'a>
        ensures { result ≡ items.now }
    {
        ImageDevices { items }
    }
}

impl<'a> Devices for ImageDevices<'a> {
    ghost contents = { λ s. Some s };

    ghost faults = { λ _. 0 };

    fn size(&mut self, name: &[u8]) -> Result<u64, DevError>
        ensures size { IfOk result (λ n. HasSize (Some self.old) name.now n) }
        ensures missing { IsErrOf result DevError.Missing → HasNone (Some self.old) name.now }
        ensures failed { IsErrOf result DevError.Failed → Rose 0 0 }
        ensures never_falls { 0 ≤ 0 }

        // Never that it failed, and nothing changes.
        ensures answer { result ≡ size_of (content name.now self.old) }
        ensures same { self.new ≡ self.old }
    {
        match self.items.get(name) {
            Some(bytes) => Ok(bytes.len() as u64),
            None => Err(DevError::Missing),
        }
    }

    fn read_at(&mut self, name: &[u8], at: u64, out: &mut [u8]) -> Result<usize, DevError>
        requires { CanRead (Some self.old) name.now at (length out.old) }
        ensures bound { IfOk result (λ n. n ≤ length out.old) }
        ensures progress { IfOk result (λ n. 0 < length out.old → 0 < n) }
        ensures bytes { IfOk result (λ n. HasBytes (Some self.old) name.now at (take n out.new)) }
        ensures missing { IsErrOf result DevError.Missing → HasNone (Some self.old) name.now }
        ensures failed { IsErrOf result DevError.Failed → Rose 0 0 }
        ensures never_falls { 0 ≤ 0 }

        // Never that it failed, and as many bytes are given as there are and fit. The rest of `out` stays.
        ensures answer { result ≡ count_of (content name.now self.old) at (length out.old) }
        ensures buffer { out.new ≡ buffer_of (content name.now self.old) at out.old }
        ensures same { self.new ≡ self.old }
    {
        match self.items.get(name) {
            Some(bytes) => Ok(copy_from(bytes, at, out)),
            None => Err(DevError::Missing),
        }
    }
}

// Copies bytes from `at` on into the front of `out`, as many as there are and fit, and says how many.
pub(crate) fn copy_from(bytes: &[u8], at: u64, out: &mut [u8]) -> usize
    ensures count { result ≡ min (length bytes.now - at) (length out.old) }
    ensures buffer { out.new ≡ over (drop at bytes.now) out.old }
{
    let rest = &bytes[bytes.len().min(at as usize)..];
    let count = rest.len().min(out.len());
    out[..count].copy_from_slice(&rest[..count]);
    count
}
