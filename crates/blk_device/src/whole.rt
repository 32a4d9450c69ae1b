ghost use Rattle.blk_device.specs.Contents.{HasAtLeast, HasContent, HasDevice, HasNone, HasSize, OnDevice, content};
ghost use Rattle.ipe_words.specs.Count.{Rose};
ghost use Rattle.std.specs.Prelude.{◌≡◌, ◌+◌, ◌^◌, ◌<◌, ◌≤◌, length, take, drop, false, true, IfOk, IfSome, IsErrOf, OnOk};

use super::{DevError, Devices};
use std::alloc::Global;

/// Whether a device has at least so many bytes. Those that read a range of it ask for this.
#[tactic(auto, using(crate::proofs::Needs::size_fits, crate::proofs::Needs::size_short, crate::proofs::Needs::none_fits, crate::proofs::Needs::size_there))]
pub fn has_at_least<D: Devices>(devices: &mut D, name: &[u8], size: u64) -> Result<bool, DevError>
    ensures yes { IfOk result (λ has. has ≡ true → HasAtLeast (D.contents devices.old) name.now size) }
    ensures no { IfOk result (λ has. has ≡ false → IfSome (D.contents devices.old) (λ items.
        IfSome (content name.now items) (λ all. length all < size))) }
    ensures missing { IsErrOf result DevError.Missing → HasNone (D.contents devices.old) name.now }

    ensures there { IfOk result (λ _. HasDevice (D.contents devices.old) name.now) }

    // One that isn't there meets what is asked of those that are.
    ensures none_there { IsErrOf result DevError.Missing → HasAtLeast (D.contents devices.old) name.now size }
    ensures failed { IsErrOf result DevError.Failed → Rose (D.faults devices.old) (D.faults devices.new) }
    ensures same { D.contents devices.new ≡ D.contents devices.old }
    ensures never_falls { D.faults devices.old ≤ D.faults devices.new }
{
    Ok(size <= devices.size(name)?)
}

/// Why a whole device was not read.
#[derive(Clone, Copy, Debug, PartialEq, Eq)]
pub enum ReadDeviceError {
    /// A call failed, and was counted.
    Failed,
    /// No device has the name.
    Missing,
    /// Memory is short.
    NoMemory,
}

#[tactic(auto, using(crate::proofs::Needs::whole_read, crate::proofs::Needs::empty_read))]
/// Reads a whole device, whose size in bytes [`Devices::size`] told, in as many calls as it needs.
pub fn read_device<D: Devices>(
    alloc: Global,
    devices: &mut D,
    name: &[u8],
    size: u64,
) -> Result<Vec<u8>, ReadDeviceError>
    requires { HasSize (D.contents devices.old) name.now size }
    ensures count { IfOk result (λ bytes. length bytes.items ≡ size) }
    ensures content { IfOk result (λ bytes. HasContent (D.contents devices.old) name.now bytes.items) }
    ensures missing { IsErrOf result ReadDeviceError.Missing → HasNone (D.contents devices.old) name.now }
    ensures failed { IsErrOf result ReadDeviceError.Failed → Rose (D.faults devices.old) (D.faults devices.new) }
    ensures same { D.contents devices.new ≡ D.contents devices.old }
    ensures never_falls { D.faults devices.old ≤ D.faults devices.new }
{
    let mut bytes = vec![in alloc; 0; size as usize].map_err(|_| ReadDeviceError::NoMemory)?;
    if bytes.is_empty() {
        return Ok(bytes);
    }
    match read_exact_at(devices, name, 0, &mut bytes) {
        Ok(()) => Ok(bytes),
        Err(DevError::Failed) => Err(ReadDeviceError::Failed),
        Err(DevError::Missing) => Err(ReadDeviceError::Missing),
    }
}

/// Reads a device's bytes from `at` on until `out` is full, in as many calls as it needs. At least one byte is asked for,
/// so done means that the device is there.
pub fn read_exact_at<D: Devices>(
    devices: &mut D,
    name: &[u8],
    at: u64,
    out: &mut [u8],
) -> Result<(), DevError>
    requires held { HasAtLeast (D.contents devices.old) name.now (at + length out.old) }
    requires fits { at + length out.old < 2 ^ 64 }
    requires some { 0 < length out.old }
    ensures bytes { OnOk result (OnDevice (D.contents devices.old) name.now (λ all.
        take (length out.new) (drop at all) ≡ out.new)) }
    ensures missing { IsErrOf result DevError.Missing → HasNone (D.contents devices.old) name.now }
    ensures failed { IsErrOf result DevError.Failed → Rose (D.faults devices.old) (D.faults devices.new) }
    ensures same { D.contents devices.new ≡ D.contents devices.old }
    ensures never_falls { D.faults devices.old ≤ D.faults devices.new }
{
    let mut done = 0;
    while done < out.len() {
        let count = devices.read_at(name, at + done as u64, &mut out[done..])?;
        done += count;
    }
    Ok(())
}
