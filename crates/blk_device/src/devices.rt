ghost use Rattle.blk_device.specs.Contents.{Contents, CanRead, HasBytes, HasNone, HasSize};
ghost use Rattle.ipe_words.specs.Count.{Rose};
ghost use Rattle.std.specs.Prelude.{◌≡◌, ◌<◌, ◌≤◌, ℕ, Option, length, take, IfOk, IsErrOf};

/// Why a device didn't answer.
#[derive(Clone, Copy, Debug, PartialEq, Eq)]
pub enum DevError {
    /// The call failed, and was counted.
    Failed,
    /// No device has the name.
    Missing,
}

/// Why a checked read gave no bytes.
#[derive(Clone, Copy, Debug, PartialEq, Eq)]
pub enum VerityError {
    /// This block of this level hasn't the digest that is wanted. Level 0 is the data.
    Corrupt { level: u8, block: u64 },
    /// A device failed.
    DeviceFault,
    /// No device has the name.
    Missing,
}

impl From<DevError> for VerityError {
    ghost use Rattle.blk_device.specs.declared.devices.DevError.{DevError};
    ghost use Rattle.blk_device.specs.declared.devices.VerityError.{VerityError};

    ghost from_gives = { λ error fault. (fault ≡ VerityError.Missing → error ≡ DevError.Missing)
        × (fault ≡ VerityError.DeviceFault → error ≡ DevError.Failed)
        × ((level block : ℕ) → fault ≡ VerityError.Corrupt level block → ⊥) };

    fn from(error: DevError) -> VerityError {
        match error {
            DevError::Failed => VerityError::DeviceFault,
            DevError::Missing => VerityError::Missing,
        }
    }
}

/// Devices, each with a name.
pub trait Devices {
    /// What the devices hold, where that is told. The first of a name counts.
    ghost contents: { Self → Option Contents };

    /// How many calls have failed. The count stands still at 2^64 - 1.
    ghost faults: { Self → ℕ };

    /// How many bytes the device of this name has.
    fn size(&mut self, name: &[u8]) -> Result<u64, DevError>
        ensures size { IfOk result (λ n. HasSize (contents self.old) name.now n) }
        ensures missing { IsErrOf result DevError.Missing → HasNone (contents self.old) name.now }
        ensures failed { IsErrOf result DevError.Failed → Rose (faults self.old) (faults self.new) }
        ensures same { contents self.new ≡ contents self.old }
        ensures never_falls { faults self.old ≤ faults self.new };

    /// Reads the device's bytes from `at` on into the front of `out`, and says how many: at least one, where `out`
    /// isn't empty. Nothing is said of the rest of `out`, or of `out` after an error.
    fn read_at(&mut self, name: &[u8], at: u64, out: &mut [u8]) -> Result<usize, DevError>
        requires { CanRead (contents self.old) name.now at (length out.old) }
        ensures bound { IfOk result (λ n. n ≤ length out.old) }
        ensures progress { IfOk result (λ n. 0 < length out.old → 0 < n) }
        ensures bytes { IfOk result (λ n. HasBytes (contents self.old) name.now at (take n out.new)) }
        ensures missing { IsErrOf result DevError.Missing → HasNone (contents self.old) name.now }
        ensures failed { IsErrOf result DevError.Failed → Rose (faults self.old) (faults self.new) }
        ensures same { contents self.new ≡ contents self.old }
        ensures never_falls { faults self.old ≤ faults self.new };
}
