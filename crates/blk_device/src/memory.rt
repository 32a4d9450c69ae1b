ghost use Rattle.blk_device.specs.Contents.{CanRead, HasBytes, HasNone, HasSize, content};
ghost use Rattle.blk_device.specs.Planned.{after_call, buffer_of, call_fails, count_of, size_of};
ghost use Rattle.ipe_words.specs.Count.{Rose};
ghost use Rattle.ipe_words.specs.Memory.{is_planned};
ghost use Rattle.std.specs.Prelude.{◌≡◌, ◌<◌, ◌≤◌, Some, Err, length, take, IfOk, IsErrOf, if◌then◌else◌};

use super::image::copy_from;
use super::{DevError, Devices, NamedBytes};
use std::marker::Model;

/// Devices over bytes in memory, which fail where it is planned.
#[derive(Debug, Drop)]
pub struct MemoryDevices {
    items: NamedBytes,
    plan: Vec<u32>,
    calls: u64,
    faults: u64,
}

impl Model for MemoryDevices {
    ghost use Rattle.blk_device.specs.Planned.{Planned};

    ghost Value = { Planned };

    ghost view = { λ s. record { items = s.items; plan = s.plan.items; calls = s.calls; faults = s.faults } };
}

impl MemoryDevices {
    /// The devices with these contents. The calls with a number in `plan` fail: the first has the number 1.
    pub fn new(items: NamedBytes, plan: Vec<u32>) -> MemoryDevices
        ensures { result ≡ record { items = items; plan = plan.items; calls = 0; faults = 0 } }
    {
        MemoryDevices {
            items,
            plan,
            calls: 0,
            faults: 0,
        }
    }

    // Counts a call, and says whether it is planned to fail.
    fn call(&mut self) -> bool
        ensures fails { result ≡ call_fails self.old }
        ensures after { self.new ≡ after_call self.old }
        ensures never_falls { self.old.faults ≤ self.new.faults }
    {
        self.calls = self.calls.saturating_add(1);
        let fails = contains_call(self.plan.as_slice(), self.calls);
        if fails {
            self.faults = self.faults.saturating_add(1);
        }
        fails
    }
}

// Whether the plan names the call of this number.
fn contains_call(plan: &[u32], call: u64) -> bool
    ensures { result ≡ is_planned plan.now call }
{
    plan.iter().any(|planned| u64::from(*planned) == call)
}

impl Devices for MemoryDevices {
    ghost contents = { λ s. Some s.items };

    ghost faults = { λ s. s.faults };

    fn size(&mut self, name: &[u8]) -> Result<u64, DevError>
        ensures size { IfOk result (λ n. HasSize (Some self.old.items) name.now n) }
        ensures missing { IsErrOf result DevError.Missing → HasNone (Some self.old.items) name.now }
        ensures failed { IsErrOf result DevError.Failed → Rose self.old.faults self.new.faults }
        ensures never_falls { self.old.faults ≤ self.new.faults }

        // Which calls fail, and what the others answer.
        ensures answer { result ≡ (if call_fails self.old then Err DevError.Failed
            else size_of (content name.now self.old.items)) }
        ensures after { self.new ≡ after_call self.old }
    {
        if self.call() {
            return Err(DevError::Failed);
        }
        match self.items.get(name) {
            Some(bytes) => Ok(bytes.len() as u64),
            None => Err(DevError::Missing),
        }
    }

    fn read_at(&mut self, name: &[u8], at: u64, out: &mut [u8]) -> Result<usize, DevError>
        requires { CanRead (Some self.old.items) name.now at (length out.old) }
        ensures bound { IfOk result (λ n. n ≤ length out.old) }
        ensures progress { IfOk result (λ n. 0 < length out.old → 0 < n) }
        ensures bytes { IfOk result (λ n. HasBytes (Some self.old.items) name.now at (take n out.new)) }
        ensures missing { IsErrOf result DevError.Missing → HasNone (Some self.old.items) name.now }
        ensures failed { IsErrOf result DevError.Failed → Rose self.old.faults self.new.faults }
        ensures never_falls { self.old.faults ≤ self.new.faults }

        // Which calls fail, and what the others answer.
        ensures answer { result ≡ (if call_fails self.old then Err DevError.Failed
            else count_of (content name.now self.old.items) at (length out.old)) }
        ensures buffer { out.new ≡ (if call_fails self.old then out.old
            else buffer_of (content name.now self.old.items) at out.old) }
        ensures after { self.new ≡ after_call self.old }
    {
        if self.call() {
            return Err(DevError::Failed);
        }
        match self.items.get(name) {
            Some(bytes) => Ok(copy_from(bytes, at, out)),
            None => Err(DevError::Missing),
        }
    }
}
