ghost use Rattle.std.specs.Prelude.{◌≡◌, IfOk};
ghost use Rattle.ipe_replay.specs.Ends.{end_of};

use ipe_audit::Brief;
use ipe_records::active_brief;
use ipe_registry::Registry;
use std::alloc::AllocError;

// The epoch, what records tell of the active policy, and the switches, at the end of a run.
#[derive(Debug, Drop)]
pub(crate) struct End {
    pub(crate) epoch: u16,
    pub(crate) active: Option<Brief>,
    pub(crate) enforce: bool,
    pub(crate) success: bool,
}

impl End {
    pub(crate) fn of(registry: &Registry) -> Result<End, AllocError>
        ensures { IfOk result (λ end. end ≡ end_of registry.now) }
    {
        Ok(End {
            epoch: registry.epoch(),
            active: active_brief(registry)?,
            enforce: registry.enforce(),
            success: registry.success(),
        })
    }
}
