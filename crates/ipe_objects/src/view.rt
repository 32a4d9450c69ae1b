ghost use Rattle.std.specs.Prelude.{◌≡◌, IfOk};
ghost use Rattle.ipe_objects.specs.Ready.{tables_of};

use crate::objects::Objects;
use dmv_volume::Volume;
use std::alloc::{AllocError, Global};
use std::marker::Model;

/// What one worker reads files through: the declared volumes, each attached.
#[derive(Debug, Drop)]
pub struct View {
    pub(crate) volumes: Vec<Volume>,
}

impl Model for View {
    ghost use Rattle.std.specs.Prelude.{List, map};
    ghost use Rattle.dmv_volume.specs.Reading.{VolumeParts};
    ghost use Rattle.dmv_volume.specs.Table.{TableParts};

    ghost Value = { List TableParts };

    ghost view = { λ s. map (λ (volume : VolumeParts). volume.table) s.volumes.items };
}

impl View {
    /// A view of these files, with room for a path down each volume. It asks no device.
    pub fn new(alloc: Global, objects: &Objects) -> Result<View, AllocError>
        ensures { IfOk result (λ view. view ≡ tables_of objects.now.script) }
    {
        let mut volumes = Vec::new(alloc);
        for volume in objects.declared().volumes() {
            let attached = Volume::attach(alloc, &volume.table)?;
            volumes.push(attached)?;
        }
        Ok(View { volumes })
    }
}
