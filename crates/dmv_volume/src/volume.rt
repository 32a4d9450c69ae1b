ghost use Rattle.blk_device.specs.Contents.{HasAtLeast, HasNone, OnDevice};
ghost use Rattle.dmv_volume.specs.Reading.{data_need, hash_need, tree_of_volume};
ghost use Rattle.dmv_volume.specs.Table.{HasLimits};
ghost use Rattle.ipe_words.specs.Count.{Rose};
ghost use Rattle.std.specs.Fork.{slice_chunk};
ghost use Rattle.std.specs.Prelude.{◌≡◌, ◌<◌, ◌≤◌, ◌⊎◌, ℕ, List, Ok, [], length, replicate, slice_index_or, take, IfOk};
ghost use Rattle.std.specs.Prelude.{IsErrOf, OnErr, OnOk};
ghost use Rattle.stored_tree.specs.Checked.{FailsAt, IsChecked, IsOfImage, IsRightSoFar, answer_of, failing};
ghost use Rattle.stored_tree.specs.Stored.{HoldsTreeOf, OfBoth, TakenFrom, held_path, levels_of};

use crate::{BlockPath, Table};
use blk_device::{Devices, VerityError};
use dmv_tree::block_sizes_are_spelled;
use hash_tree::HashAlgorithm;
use std::alloc::{AllocError, Global};
use std::marker::Model;
use stored_tree::{PathReader, StoredTree};

/// A verity volume: blocks are read through it from devices, and each is checked in the call that reads it.
#[derive(Debug, Drop)]
pub struct Volume {
    table: Table,
    reader: PathReader,
}

impl Model for Volume {
    ghost use Rattle.dmv_volume.specs.Reading.{VolumeParts};
    ghost use Rattle.dmv_volume.specs.Table.{HasLimits};

    ghost Value = { VolumeParts };

    ghost view = { λ s. record { table = s.table; path = s.reader } };

    ghost invariant = { λ s. HasLimits s.table };
}

impl Volume {
    /// The volume of a table. It asks no device, and no read of it takes memory.
    pub fn attach(alloc: Global, table: &Table) -> Result<Volume, AllocError>
        ensures table { IfOk result (λ volume. volume.table ≡ table.now) }
        ensures limits { IfOk result (λ volume. HasLimits volume.table) }
        ensures path { IfOk result (λ volume. volume.path ≡ []) }
    {
        let reader = PathReader::new(alloc)?;
        let table = table.copy(alloc)?;
        Ok(Volume { table, reader })
    }

    /// Reads block `i` into `out`, which has the size of a block. The blocks of its path are taken from the devices in
    /// this call, from the top level down to the data, and each is checked before the next one is taken.
    ///
    /// The error says which block was the first that failed, or that a device failed or isn't there. After an error
    /// `out` has zeros.
    pub fn read_block<D: Devices>(
        &mut self,
        dev: &mut D,
        i: u64,
        out: &mut [u8],
    ) -> Result<(), VerityError>
        requires block { i < self.old.table.blocks }
        requires one_block { length out.old ≡ self.old.table.block_size }
        requires has_data { HasAtLeast (D.contents dev.old) self.old.table.device (data_need self.old.table) }
        requires has_hashes { HasAtLeast (D.contents dev.old) self.old.table.hash_device (hash_need self.old.table) }

        // No block of the path fails, and the last is in `out`: that of each image with the declared root.
        ensures ok { OnOk result (IsChecked (tree_of_volume self.old.table) i self.new.path out.new) }
        ensures image { OnOk result (IsOfImage (tree_of_volume self.old.table) i self.new.path out.new) }

        // The last block of the path that was read is the first that fails.
        ensures corrupt { (level b : ℕ) → IsErrOf result (VerityError.Corrupt level b) →
            FailsAt (tree_of_volume self.old.table) i self.new.path level b }

        // A device answered so; no block that was taken before fails. Of one block it is that of the data.
        ensures missing { IsErrOf result VerityError.Missing → HasNone (D.contents dev.old) self.old.table.device
            ⊎ ((0 < levels_of (tree_of_volume self.old.table)) × HasNone (D.contents dev.old) self.old.table.hash_device) }
        ensures failed { IsErrOf result VerityError.DeviceFault → Rose (D.faults dev.old) (D.faults dev.new) }
        ensures right { IsErrOf result VerityError.DeviceFault ⊎ IsErrOf result VerityError.Missing →
            IsRightSoFar (tree_of_volume self.old.table) i self.new.path }

        // What was taken is what the devices hold, each of which is there if a block of it was taken.
        ensures hashes { TakenFrom (D.contents dev.old) (tree_of_volume self.old.table) i
            (take (levels_of (tree_of_volume self.old.table)) self.new.path) }
        ensures data { levels_of (tree_of_volume self.old.table) < length self.new.path →
            OnDevice (D.contents dev.old) self.old.table.device (λ bytes.
            slice_index_or self.new.path (levels_of (tree_of_volume self.old.table)) []
            ≡ slice_chunk bytes self.old.table.block_size i) }

        // Unless a device failed, the answer is what the path that they hold says.
        ensures answer { OfBoth (D.contents dev.old) self.old.table.device (tree_of_volume self.old.table) (λ bytes hashes.
            (IsErrOf result VerityError.DeviceFault → ⊥) →
            result ≡ answer_of (failing (tree_of_volume self.old.table) i (held_path (tree_of_volume self.old.table) bytes hashes i))) }

        // Where the devices hold an image and its tree under the root, only a device's failure is an error.
        ensures complete { OfBoth (D.contents dev.old) self.old.table.device (tree_of_volume self.old.table) (λ bytes hashes.
            (image : List (List ℕ)) → HoldsTreeOf (tree_of_volume self.old.table) hashes image →
            slice_chunk bytes self.old.table.block_size i ≡ slice_index_or image i [] →
            (IsErrOf result VerityError.DeviceFault → ⊥) → result ≡ Ok tt) }
        ensures cleared { OnErr result (out.new ≡ replicate (length out.old) 0) }
        ensures same { D.contents dev.new ≡ D.contents dev.old }
        ensures never_falls { D.faults dev.old ≤ D.faults dev.new }
        ensures kept { self.new ≡ record self.old { path = self.new.path } }
    {
        block_sizes_are_spelled();
        let tree = stored_tree(&self.table);
        let read = self
            .reader
            .read_block(&tree, self.table.device(), dev, i, out);
        if read.is_err() {
            out.fill(0);
        }
        read
    }

    /// The path of the last call, as far as it was read.
    pub fn path(&self) -> &BlockPath
        ensures { result.now ≡ self.now.path }
    {
        self.reader.path()
    }
}

// The tree that a table says.
fn stored_tree<'a>(table: &'a Table) -> StoredTree<'a>
    ensures { result ≡ tree_of_volume table.now }
{
    StoredTree {
        device: table.hash_device(),
        start: table.hash_start() * u64::from(table.block_size()),
        block_size: table.block_size(),
        blocks: table.blocks(),
        algorithm: HashAlgorithm::Sha256,
        root: table.root(),
        salt: table.salt(),
    }
}
