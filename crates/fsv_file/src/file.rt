ghost use Rattle.blk_device.specs.Contents.{HasNone};
ghost use Rattle.fsv_file.specs.File.{IsOfFile, blocks_of, file_block_size, path_to, tree_of_file};
ghost use Rattle.stored_tree.specs.Checked.{FailsAt, IsChecked, IsRightSoFar, answer_of, failing};
ghost use Rattle.stored_tree.specs.Stored.{HasTree, HoldsTreeOf, OfHashes, TakenFrom, end_of, levels_of};
ghost use Rattle.hash_tree.specs.Tree.{data_blocks};
ghost use Rattle.ipe_words.specs.Count.{Rose};
ghost use Rattle.std.specs.Prelude.{◌≡◌, ◌<◌, ◌≤◌, ◌⊎◌, ℕ, List, Ok, [], length, slice_index_or, take, IfOk, IsErrOf, OnOk};

use blk_device::{Devices, VerityError};
use fsv_tree::{BlockSalt, Descriptor, roots_are_of_trees};
use hash_tree::HashAlgorithm;
use std::alloc::{AllocError, Global};
use std::marker::Model;
use stored_tree::{BlockPath, PathReader, StoredTree};

/// A file under fs-verity: its blocks are checked as they are handed in, each against the hash blocks over it, which
/// are read and checked in the same call.
#[derive(Debug, Drop)]
pub struct FsvFile {
    descriptor: Descriptor,
    device: Vec<u8>,
    tree_at: u64,
    reader: PathReader,
}

impl Model for FsvFile {
    ghost use Rattle.fsv_file.specs.File.{FileParts};
    ghost use Rattle.std.specs.Prelude.{◌≤◌};

    ghost Value = { FileParts };

    ghost view = { λ s. record {
      descriptor = s.descriptor;
      device = s.device.items;
      tree_at = s.tree_at;
      path = s.reader;
    } };

    ghost invariant = { λ s. s.tree_at ≤ 16777216 };
}

impl FsvFile {
    /// The file of a descriptor, whose stored tree begins at byte `tree_at` of a device, at most 16,777,216. It asks no
    /// device, and no check of a block takes memory.
    pub fn attach(
        alloc: Global,
        descriptor: &Descriptor,
        device: &[u8],
        tree_at: u64,
    ) -> Result<FsvFile, AllocError>
        requires { tree_at ≤ 16777216 }
        ensures descriptor { IfOk result (λ file. file.descriptor ≡ descriptor.now) }
        ensures device { IfOk result (λ file. file.device ≡ device.now) }
        ensures tree_at { IfOk result (λ file. file.tree_at ≡ tree_at) }
        ensures path { IfOk result (λ file. file.path ≡ []) }
    {
        let reader = PathReader::new(alloc)?;
        let device = device.to_vec(alloc)?;
        Ok(FsvFile {
            descriptor: descriptor.copy(),
            device,
            tree_at,
            reader,
        })
    }

    /// How many bytes the device has to have at least: its stored tree ends there.
    pub fn tree_end(&self) -> u64
        ensures { result ≡ end_of (tree_of_file self.now) }
    {
        self.tree_at + self.descriptor.tree_blocks() * u64::from(self.descriptor.block_size())
    }

    /// Checks block `i` of the file, as it was read and filled with zeros to the size of a block. The hash blocks over
    /// it are taken from the device in this call, from the top level down, and each is checked before the next one is
    /// taken.
    ///
    /// The error says which block was the first that failed, or that the device failed or isn't there.
    pub fn check_block<D: Devices>(
        &mut self,
        dev: &mut D,
        block: &[u8],
        i: u64,
    ) -> Result<(), VerityError>
        requires block { i < blocks_of self.old.descriptor }
        requires one_block { length block.now ≡ file_block_size self.old.descriptor }
        requires has_tree { HasTree (D.contents dev.old) (tree_of_file self.old) }

        // No block of the path fails, and the last is the one that was handed in: that of each file with the root.
        ensures ok { OnOk result (IsChecked (tree_of_file self.old) i self.new.path block.now) }
        ensures file { OnOk result (IsOfFile self.old i self.new.path block.now) }

        // The last block of the path that was taken is the first that fails.
        ensures corrupt { (level b : ℕ) → IsErrOf result (VerityError.Corrupt level b) →
            FailsAt (tree_of_file self.old) i self.new.path level b }

        // The device answered so; no block that was taken before fails.
        ensures missing { IsErrOf result VerityError.Missing →
            (0 < levels_of (tree_of_file self.old)) × HasNone (D.contents dev.old) self.old.device }
        ensures failed { IsErrOf result VerityError.DeviceFault → Rose (D.faults dev.old) (D.faults dev.new) }
        ensures right { IsErrOf result VerityError.DeviceFault ⊎ IsErrOf result VerityError.Missing →
            IsRightSoFar (tree_of_file self.old) i self.new.path }

        // The hash blocks that were taken are what the device holds, which is there if any was; and unless it failed the
        // answer is what the held hash blocks and the block say.
        ensures hashes { TakenFrom (D.contents dev.old) (tree_of_file self.old) i
            (take (levels_of (tree_of_file self.old)) self.new.path) }
        ensures answer { OfHashes (D.contents dev.old) (tree_of_file self.old) (λ bytes.
            (IsErrOf result VerityError.DeviceFault → ⊥) →
            result ≡ answer_of (failing (tree_of_file self.old) i (path_to self.old bytes i block.now))) }

        // Where the device holds the tree of a file with the root, only a device's failure is an error for its blocks.
        ensures complete { OfHashes (D.contents dev.old) (tree_of_file self.old) (λ bytes. (all : List ℕ) →
            length all ≡ self.old.descriptor.size →
            HoldsTreeOf (tree_of_file self.old) bytes (data_blocks (file_block_size self.old.descriptor) all) →
            block.now ≡ slice_index_or (data_blocks (file_block_size self.old.descriptor) all) i [] →
            (IsErrOf result VerityError.DeviceFault → ⊥) → result ≡ Ok tt) }

        // Where no level stands above the data, the device isn't asked.
        ensures unasked { levels_of (tree_of_file self.old) ≡ 0 → dev.new ≡ dev.old }
        ensures same { D.contents dev.new ≡ D.contents dev.old }
        ensures never_falls { D.faults dev.old ≤ D.faults dev.new }
        ensures kept { self.new ≡ record self.old { path = self.new.path } }
    {
        roots_are_of_trees();
        let root = self.descriptor.root();
        let salt = BlockSalt::new(self.descriptor.salt());
        let tree = StoredTree {
            device: &self.device,
            start: self.tree_at,
            block_size: self.descriptor.block_size(),
            blocks: self.descriptor.blocks(),
            algorithm: HashAlgorithm::Sha256,
            root: &root,
            salt: salt.as_slice(),
        };
        self.reader.check_block(&tree, dev, i, block)
    }

    /// The path of the last call, as far as it was read.
    pub fn path(&self) -> &BlockPath
        ensures { result.now ≡ self.now.path }
    {
        self.reader.path()
    }
}
