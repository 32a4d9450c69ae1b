ghost use Rattle.blk_device.specs.Contents.{HasAtLeast, HasNone, OnDevice};
ghost use Rattle.ipe_words.specs.Count.{Rose};
ghost use Rattle.std.specs.Fork.{slice_chunk};
ghost use Rattle.std.specs.Prelude.{◌≡◌, ◌+◌, ◌*◌, ◌<◌, ◌≤◌, ◌++◌, ◌∷◌, ◌⊎◌, ℕ, List, Ok, [], length, slice_index_or, take, IfOk, IsErrOf, OnOk};
ghost use Rattle.stored_tree.specs.Checked.{FailsAt, IsChecked, IsOfImage, IsRightSoFar, answer_of, failing};
ghost use Rattle.stored_tree.specs.Stored.{HasTree, HoldsTreeOf, IsStored, OfBoth, OfHashes, TakenFrom, held_blocks, held_path, levels_of};

use crate::path::MOST_BYTES;
use crate::walk::{check_data_block, take_hash_blocks};
use crate::{BlockPath, StoredTree, checked_blocks_are_of_the_image, held_trees_are_right};
use blk_device::{Devices, VerityError, read_exact_at};
use std::alloc::{AllocError, Global};
use std::marker::Model;

/// Reads paths down stored trees, block by block: each hash block is checked before the next one is taken. It keeps the
/// last path.
#[derive(Debug, Drop)]
pub struct PathReader {
    path: BlockPath,
    buffer: Vec<u8>,
}

impl Model for PathReader {
    ghost use Rattle.std.specs.Prelude.{◌≡◌, List, ℕ, length};

    ghost Value = { List (List ℕ) };

    ghost view = { λ s. s.path };

    ghost invariant = { λ s. length s.buffer.items ≡ 4096 };
}

impl PathReader {
    /// A reader with room for a path down any tree. The only error is out of memory, and no call on it takes any.
    pub fn new(alloc: Global) -> Result<PathReader, AllocError>
        ensures { IfOk result (λ reader. reader ≡ []) }
    {
        let path = BlockPath::new(alloc)?;
        let buffer = vec![in alloc; 0; MOST_BYTES]?;
        Ok(PathReader { path, buffer })
    }

    /// Takes the hash blocks over block `i` of the data, from the top level down, and checks that block, which is handed
    /// in.
    ///
    /// The error says which block was the first that failed, or that the tree's device failed or isn't there.
    pub fn check_block<D: Devices>(
        &mut self,
        tree: &StoredTree,
        dev: &mut D,
        i: u64,
        block: &[u8],
    ) -> Result<(), VerityError>
        requires tree { IsStored tree.now }
        requires block { i < tree.now.blocks }
        requires one_block { length block.now ≡ tree.now.block_size }
        requires has_tree { HasTree (D.contents dev.old) tree.now }

        // No block of the path fails, and the last is the one that was handed in: that of each image with the root.
        ensures ok { OnOk result (IsChecked tree.now i self.new block.now) }
        ensures image { OnOk result (IsOfImage tree.now i self.new block.now) }

        // The last block of the path that was taken is the first that fails.
        ensures corrupt { (level b : ℕ) → IsErrOf result (VerityError.Corrupt level b) →
            FailsAt tree.now i self.new level b }

        // A device answered so; no block that was taken before fails.
        ensures missing { IsErrOf result VerityError.Missing →
            (0 < levels_of tree.now) × HasNone (D.contents dev.old) tree.now.device }
        ensures failed { IsErrOf result VerityError.DeviceFault → Rose (D.faults dev.old) (D.faults dev.new) }
        ensures right { IsErrOf result VerityError.DeviceFault ⊎ IsErrOf result VerityError.Missing →
            IsRightSoFar tree.now i self.new }

        // What was taken is what the device holds, which is there if any was.
        ensures hashes { TakenFrom (D.contents dev.old) tree.now i (take (levels_of tree.now) self.new) }

        // Unless the device failed, the answer is what the held hash blocks and the block say.
        ensures answer { OfHashes (D.contents dev.old) tree.now (λ hashes.
            (IsErrOf result VerityError.DeviceFault → ⊥) →
            result ≡ answer_of (failing tree.now i (held_blocks tree.now hashes i ++ block.now ∷ []))) }

        // Where the device holds the tree of an image under the root, only its failure is an error for the image's block.
        ensures complete { OfHashes (D.contents dev.old) tree.now (λ hashes. (image : List (List ℕ)) →
            HoldsTreeOf tree.now hashes image → block.now ≡ slice_index_or image i [] →
            (IsErrOf result VerityError.DeviceFault → ⊥) → result ≡ Ok tt) }

        // Where no level stands above the data, the device isn't asked.
        ensures unasked { levels_of tree.now ≡ 0 → dev.new ≡ dev.old }
        ensures same { D.contents dev.new ≡ D.contents dev.old }
        ensures never_falls { D.faults dev.old ≤ D.faults dev.new }
        ensures short { length self.new ≤ levels_of tree.now + 1 }
    {
        checked_blocks_are_of_the_image();
        held_trees_are_right();
        take_and_check(tree, &mut self.path, dev, i, &mut self.buffer, block)
    }

    /// Takes the hash blocks over block `i` of the data, from the top level down, and then that block from the device of
    /// this name, on which the data begin at the first byte, into `out`, and checks it.
    ///
    /// The error says which block was the first that failed, or that a device failed or isn't there.
    pub fn read_block<D: Devices>(
        &mut self,
        tree: &StoredTree,
        disk: &[u8],
        dev: &mut D,
        i: u64,
        out: &mut [u8],
    ) -> Result<(), VerityError>
        requires tree { IsStored tree.now }
        requires block { i < tree.now.blocks }
        requires one_block { length out.old ≡ tree.now.block_size }
        requires has_tree { HasTree (D.contents dev.old) tree.now }
        requires has_data { HasAtLeast (D.contents dev.old) disk.now (tree.now.blocks * tree.now.block_size) }

        // No block of the path fails, and the last is in `out`: that of each image with the root.
        ensures ok { OnOk result (IsChecked tree.now i self.new out.new) }
        ensures image { OnOk result (IsOfImage tree.now i self.new out.new) }

        // The last block of the path that was taken is the first that fails.
        ensures corrupt { (level b : ℕ) → IsErrOf result (VerityError.Corrupt level b) →
            FailsAt tree.now i self.new level b }

        // A device answered so; no block that was taken before fails.
        ensures missing { IsErrOf result VerityError.Missing → HasNone (D.contents dev.old) disk.now
            ⊎ ((0 < levels_of tree.now) × HasNone (D.contents dev.old) tree.now.device) }
        ensures failed { IsErrOf result VerityError.DeviceFault → Rose (D.faults dev.old) (D.faults dev.new) }
        ensures right { IsErrOf result VerityError.DeviceFault ⊎ IsErrOf result VerityError.Missing →
            IsRightSoFar tree.now i self.new }

        // What was taken is what the devices hold, each of which is there if a block of it was taken.
        ensures hashes { TakenFrom (D.contents dev.old) tree.now i (take (levels_of tree.now) self.new) }
        ensures data { levels_of tree.now < length self.new → OnDevice (D.contents dev.old) disk.now (λ bytes.
            slice_index_or self.new (levels_of tree.now) [] ≡ slice_chunk bytes tree.now.block_size i) }

        // Unless a device failed, the answer is what the path that they hold says.
        ensures answer { OfBoth (D.contents dev.old) disk.now tree.now (λ bytes hashes.
            (IsErrOf result VerityError.DeviceFault → ⊥) →
            result ≡ answer_of (failing tree.now i (held_path tree.now bytes hashes i))) }

        // Where the devices hold an image and its tree under the root, only a device's failure is an error.
        ensures complete { OfBoth (D.contents dev.old) disk.now tree.now (λ bytes hashes. (image : List (List ℕ)) →
            HoldsTreeOf tree.now hashes image → slice_chunk bytes tree.now.block_size i ≡ slice_index_or image i [] →
            (IsErrOf result VerityError.DeviceFault → ⊥) → result ≡ Ok tt) }
        ensures same { D.contents dev.new ≡ D.contents dev.old }
        ensures never_falls { D.faults dev.old ≤ D.faults dev.new }
        ensures short { length self.new ≤ levels_of tree.now + 1 }
        ensures long { length out.new ≡ length out.old }
    {
        checked_blocks_are_of_the_image();
        held_trees_are_right();
        take_and_read(tree, disk, &mut self.path, dev, i, out)
    }

    /// The path of the last call, as far as it was taken.
    pub fn path(&self) -> &BlockPath
        ensures { result.now ≡ self.now }
    {
        &self.path
    }
}

// Takes the hash blocks over block i and the block that is handed in, and checks each before it takes the next.
fn take_and_check<D: Devices>(
    tree: &StoredTree,
    path: &mut BlockPath,
    dev: &mut D,
    i: u64,
    buffer: &mut [u8],
    block: &[u8],
) -> Result<(), VerityError>
    requires tree { IsStored tree.now }
    requires block { i < tree.now.blocks }
    requires buffer { length buffer.old ≡ 4096 }
    requires one_block { length block.now ≡ tree.now.block_size }
    requires has_tree { HasTree (D.contents dev.old) tree.now }
    ensures ok { OnOk result (IsChecked tree.now i path.new block.now) }
    ensures corrupt { (level b : ℕ) → IsErrOf result (VerityError.Corrupt level b) →
        FailsAt tree.now i path.new level b }
    ensures right { IsErrOf result VerityError.DeviceFault ⊎ IsErrOf result VerityError.Missing →
        IsRightSoFar tree.now i path.new }
    ensures failed { IsErrOf result VerityError.DeviceFault → Rose (D.faults dev.old) (D.faults dev.new) }
    ensures hashes { TakenFrom (D.contents dev.old) tree.now i (take (levels_of tree.now) path.new) }
    ensures missing { IsErrOf result VerityError.Missing →
        (0 < levels_of tree.now) × HasNone (D.contents dev.old) tree.now.device }
    ensures front { OfHashes (D.contents dev.old) tree.now (λ hashes.
        path.new ≡ take (length path.new) (held_blocks tree.now hashes i ++ block.now ∷ [])) }
    ensures unasked { levels_of tree.now ≡ 0 → dev.new ≡ dev.old }
    ensures same { D.contents dev.new ≡ D.contents dev.old }
    ensures never_falls { D.faults dev.old ≤ D.faults dev.new }
    ensures short { length path.new ≤ levels_of tree.now + 1 }
    ensures long { length buffer.new ≡ length buffer.old }
{
    let buffer = &mut buffer[..tree.block_size as usize];
    let wanted = take_hash_blocks(tree, path, dev, i, buffer)?;
    check_data_block(tree, path, i, wanted.as_slice(), block)
}

// Takes the hash blocks over block i and the block itself into `buffer`, and checks each before it takes the next.
fn take_and_read<D: Devices>(
    tree: &StoredTree,
    disk: &[u8],
    path: &mut BlockPath,
    dev: &mut D,
    i: u64,
    buffer: &mut [u8],
) -> Result<(), VerityError>
    requires tree { IsStored tree.now }
    requires block { i < tree.now.blocks }
    requires buffer { length buffer.old ≡ tree.now.block_size }
    requires has_tree { HasTree (D.contents dev.old) tree.now }
    requires has_data { HasAtLeast (D.contents dev.old) disk.now (tree.now.blocks * tree.now.block_size) }
    ensures ok { OnOk result (IsChecked tree.now i path.new buffer.new) }
    ensures corrupt { (level b : ℕ) → IsErrOf result (VerityError.Corrupt level b) →
        FailsAt tree.now i path.new level b }
    ensures right { IsErrOf result VerityError.DeviceFault ⊎ IsErrOf result VerityError.Missing →
        IsRightSoFar tree.now i path.new }
    ensures failed { IsErrOf result VerityError.DeviceFault → Rose (D.faults dev.old) (D.faults dev.new) }
    ensures hashes { TakenFrom (D.contents dev.old) tree.now i (take (levels_of tree.now) path.new) }
    ensures missing { IsErrOf result VerityError.Missing → HasNone (D.contents dev.old) disk.now
        ⊎ ((0 < levels_of tree.now) × HasNone (D.contents dev.old) tree.now.device) }
    ensures data { levels_of tree.now < length path.new → OnDevice (D.contents dev.old) disk.now (λ bytes.
        slice_index_or path.new (levels_of tree.now) [] ≡ slice_chunk bytes tree.now.block_size i) }
    ensures front { OfBoth (D.contents dev.old) disk.now tree.now (λ bytes hashes.
        path.new ≡ take (length path.new) (held_path tree.now bytes hashes i)) }
    ensures same { D.contents dev.new ≡ D.contents dev.old }
    ensures never_falls { D.faults dev.old ≤ D.faults dev.new }
    ensures short { length path.new ≤ levels_of tree.now + 1 }
    ensures long { length buffer.new ≡ length buffer.old }
{
    let wanted = take_hash_blocks(tree, path, dev, i, buffer)?;
    read_exact_at(dev, disk, i * u64::from(tree.block_size), buffer)?;
    check_data_block(tree, path, i, wanted.as_slice(), buffer)
}
