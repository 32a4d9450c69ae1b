ghost use Rattle.blk_device.specs.Contents.{HasAtLeast, HasNone, OnDevice};
ghost use Rattle.stored_tree.specs.Checked.{FailsAt, IsChecked, IsRightSoFar, LeadsTo};
ghost use Rattle.stored_tree.specs.Stored.{HasTree, IsStored, TakenFrom, held_block, levels_of};
ghost use Rattle.hash_tree.specs.Hash.{hash_of};
ghost use Rattle.hash_tree.specs.Path.{digest_in};
ghost use Rattle.ipe_words.specs.Count.{Rose};
ghost use Rattle.std.specs.Prelude.{◌≡◌, ◌+◌, ◌*◌, ◌/◌, ◌^◌, ◌<◌, ◌≤◌, ◌++◌, ◌∷◌, ◌⊎◌, ℕ, [], length, All, IfOk, IsErrOf, IsOk, OnOk};

use crate::{BlockPath, StoredTree};
use arrayvec::ArrayVec;
use blk_device::{Devices, VerityError, read_exact_at};
use hash_tree::{HashAlgorithm, held, layout};

// Takes the hash blocks over data block `i`, from the top level down, and says which digest they want of that block:
// the root, where no level stands above the data. Each is read through `buffer`, which has the size of a block, and is
// checked before the next one is read. What the path had before is taken away.
//
// The error says which block was the first that failed, or that the device failed or isn't there; the path then ends
// with the block that failed, or the last one that was read.
pub(crate) fn take_hash_blocks<D: Devices>(
    tree: &StoredTree,
    path: &mut BlockPath,
    dev: &mut D,
    i: u64,
    buffer: &mut [u8],
) -> Result<ArrayVec<u8, 64>, VerityError>
    requires tree { IsStored tree.now }
    requires block { i < tree.now.blocks }
    requires buffer { length buffer.old ≡ tree.now.block_size }
    requires has_tree { HasTree (D.contents dev.old) tree.now }
    ensures leads { IfOk result (λ wanted. LeadsTo tree.now i path.new wanted.items) }
    ensures corrupt { (level b : ℕ) → IsErrOf result (VerityError.Corrupt level b) →
        FailsAt tree.now i path.new level b }
    ensures above { (level b : ℕ) → IsErrOf result (VerityError.Corrupt level b) → 0 < level }

    // The device answered so; no block that was taken before fails.
    ensures missing { IsErrOf result VerityError.Missing →
        (0 < levels_of tree.now) × HasNone (D.contents dev.old) tree.now.device }
    ensures failed { IsErrOf result VerityError.DeviceFault → Rose (D.faults dev.old) (D.faults dev.new) }
    ensures right { IsErrOf result VerityError.DeviceFault ⊎ IsErrOf result VerityError.Missing →
        IsRightSoFar tree.now i path.new }

    // What was taken is the front of what the device holds, which is there if any was. Where no level stands above the
    // data it isn't asked.
    ensures held { TakenFrom (D.contents dev.old) tree.now i path.new }
    ensures unasked { levels_of tree.now ≡ 0 → dev.new ≡ dev.old }
    ensures asked { levels_of tree.now ≡ 0 → IsOk result }
    ensures short { length path.new ≤ levels_of tree.now }
    ensures low { levels_of tree.now ≤ 12 }
    ensures sizes { All (λ block. length block ≡ tree.now.block_size) path.new }
    ensures same { D.contents dev.new ≡ D.contents dev.old }
    ensures never_falls { D.faults dev.old ≤ D.faults dev.new }
    ensures long { length buffer.new ≡ length buffer.old }
{
    let fan_out = tree.algorithm.fan_out(tree.block_size);
    path.clear();
    let mut level = layout(tree.blocks, tree.block_size, tree.algorithm).levels;
    let mut first = 0;
    let mut wanted = held(tree.root);
    while level > 0 {
        let block = over(i, fan_out, level);
        read_hash_block(tree, dev, first + block, buffer)?;
        path.push(buffer);
        let digest = tree.algorithm.salted_digest(tree.salt, buffer);
        if wanted.as_slice() != digest.as_slice() {
            return Err(VerityError::Corrupt { level, block });
        }
        first += over(tree.blocks - 1, fan_out, level) + 1;
        level -= 1;
        let place = (over(i, fan_out, level) % fan_out) as usize;
        wanted = digest_in(tree.algorithm, buffer, place);
    }
    Ok(wanted)
}

// Adds data block `i` to the path of the hash blocks over it, which want this digest, and checks it. The only error
// is that it is corrupt.
pub(crate) fn check_data_block(
    tree: &StoredTree,
    path: &mut BlockPath,
    i: u64,
    wanted: &[u8],
    block: &[u8],
) -> Result<(), VerityError>
    requires leads { LeadsTo tree.now i path.old wanted.now }
    requires some { 0 < length block.now }
    requires small { length block.now ≤ 4096 }
    requires one_size { All (λ above. length above ≡ length block.now) path.old }
    requires room { length path.old < 13 }
    ensures ok { OnOk result (IsChecked tree.now i path.new block.now) }
    ensures corrupt { (level b : ℕ) → IsErrOf result (VerityError.Corrupt level b) →
        FailsAt tree.now i path.new level b }
    ensures here { (level b : ℕ) → IsErrOf result (VerityError.Corrupt level b) → (level ≡ 0) × (b ≡ i) }
    ensures no_fault { IsErrOf result VerityError.DeviceFault → ⊥ }
    ensures none_missing { IsErrOf result VerityError.Missing → ⊥ }
    ensures added { path.new ≡ path.old ++ block.now ∷ [] }
{
    path.push(block);
    if wanted == tree.algorithm.salted_digest(tree.salt, block).as_slice() {
        Ok(())
    } else {
        Err(VerityError::Corrupt { level: 0, block: i })
    }
}

// Reads the block of a tree that has this number, counted from its first.
fn read_hash_block<D: Devices>(
    tree: &StoredTree,
    dev: &mut D,
    number: u64,
    out: &mut [u8],
) -> Result<(), VerityError>
    requires tree { IsStored tree.now }
    requires few { number < 16777216 }
    requires size { length out.old ≡ tree.now.block_size }
    requires there { HasAtLeast (D.contents dev.old) tree.now.device
        (tree.now.start + number * tree.now.block_size + tree.now.block_size) }
    ensures held { OnOk result (OnDevice (D.contents dev.old) tree.now.device (λ bytes.
        out.new ≡ held_block tree.now bytes number)) }
    ensures missing { IsErrOf result VerityError.Missing → HasNone (D.contents dev.old) tree.now.device }
    ensures failed { IsErrOf result VerityError.DeviceFault → Rose (D.faults dev.old) (D.faults dev.new) }
    ensures unchecked { (level b : ℕ) → IsErrOf result (VerityError.Corrupt level b) → ⊥ }
    ensures same { D.contents dev.new ≡ D.contents dev.old }
    ensures never_falls { D.faults dev.old ≤ D.faults dev.new }
{
    let at = tree.start + number * u64::from(tree.block_size);
    read_exact_at(dev, tree.device, at, out)?;
    Ok(())
}

// Digest number `place` of a hash block.
fn digest_in(algorithm: HashAlgorithm, block: &[u8], place: usize) -> ArrayVec<u8, 64>
    requires { (place + 1) * (hash_of algorithm).size ≤ length block.now }
    ensures { result.items ≡ digest_in (hash_of algorithm) place block.now }
{
    let size = algorithm.digest_size();
    let at = place * size;
    held(&block[at..at + size])
}

// The number of the block over block i, so many levels above it.
fn over(i: u64, fan_out: u64, level: u8) -> u64
    requires { 0 < fan_out }
    ensures { result ≡ i / fan_out ^ level }
{
    let mut number = i;
    for _ in 0..level {
        number /= fan_out;
    }
    number
}
