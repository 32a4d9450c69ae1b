ghost use Rattle.std.specs.Prelude.{◌≡◌, ◌≢◌, ◌<◌, ◌≤◌, length, IfErr, IfNone, IfOk, IfSome, IsErrOf, IsTrue, None, Some, string_bytes};
ghost use Rattle.ipe_words.specs.Count.{Rose};
ghost use Rattle.dmv_tree.specs.Blocks.{AreBlocks, AreNoBlocks, is_block_size};
ghost use Rattle.ipe_tasks.specs.Tree.{HasImage, IsOfTree, IsRefusedFor, IsTreeRefusal};
ghost use Rattle.ipe_tasks.specs.Tree.{refusal_words, root_line, shape_text, tree_text};
ghost use Rattle.ipe_tasks.specs.Told.{IsTold};

use crate::Told;
use crate::refusals::device_line;
use blk_device::{DevError, Devices, ReadDeviceError, read_device};
use dmv_tree::{Shape, are_blocks, build, layout};
use line_words::Bytes;
use std::alloc::{AllocError, Global};

/// The most bytes of a device.
const MOST_DEVICE: u64 = 16_777_216;

/// A hash tree over the image of a device: how many bytes a block has, the salt, and the device's name.
#[derive(Debug, Drop)]
pub struct ImageTree {
    pub block_size: u32,
    pub salt: Bytes,
    pub device: Bytes,
}

/// What is told of a hash tree: its root and shape, or its hash blocks as they are stored on a hash device.
#[derive(Clone, Copy, Debug, PartialEq, Eq)]
pub enum TreePart {
    Root,
    HashBlocks,
}

/// Why a device is refused.
#[derive(Clone, Copy, Debug, PartialEq, Eq)]
pub enum Refusal {
    /// No device has the name.
    Missing,
    /// It has more than 16,777,216 bytes.
    TooLarge,
    /// It has no bytes, or no whole number of blocks, or more than 4,096 blocks.
    BadSize,
}

/// Why nothing is told of a tree.
#[derive(Clone, Copy, Debug, PartialEq, Eq)]
pub enum TreeError {
    /// The device failed.
    Failed,
    NoMemory,
}

impl From<AllocError> for TreeError {
    ghost use Rattle.std.specs.Prelude.{◌≡◌};
    ghost use Rattle.ipe_tasks.specs.declared.tree.TreeError.TheVariants.{NoMemory};

    ghost from_gives = { λ _ e. e ≡ NoMemory };

    fn from(_: AllocError) -> Self {
        TreeError::NoMemory
    }
}

/// What is told of the hash tree over a device's image, or why the device is refused.
pub fn tree_told<D: Devices>(
    alloc: Global,
    part: TreePart,
    tree: &ImageTree,
    devices: &mut D,
) -> Result<Told, TreeError>
    requires size { IsTrue (is_block_size tree.now.block_size) }
    requires salt { length tree.now.salt ≤ 256 }
    ensures told { IfOk result (λ told. IfSome (D.contents devices.old) (λ items.
        IsTold (IsOfTree part items tree.now) (IsTreeRefusal items tree.now) told)) }
    ensures failed { IsErrOf result TreeError.Failed → Rose (D.faults devices.old) (D.faults devices.new) }
    ensures same { D.contents devices.new ≡ D.contents devices.old }
{
    match read_image(alloc, tree, devices)? {
        Ok(image) => Ok(Told::Done(tree_text(alloc, part, tree, &image)?)),
        Err(refusal) => {
            let device = tree.device.as_slice();
            let why = words_of(refusal);
            Ok(Told::Refused(device_line(alloc, device, why)?))
        }
    }
}

// The bytes of a device that may have a tree, or why it is refused.
fn read_image<D: Devices>(
    alloc: Global,
    tree: &ImageTree,
    devices: &mut D,
) -> Result<Result<Vec<u8>, Refusal>, TreeError>
    requires { IsTrue (is_block_size tree.now.block_size) }
    ensures image { IfOk result (λ read. IfOk read (λ image. IfSome (D.contents devices.old) (λ items.
        HasImage items tree.now image.items))) }
    ensures blocks { IfOk result (λ read. IfOk read (λ image. AreBlocks (length image.items) tree.now.block_size)) }
    ensures refused { IfOk result (λ read. IfErr read (λ refusal. IfSome (D.contents devices.old) (λ items.
        IsRefusedFor items tree.now refusal))) }
    ensures failed { IsErrOf result TreeError.Failed → Rose (D.faults devices.old) (D.faults devices.new) }
    ensures same { D.contents devices.new ≡ D.contents devices.old }
{
    let device = tree.device.as_slice();
    let size = match devices.size(device) {
        Ok(size) => size,
        Err(DevError::Failed) => return Err(TreeError::Failed),
        Err(DevError::Missing) => return Ok(Err(Refusal::Missing)),
    };
    if let Some(refusal) = refused_size(size, tree.block_size) {
        return Ok(Err(refusal));
    }
    match read_device(alloc, devices, device, size) {
        Ok(image) => Ok(Ok(image)),
        Err(ReadDeviceError::Failed) => Err(TreeError::Failed),
        Err(ReadDeviceError::Missing) => Ok(Err(Refusal::Missing)),
        Err(ReadDeviceError::NoMemory) => Err(TreeError::NoMemory),
    }
}

// Why a device of so many bytes is refused, if it is.
fn refused_size(size: u64, block_size: u32) -> Option<Refusal>
    requires { IsTrue (is_block_size block_size) }
    ensures blocks { IfNone result (AreBlocks size block_size) }
    ensures fits { IfNone result (size ≤ 16777216) }
    ensures there { result ≢ Some Refusal.Missing }
    ensures large { result ≡ Some Refusal.TooLarge → 16777216 < size }
    ensures bad { result ≡ Some Refusal.BadSize → (size ≤ 16777216) × AreNoBlocks size block_size }
{
    if size > MOST_DEVICE {
        Some(Refusal::TooLarge)
    } else if are_blocks(size, block_size) {
        None
    } else {
        Some(Refusal::BadSize)
    }
}

// What is told of the tree over an image.
fn tree_text(
    alloc: Global,
    part: TreePart,
    tree: &ImageTree,
    image: &[u8],
) -> Result<Vec<u8>, AllocError>
    requires blocks { AreBlocks (length image.now) tree.now.block_size }
    requires salt { length tree.now.salt ≤ 256 }
    ensures { IfOk result (λ text. text.items ≡ tree_text part tree.now image.now) }
{
    let built = build(alloc, image, tree.block_size, tree.salt.as_slice())?;
    let blocks = image.len() / tree.block_size as usize;
    match part {
        TreePart::Root => root_line(alloc, built.root(), layout(blocks as u64, tree.block_size)),
        TreePart::HashBlocks => built.bytes().to_vec(alloc),
    }
}

fn root_line(alloc: Global, root: [u8; 32], shape: Shape) -> Result<Vec<u8>, AllocError>
    ensures { IfOk result (λ text. text.items ≡ root_line root shape.levels shape.hash_blocks) }
{
    let digits = hex::encode(alloc, root)?;
    let shape = shape_text(alloc, shape.levels, shape.hash_blocks)?;
    let mut text = b"sha256:".to_vec(alloc)?;
    text.extend_from_slice(digits.as_bytes())?;
    text.extend_from_slice(shape.as_bytes())?;
    Ok(text)
}

fn shape_text(alloc: Global, levels: u8, hash_blocks: u64) -> Result<String, AllocError>
    ensures { IfOk result (λ text. string_bytes text ≡ shape_text levels hash_blocks) }
{
    format!(in alloc; " levels={levels} hash_blocks={hash_blocks}\n")
}

fn words_of(refusal: Refusal) -> &'static str
    ensures { result.now ≡ refusal_words refusal }
{
    match refusal {
        Refusal::Missing => "missing",
        Refusal::TooLarge => "too large",
        Refusal::BadSize => "bad size",
    }
}
