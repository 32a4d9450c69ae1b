ghost use Rattle.std.specs.Prelude.{◌≡◌, ◌≢◌, IfOk, IfSome, IsTrue, None, OnErr, string_bytes};
ghost use Rattle.fsv_tree.specs.Blocks.{is_file_block_size};
ghost use Rattle.ipe_tasks.specs.Asked.{HasTaskRule, file_block_size_of, measure_by, tree_by};

use crate::{FileTree, ImageTree, TreePart};
use dmv_tree::{Salt, block_size_of};
use line_words::{Bytes, is_visible_word};
use std::alloc::{AllocError, Global};

/// The most digits of the salt of a device's tree.
const MOST_DEVICE_DIGITS: usize = 512;

/// The most bytes of a device's name.
const MOST_DEVICE_NAME: usize = 255;

/// The most digits of the salt of a file's tree.
const MOST_FILE_DIGITS: usize = 64;

/// What can be asked for that one thread does alone.
#[derive(Debug, Drop)]
pub enum Task {
    /// What the linter says of the policy that is read.
    Lint,
    /// The file digest for fs-verity of the file that is read.
    Measure(FileTree),
    /// A part of the hash tree for dm-verity over a device's image.
    Tree(TreePart, ImageTree),
}

impl Task {
    /// `measure` with copies of these.
    pub fn measure(alloc: Global, block_size: u32, salt: &[u8]) -> Result<Task, AllocError>
        ensures { IfOk result (λ task. task ≡ Task.Measure (record { block_size = block_size; salt = salt.now })) }
    {
        let salt = Bytes::from_vec(salt.to_vec(alloc)?);
        Ok(Task::Measure(FileTree { block_size, salt }))
    }

    /// A part of a tree, with copies of these.
    pub fn tree(
        alloc: Global,
        part: TreePart,
        block_size: u32,
        salt: &[u8],
        device: &[u8],
    ) -> Result<Task, AllocError>
        ensures { IfOk result (λ task. task
            ≡ Task.Tree part (record { block_size = block_size; salt = salt.now; device = device.now })) }
    {
        let tree = ImageTree {
            block_size,
            salt: Bytes::from_vec(salt.to_vec(alloc)?),
            device: Bytes::from_vec(device.to_vec(alloc)?),
        };
        Ok(Task::Tree(part, tree))
    }
}

/// The file digest that two arguments ask for: the size of a block and the salt.
pub fn measure_by(alloc: Global, size: &String, salt: &String) -> Result<Option<Task>, AllocError>
    ensures task { IfOk result (λ task. task ≡ measure_by (string_bytes size.now) (string_bytes salt.now)) }
    ensures rule { IfOk result (λ task. IfSome task HasTaskRule) }
    ensures no_memory { OnErr result (measure_by (string_bytes size.now) (string_bytes salt.now) ≢ None) }
{
    let salt = Salt::read(salt.as_bytes(), MOST_FILE_DIGITS);
    match (file_block_size_of(size.as_bytes()), salt) {
        (Some(block_size), Some(salt)) => {
            Ok(Some(Task::measure(alloc, block_size, salt.as_slice())?))
        }
        _ => Ok(None),
    }
}

/// The part of a tree that three arguments ask for: the size of a block, the salt and the device.
pub fn tree_by(
    alloc: Global,
    part: TreePart,
    size: &String,
    salt: &String,
    device: &String,
) -> Result<Option<Task>, AllocError>
    ensures task { IfOk result (λ task. task
        ≡ tree_by part (string_bytes size.now) (string_bytes salt.now) (string_bytes device.now)) }
    ensures rule { IfOk result (λ task. IfSome task HasTaskRule) }
    ensures no_memory { OnErr result
        (tree_by part (string_bytes size.now) (string_bytes salt.now) (string_bytes device.now) ≢ None) }
{
    let salt = Salt::read(salt.as_bytes(), MOST_DEVICE_DIGITS);
    let device = device.as_bytes();
    match (block_size_of(size.as_bytes()), salt) {
        (Some(block_size), Some(salt)) if is_visible_word(device, MOST_DEVICE_NAME) => {
            let salt = salt.as_slice();
            Ok(Some(Task::tree(alloc, part, block_size, salt, device)?))
        }
        _ => Ok(None),
    }
}

fn file_block_size_of(word: &[u8]) -> Option<u32>
    ensures size { result ≡ file_block_size_of word.now }
    ensures rule { IfSome result (λ size. IsTrue (is_file_block_size size)) }
{
    block_size_of(word).filter(|size| *size != 512)
}
