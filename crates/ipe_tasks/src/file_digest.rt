ghost use Rattle.std.specs.Prelude.{◌≡◌, ◌≤◌, length, IfOk, IsTrue};
ghost use Rattle.fsv_tree.specs.Blocks.{is_file_block_size};
ghost use Rattle.ipe_tasks.specs.Measure.{measure_text};

use fsv_tree::measure_bytes;
use line_words::Bytes;
use std::alloc::{AllocError, Global};

/// A hash tree over a file: how many bytes a block has, and the salt.
#[derive(Debug, Drop)]
pub struct FileTree {
    pub block_size: u32,
    pub salt: Bytes,
}

/// The line that tells the file digest of a file for fs-verity with SHA-256.
pub fn measured(alloc: Global, tree: &FileTree, input: &[u8]) -> Result<Vec<u8>, AllocError>
    requires few { length input.now ≤ 16777216 }
    requires size { IsTrue (is_file_block_size tree.now.block_size) }
    requires salt { length tree.now.salt ≤ 32 }
    ensures { IfOk result (λ text. text.items ≡ measure_text input.now tree.now) }
{
    let measured = measure_bytes(alloc, input, tree.block_size, tree.salt.as_slice())?;
    let digits = hex::encode(alloc, measured.descriptor().digest())?;
    Ok(format!(in alloc; "sha256:{digits}\n")?.into_bytes())
}
