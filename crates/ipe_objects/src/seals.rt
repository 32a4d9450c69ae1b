ghost use Rattle.blk_device.specs.Contents.{content};
ghost use Rattle.std.specs.Prelude.{◌≡◌, ◌+◌, ◌≤◌, Err, Ok, IfErr, IfOk, IsSomeAnd};
ghost use Rattle.ipe_objects.specs.Devices.{HasRoom, most_bytes};
ghost use Rattle.ipe_objects.specs.Seals.{descriptor_of};

use crate::declared::bytes_under;
use crate::images::Images;
use fsv_tree::{BadDescriptor, Descriptor};
use hash_tree::array_of;
use ipe_requests::SealLine;

/// The bytes of a descriptor.
const DESCRIPTOR_BYTES: u64 = 256;

/// The descriptor of a seal, of a file of this size; or the byte for which it is refused. For a tree that ends beyond the
/// device that is the byte after the last.
pub fn descriptor_of(
    images: &Images,
    seal: &SealLine,
    size: u64,
) -> Result<Descriptor, BadDescriptor>
    requires room { IsSomeAnd (content seal.now.device images.now) (HasRoom (seal.now.at + 256)) }
    requires few { size ≤ most_bytes }
    ensures accepted { IfOk result (λ descriptor. descriptor_of images.now seal.now size ≡ Ok descriptor) }
    ensures refused { IfErr result (λ bad. descriptor_of images.now seal.now size ≡ Err bad.byte) }
{
    let device = bytes_under(images, seal.device.as_slice());
    let tree_at = seal.at + DESCRIPTOR_BYTES;
    let bytes = array_of::<256>(&device[seal.at as usize..tree_at as usize]);
    match Descriptor::read(&bytes, size) {
        Ok(descriptor) => {
            let tree = descriptor.tree_blocks() * u64::from(descriptor.block_size());
            if tree_at + tree > device.len() as u64 {
                return Err(BadDescriptor { byte: 256 });
            }
            Ok(descriptor)
        }
        Err(bad) => Err(bad),
    }
}
