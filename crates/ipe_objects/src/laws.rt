ghost use Rattle.ipe_objects.specs.Law.{HashedFilesAreTheImages, UndamagedFilesAreHashed};

use dmv_tree::block_sizes_are_spelled;
use fsv_tree::{digests_tell_descriptors, roots_are_of_trees};
use ipe_requests::requests_keep_their_rules;
use stored_tree::{checked_blocks_are_of_the_image, held_trees_are_right};

/// The bytes of a file of a volume that comes to a hash are those of every image with the declared root, and whatever bytes
/// have the digest of a seal's descriptor are those of the sealed file, where it comes to a hash; unless two blocks, or two
/// descriptors, are shown that differ and have one hash. The call does nothing: its contract is the law.
pub fn hashed_files_are_the_images()
    ensures { HashedFilesAreTheImages }
{
    requests_keep_their_rules();
    block_sizes_are_spelled();
    checked_blocks_are_of_the_image();
    digests_tell_descriptors();
    roots_are_of_trees();
}

/// A declared file comes to the hash of its bytes where the devices hold an image of its volume with the tree over it, and
/// where its seal's descriptor is accepted and the device holds the tree over its bytes. The call does nothing: its contract
/// is the law.
pub fn undamaged_files_are_hashed()
    ensures { UndamagedFilesAreHashed }
{
    requests_keep_their_rules();
    block_sizes_are_spelled();
    held_trees_are_right();
}
