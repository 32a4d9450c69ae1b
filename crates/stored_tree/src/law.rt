ghost use Rattle.stored_tree.specs.Checked.{CheckedBlocksAreOfTheImage, HeldTreesAreRight};

use hash_tree::{checked_paths_lead_to_the_image, trees_have_their_shape};

/// A block that a path of right hash blocks leads to is the image's, for every image with the tree's root, unless two
/// blocks are shown that differ and have one digest. The call does nothing: its contract is the law.
pub fn checked_blocks_are_of_the_image()
    ensures { CheckedBlocksAreOfTheImage }
{
    checked_paths_lead_to_the_image();
    trees_have_their_shape();
}

/// Where a device holds the stored tree of an image under its root, the path to each of the image's blocks is the
/// image's own, and nothing fails on it. The call does nothing: its contract is the law.
pub fn held_trees_are_right()
    ensures { HeldTreesAreRight }
{
    checked_paths_lead_to_the_image();
    trees_have_their_shape();
}
