ghost use Rattle.hash_tree.specs.Law.{BlocksHaveTheSize, CheckedPathsLeadToTheImage, FullBlocksStay, HeightsAreLeast, HeightsAreOne, LevelsAreTheHeight, LevelsHaveTheirBlocks, TheImagesPathsAreRight};

/// The digests of the image's own paths are all the wanted ones, from the image's root down. Any other path that is as
/// long, and whose digests are all the wanted ones, ends with the image's block, unless it shows two blocks that differ
/// and have one digest. The call does nothing: its contract is the law.
pub fn checked_paths_lead_to_the_image()
    ensures leads { CheckedPathsLeadToTheImage }
    ensures own { TheImagesPathsAreRight }
{}

/// The levels of a tree are as many, and as long, as the numbers of its blocks say, and its blocks have one size; full
/// blocks get no zeros. The call does nothing: its contract is the law.
pub fn trees_have_their_shape()
    ensures height { LevelsAreTheHeight }
    ensures lengths { LevelsHaveTheirBlocks }
    ensures sizes { BlocksHaveTheSize }
    ensures full { FullBlocksStay }
{}

/// The height of a tree is the least number of levels that brings all blocks under one, and no other number is. The call
/// does nothing: its contract is the law.
pub fn heights_are_least()
    ensures least { HeightsAreLeast }
    ensures one { HeightsAreOne }
{}
