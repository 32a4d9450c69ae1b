ghost use Rattle.fsv_tree.specs.File.{DigestsTellDescriptors, RootsAreOfTrees};

/// Two descriptors with one file digest are the same, unless the bytes that they spell differ and have one SHA-256. The
/// call does nothing: its contract is the law.
pub fn digests_tell_descriptors()
    ensures { DigestsTellDescriptors }
{}

/// The root of a file that isn't empty is that of the hash tree over its blocks. The call does nothing: its contract is
/// the law.
pub fn roots_are_of_trees()
    ensures { RootsAreOfTrees }
{}
