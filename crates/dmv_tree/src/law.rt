ghost use Rattle.dmv_tree.specs.Law.{HashBlocksMayHaveThem, TextsOfSizesSayThem, WordsOfSizesAreTheirText};

/// The words of the sizes of blocks are the texts of these numbers and no others, and digests fill blocks of these sizes.
/// The call does nothing: its contract is the law.
pub fn block_sizes_are_spelled()
    ensures text { WordsOfSizesAreTheirText }
    ensures said { TextsOfSizesSayThem }
    ensures filled { HashBlocksMayHaveThem }
{}
