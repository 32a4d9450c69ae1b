ghost use Rattle.ipe_transcript.specs.Entries.{IsPrinted, actor_of, key_of, line_of};
ghost use Rattle.ipe_transcript.specs.Filing.{AreFiled, LinesRise};
ghost use Rattle.ipe_transcript.specs.Keys.{own_of};
ghost use Rattle.std.specs.Prelude.{◌≡◌, ℕ};

/// There is one order in which a phase's entries may be printed: each one's own in that one's order, and all in place.
/// This call and the other here do nothing: their contracts are laws.
pub fn entries_are_printed_in_one_order()
    ensures { (entries : _) (one : _) (other : _) → IsPrinted entries one → IsPrinted entries other → one ≡ other }
{}

/// Entries that are filed by their keys, and stand as they are filed, are in that order, where there is one and each
/// one's lines rise in it.
pub fn filed_entries_are_printed()
    ensures { (entries : _) (ordered : _) (printed : _) → AreFiled actor_of line_of key_of entries ordered →
        IsPrinted entries printed → ((actor : ℕ) → LinesRise line_of (own_of actor_of actor printed)) →
        ordered ≡ printed }
{}
