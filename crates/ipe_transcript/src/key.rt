ghost use Rattle.std.specs.Prelude.{◌≡◌};
ghost use Rattle.std.specs.Option.{option_map};
ghost use Rattle.ipe_transcript.specs.Entries.{key_of};
ghost use Rattle.ipe_transcript.specs.Order.{key_shown};

use crate::transcript::Entry;

// Where an entry belongs within its epoch: the command that began it is the first, then come the commands that changed
// neither policy nor switch, then the hooks with a claim.
#[derive(Clone, Copy, Debug, PartialEq, Eq, PartialOrd, Ord)]
pub enum Rank {
    Opening,
    Command(u32),
    Claim(u64),
}

// Where an entry belongs within its phase.
#[derive(Clone, Copy, Debug, PartialEq, Eq, PartialOrd, Ord)]
pub struct Key {
    pub epoch: u16,
    pub rank: Rank,
}

// The key of an entry, if it has a place.
pub fn key_of(entry: &Entry) -> Option<Key>
    ensures { option_map key_shown result ≡ key_of entry.now }
{
    match entry {
        Entry::Write {
            epoch,
            switched: true,
            ..
        } => Some(Key {
            epoch: *epoch,
            rank: Rank::Opening,
        }),
        Entry::Write { line, epoch, .. } | Entry::Read { line, epoch, .. } => Some(Key {
            epoch: *epoch,
            rank: Rank::Command(*line),
        }),
        Entry::Hook { place, .. } => place.map(|place| Key {
            epoch: place.epoch,
            rank: Rank::Claim(place.count),
        }),
    }
}
