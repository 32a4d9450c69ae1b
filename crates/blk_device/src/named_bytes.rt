ghost use Rattle.blk_device.specs.Contents.{content};
ghost use Rattle.std.specs.Prelude.{◌≡◌, Some, None, MatchOption};

use ipe_words::Bytes;
use std::marker::Model;

/// Bytes under names. The first of a name counts.
#[derive(Debug, Drop)]
pub struct NamedBytes {
    items: Vec<(Bytes, Bytes)>,
}

impl Model for NamedBytes {
    ghost use Rattle.blk_device.specs.Contents.{Contents};

    ghost Value = { Contents };

    ghost view = { λ s. s.items.items };
}

impl NamedBytes {
    /// The list of these items, each a name and its bytes.
    pub fn from_vec(items: Vec<(Bytes, Bytes)>) -> Self
        ensures { result ≡ items.items }
    {
        NamedBytes { items }
    }

    /// The items, in order.
    pub fn as_slice(&self) -> &[(Bytes, Bytes)]
        ensures { result.now ≡ self.now }
    {
        self.items.as_slice()
    }

    /// The bytes under a name.
    pub fn get(&self, name: &[u8]) -> Option<&[u8]>
        ensures { MatchOption result (content name.now self.now ≡ None)
            (λ bytes. content name.now self.now ≡ Some bytes.now) }
    {
        let items = self.items.as_slice();
        for (item, bytes) in items {
            if item.as_slice() == name {
                return Some(bytes.as_slice());
            }
        }
        None
    }
}
