ghost use Rattle.std.specs.Prelude.{◌≡◌, [], IfOk};
ghost use Rattle.ipe_requests.specs.Known.{with_device};

use line_words::{Bytes, WordIndex};
use std::alloc::{AllocError, Global};
use std::marker::Model;

/// Names of devices, each once, in the order in which they were added.
#[derive(Debug, Drop)]
pub struct Names {
    index: WordIndex,
    names: Vec<Bytes>,
}

impl Model for Names {
    ghost use Rattle.std.specs.Prelude.{◌≡◌, List, ℕ};

    ghost Value = { List (List ℕ) };

    ghost view = { λ s. s.names.items };

    ghost invariant = { λ s. s.index ≡ s.names.items };
}

impl Names {
    /// No names.
    pub fn new(alloc: Global) -> Names
        ensures { result ≡ [] }
    {
        Names {
            index: WordIndex::new(alloc),
            names: Vec::new(alloc),
        }
    }

    /// The names, in order.
    pub fn as_slice(&self) -> &[Bytes]
        ensures { result.now ≡ self.now }
    {
        self.names.as_slice()
    }

    /// The names with this one, unless it is there.
    pub fn with(self, alloc: Global, name: &[u8]) -> Result<Names, AllocError>
        ensures { IfOk result (λ names. names ≡ with_device self name.now) }
    {
        if self.index.place_of(name).is_some() {
            return Ok(self);
        }
        let Names {
            mut index,
            mut names,
        } = self;
        index.add(alloc, name)?;
        names.push(Bytes::from_vec(name.to_vec(alloc)?))?;
        Ok(Names { index, names })
    }
}
