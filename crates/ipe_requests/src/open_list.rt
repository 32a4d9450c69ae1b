ghost use Rattle.std.specs.Prelude.{◌≡◌, ◌++◌, ◌∷◌, [], length, OnOk};
ghost use Rattle.std.specs.List.{slice_get};

use line_words::Items;
use std::alloc::{AllocError, Global};
use std::marker::Model;

/// A list that grows at its end, which contracts see as the list of its items.
#[derive(Debug, Drop)]
pub struct OpenList<T> {
    items: Vec<T>,
}

impl<T> Model for OpenList<T> {
    ghost use Rattle.std.specs.Prelude.{List};

    ghost Value = { List T };

    ghost view = { λ list. list.items.items };
}

impl<T: Drop> OpenList<T> {
    pub fn new(alloc: Global) -> Self
        ensures { result ≡ [] }
    {
        OpenList {
            items: Vec::new(alloc),
        }
    }

    pub fn push(&mut self, item: T) -> Result<(), AllocError>
        ensures { OnOk result (self.new ≡ self.old ++ item ∷ []) }
    {
        self.items.push(item)?;
        Ok(())
    }

    pub fn len(&self) -> usize
        ensures { result ≡ length self.now }
    {
        self.items.len()
    }

    pub fn as_slice(&self) -> &[T]
        ensures { result.now ≡ self.now }
    {
        self.items.as_slice()
    }

    pub fn into_items(self) -> Items<T>
        ensures { result ≡ self }
    {
        let OpenList { items } = self;
        Items::from_vec(items)
    }
}

impl OpenList<u8> {
    // Appends a line with its line feed.
    pub fn add_line(&mut self, line: &[u8]) -> Result<(), AllocError>
        ensures { OnOk result (self.new ≡ self.old ++ line.now ++ 10 ∷ []) }
    {
        self.items.extend_from_slice(line)?;
        self.items.push(b'\n')?;
        Ok(())
    }
}
