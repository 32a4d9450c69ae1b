ghost use Rattle.std.specs.Prelude.{◌≡◌, List, ℕ, length, map, slice_get, IfOk};
ghost use Rattle.std.specs.Option.{option_and_then, option_copied};
ghost use Rattle.std.specs.List.{find};
ghost use Rattle.line_words.specs.Words.{is_text};
ghost use Rattle.ipe_objects.specs.Places.{PlacesAre, place_in, with_place};

use ipe_requests::{FileLine, SealLine, TextLine, VolumeLine};
use line_words::WordIndex;
use std::alloc::{AllocError, Global};
use std::marker::Model;

/// What is declared under a name.
pub trait Named {
    ghost name_of: { Self → List ℕ };

    /// The name.
    fn name(&self) -> &[u8]
        ensures { result.now ≡ name_of self.now };
}

impl Named for TextLine {
    ghost name_of = { λ text. text.id };

    fn name(&self) -> &[u8] {
        self.id.as_slice()
    }
}

impl Named for VolumeLine {
    ghost name_of = { λ volume. volume.id };

    fn name(&self) -> &[u8] {
        self.id.as_slice()
    }
}

impl Named for FileLine {
    ghost name_of = { λ file. file.path };

    fn name(&self) -> &[u8] {
        self.path.as_slice()
    }
}

impl Named for SealLine {
    ghost name_of = { λ seal. seal.path };

    fn name(&self) -> &[u8] {
        self.path.as_slice()
    }
}

/// The places of names in a list, each found in one look-up. Of one name the first place counts.
#[derive(Debug, Drop)]
pub struct Places {
    names: WordIndex,
    places: Vec<usize>,
}

impl Model for Places {
    ghost use Rattle.ipe_objects.specs.Places.{Placed};
    ghost use Rattle.std.specs.Prelude.{◌≡◌, length};

    ghost Value = { Placed };

    ghost view = { λ s. record { names = s.names; places = s.places.items } };

    ghost invariant = { λ s. length s.places.items ≡ length s.names };
}

impl Places {
    // The places with this one of a name, unless it has one.
    fn with(self, alloc: Global, name: &[u8], place: usize) -> Result<Places, AllocError>
        ensures placed { IfOk result (λ placed. placed ≡ with_place self name.now place) }
        ensures even { IfOk result (λ placed. length placed.places ≡ length placed.names) }
    {
        if self.names.place_of(name).is_some() {
            return Ok(self);
        }
        let Places {
            mut names,
            mut places,
        } = self;
        names.add(alloc, name)?;
        places.push(place)?;
        Ok(Places { names, places })
    }

    /// The places of the names of these items.
    pub fn of<T: Named>(alloc: Global, items: &[T]) -> Result<Places, AllocError>
        ensures { IfOk result (λ placed. PlacesAre placed (map T.name_of items.now)) }
    {
        let mut placed = Places {
            names: WordIndex::new(alloc),
            places: Vec::new(alloc),
        };
        for (place, item) in items.iter().enumerate() {
            placed = placed.with(alloc, item.name(), place)?;
        }
        Ok(placed)
    }

    /// The first place of a name.
    pub fn get(&self, name: &[u8]) -> Option<usize>
        ensures { result ≡ place_in self.now name.now }
    {
        let number = self.names.place_of(name)?;
        self.places.get(number).copied()
    }
}

// The item at the place of a name.
fn at_place<'a, T>(placed: &Places, items: &'a [T], name: &[u8]) -> Option<&'a T>
    ensures { option_copied result ≡ option_and_then (slice_get items.now) (place_in placed.now name.now) }
{
    items.get(placed.get(name)?)
}

/// The first of these items that has the name, by their places.
pub fn item_of<'a, T: Named>(placed: &Places, items: &'a [T], name: &[u8]) -> Option<&'a T>
    requires { PlacesAre placed.now (map T.name_of items.now) }
    ensures { option_copied result ≡ find (λ item. is_text name.now (T.name_of item)) items.now }
{
    at_place(placed, items, name)
}
