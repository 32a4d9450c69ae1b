ghost use Rattle.std.specs.Prelude.{◌≡◌, ◌<◌, ◌≤◌, IfOk, IfSome, length};
ghost use Rattle.ipe_machine.specs.Policies.{place_of};

use crate::Entry;
use ipe_policy::Name;
use std::alloc::{AllocError, Global};
use std::marker::Model;

/// The most policies that are loaded at once.
pub const MOST_LOADED: usize = 32;

/// The loaded policies in the order of their loads, the active one, the two switches, the epoch and the next serial.
#[derive(Debug, Drop)]
pub struct Registry {
    pub(crate) entries: Vec<Entry>,
    pub(crate) active: Option<Name>,
    pub(crate) enforce: bool,
    pub(crate) success: bool,
    pub(crate) epoch: u16,
    pub(crate) next: u64,
}

impl Model for Registry {
    ghost use Rattle.std.specs.Prelude.{◌≤◌, length, vec_capacity};
    ghost use Rattle.ipe_machine.specs.Policies.{Policies};

    ghost Value = { Policies };

    ghost view = { λ r. record {
      loaded = r.entries.items;
      active = r.active;
      enforce = r.enforce;
      success = r.success;
      epoch = r.epoch;
      next = r.next;
    } };

    ghost invariant = { λ r. (length r.entries.items ≤ 32) × (32 ≤ vec_capacity r.entries) };
}

// The place of the entry of a name.
pub(crate) fn place_of(entries: &[Entry], name: &Name) -> Option<usize>
    ensures place { result ≡ place_of name.now entries.now }
    ensures within { IfSome result (λ place. place < length entries.now) }
{
    entries
        .iter()
        .position(|entry| entry.name.as_slice() == name.as_slice())
}

impl Registry {
    ghost use Rattle.std.specs.Prelude.{◌≡◌, ◌<◌, ◌≤◌, IfOk, IfSome, length};
    ghost use Rattle.std.specs.Option.{option_copied};
    ghost use Rattle.ipe_machine.specs.Policies.{active_entry, entry_named, first_policies, is_active, place_of};

    /// Nothing is loaded, enforce is on and success_audit off. It has room for 32 policies.
    pub fn new(alloc: Global) -> Result<Registry, AllocError>
        ensures { IfOk result (λ registry. registry ≡ first_policies) }
    {
        Ok(Registry {
            entries: Vec::with_capacity(alloc, MOST_LOADED)?,
            active: None,
            enforce: true,
            success: false,
            epoch: 0,
            next: 1,
        })
    }

    /// The loaded policies, in the order of their loads.
    pub fn entries(&self) -> &[Entry]
        ensures entries { result.now ≡ self.now.loaded }
        ensures few { length self.now.loaded ≤ 32 }
    {
        self.entries.as_slice()
    }

    /// The place of the policy of this name among the entries, where it is loaded.
    pub fn place(&self, name: &Name) -> Option<usize>
        ensures place { result ≡ place_of name.now self.now.loaded }
        ensures within { IfSome result (λ place. place < length self.now.loaded) }
    {
        place_of(&self.entries, name)
    }

    /// The entry of the policy of this name, where it is loaded.
    pub fn entry(&self, name: &Name) -> Option<&Entry>
        ensures { option_copied result ≡ entry_named name.now self.now.loaded }
    {
        match place_of(&self.entries, name) {
            Some(place) => self.entries.get(place),
            None => None,
        }
    }

    /// The name of the active policy.
    pub fn active(&self) -> Option<&Name>
        ensures { option_copied result ≡ self.now.active }
    {
        self.active.as_ref()
    }

    /// Whether the policy of this name is the active one.
    pub fn is_active(&self, name: &Name) -> bool
        ensures { result ≡ is_active name.now self.now }
    {
        match &self.active {
            Some(active) => active.as_slice() == name.as_slice(),
            None => false,
        }
    }

    /// The entry of the active policy.
    pub fn active_entry(&self) -> Option<&Entry>
        ensures { option_copied result ≡ active_entry self.now }
    {
        match &self.active {
            Some(name) => self.entry(name),
            None => None,
        }
    }

    /// Whether denials are enforced.
    pub fn enforce(&self) -> bool
        ensures { result ≡ self.now.enforce }
    {
        self.enforce
    }

    /// Whether allowed accesses are recorded too.
    pub fn success(&self) -> bool
        ensures { result ≡ self.now.success }
    {
        self.success
    }

    /// How often the active policy or a switch has changed.
    pub fn epoch(&self) -> u16
        ensures { result ≡ self.now.epoch }
    {
        self.epoch
    }

    /// The serial that the next load or update takes.
    pub fn next_serial(&self) -> u64
        ensures { result ≡ self.now.next }
    {
        self.next
    }
}
