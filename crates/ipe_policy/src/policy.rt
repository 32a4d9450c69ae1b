ghost use Rattle.std.specs.Prelude.{◌≡◌, SomeIff};
ghost use Rattle.ipe_policy.specs.Policy.{IsPolicy};

use crate::keeping::are_policy;
use crate::{Name, Statement, Version};
use line_words::Items;
use std::alloc::AllocError;
use std::marker::Model;

/// The statements of a policy, in text order.
pub type Statements = Items<Statement>;

/// A policy. No default is given twice, each operation has a default of its own or there is a global one, the digest of
/// a property has 1 to 64 bytes, and there are at most 1,048,576 statements.
#[derive(Debug, PartialEq, Eq, Drop)]
pub struct Policy {
    pub name: Name,
    pub version: Version,
    pub items: Statements,
}

impl Model for Policy {
    ghost use Rattle.ipe_policy.specs.Policy.{PolicyParts, IsPolicy};

    ghost Value = { PolicyParts };

    ghost view = { λ s. record { name = s.name; version = s.version; items = s.items } };

    ghost invariant = { λ s. IsPolicy s.items };

    ghost inverse = { λ p. record { name = p.name; version = p.version; items = p.items } };
}

impl Clone for Policy {
    ghost is_clone = { λ a b. b ≡ a };

    fn clone(&self) -> Result<Self, AllocError> {
        Ok(Policy {
            name: self.name.clone()?,
            version: self.version,
            items: self.items.clone()?,
        })
    }
}

impl Policy {
    /// The policy with these statements, where they keep the rules of a policy.
    pub fn new(name: Name, version: Version, items: Statements) -> Option<Policy>
        ensures { SomeIff result (IsPolicy items) (record { name = name; version = version; items = items }) }
    {
        if !are_policy(items.as_slice()) {
            return None;
        }
        Some(Policy {
            name,
            version,
            items,
        })
    }
}
