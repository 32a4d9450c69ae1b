ghost use Rattle.std.specs.Prelude.{◌≡◌, ◌≤◌, List, ℕ, length, vec_len, ⊤};

use crate::{Action, AlgName, DigestBytes, Op};
use line_words::Items;
use std::alloc::AllocError;
use std::marker::Model;

/// A digest with the name of its algorithm.
#[derive(Clone, Debug, PartialEq, Eq, Drop)]
pub struct Digest {
    pub alg: AlgName,
    pub bytes: DigestBytes,
}

/// A condition of a rule.
#[derive(Debug, PartialEq, Eq, Drop)]
pub enum Property {
    BootVerified(bool),
    DmverityRoothash(Digest),
    DmveritySignature(bool),
    FsverityDigest(Digest),
    FsveritySignature(bool),
}

impl Clone for Property {
    ghost is_clone = { λ a b. b ≡ a };

    ghost is_infallible = { λ _. ⊤ };

    fn clone(&self) -> Result<Self, AllocError> {
        Ok(match self {
            Property::BootVerified(wanted) => Property::BootVerified(*wanted),
            Property::DmverityRoothash(digest) => Property::DmverityRoothash(digest.clone()?),
            Property::DmveritySignature(wanted) => Property::DmveritySignature(*wanted),
            Property::FsverityDigest(digest) => Property::FsverityDigest(digest.clone()?),
            Property::FsveritySignature(wanted) => Property::FsveritySignature(*wanted),
        })
    }
}

/// The properties of a rule, in text order: at most 16.
#[derive(Debug, PartialEq, Eq, Drop)]
pub struct Properties {
    items: Items<Property>,
}

impl Model for Properties {
    ghost use Rattle.std.specs.Prelude.{◌≤◌, List, length};
    ghost use Rattle.ipe_policy.specs.declared.statement.Property.{Property};

    ghost Value = { List Property };

    ghost view = { λ s. s.items };

    ghost invariant = { λ s. length s.items ≤ 16 };

    ghost inverse = { λ items. record { items = items } };
}

impl Clone for Properties {
    ghost is_clone = { λ a b. b ≡ a };

    fn clone(&self) -> Result<Self, AllocError> {
        Ok(Properties {
            items: self.items.clone()?,
        })
    }
}

impl Properties {
    /// The most properties that a rule has.
    pub const MOST: usize = 16;

    /// The list with these items.
    pub fn from_vec(items: Vec<Property>) -> Self
        requires { vec_len items ≤ 16 }
        ensures { result ≡ items.items }
    {
        Properties {
            items: Items::from_vec(items),
        }
    }

    /// The items, in order.
    pub fn as_slice(&self) -> &[Property]
        ensures items { result.now ≡ self.now }
        ensures few { length self.now ≤ 16 }
    {
        self.items.as_slice()
    }
}

/// A statement of a policy.
#[derive(Debug, PartialEq, Eq, Drop)]
pub enum Statement {
    Rule {
        op: Op,
        props: Properties,
        action: Action,
    },
    OpDefault {
        op: Op,
        action: Action,
    },
    GlobalDefault {
        action: Action,
    },
}

impl Clone for Statement {
    ghost is_clone = { λ a b. b ≡ a };

    fn clone(&self) -> Result<Self, AllocError> {
        Ok(match self {
            Statement::Rule { op, props, action } => Statement::Rule {
                op: *op,
                props: props.clone()?,
                action: *action,
            },
            Statement::OpDefault { op, action } => Statement::OpDefault {
                op: *op,
                action: *action,
            },
            Statement::GlobalDefault { action } => Statement::GlobalDefault { action: *action },
        })
    }
}
