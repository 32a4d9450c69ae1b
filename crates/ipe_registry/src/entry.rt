ghost use Rattle.std.specs.Prelude.{◌≡◌, Ok, IfOk};

use ipe_machine::Text;
use ipe_policy::{Name, Policy, Version};
use std::alloc::{AllocError, Global};
use std::marker::Model;

/// A loaded policy: its text, the SHA-256 of the text, what the text reads as, and the serial that its load or update
/// took.
#[derive(Debug, Drop)]
pub struct Entry {
    pub name: Name,
    pub version: Version,
    pub digest: [u8; 32],
    pub serial: u64,
    pub text: Text,
    pub policy: Policy,
}

impl Model for Entry {
    ghost use Rattle.ipe_machine.specs.Policies.{Loaded};

    ghost Value = { Loaded };

    ghost use Rattle.ipe_registry.specs.Entry.{loaded_of, IsEntry};

    ghost view = { loaded_of };

    ghost invariant = { IsEntry };
}

impl Entry {
    ghost use Rattle.std.specs.Prelude.{◌≡◌, ◌≤◌, Ok, IfOk};
    ghost use Rattle.sha2.specs.Sha256.{sha256};
    ghost use Rattle.ipe_policy.specs.Spelling.{words_of_image};
    ghost use Rattle.ipe_parse.specs.Reading.{reading};
    ghost use Rattle.ipe_machine.specs.Policies.{entry_of};

    /// The entry of a text that reads as this policy, whose image has at most 4,096 words, with a copy of the text.
    pub fn new(
        alloc: Global,
        serial: u64,
        text: &[u8],
        digest: [u8; 32],
        policy: Policy,
    ) -> Result<Entry, AllocError>
        requires digest { digest ≡ sha256 text.now }
        requires policy { reading text.now ≡ Ok policy }
        requires fits { words_of_image policy.items ≤ 4096 }
        ensures { IfOk result (λ entry. entry ≡ entry_of serial text.now) }
    {
        Ok(Entry {
            name: policy.name.clone()?,
            version: policy.version,
            digest,
            serial,
            text: Text::from_vec(text.to_vec(alloc)?),
            policy,
        })
    }
}
