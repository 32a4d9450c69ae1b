ghost use Rattle.std.specs.Prelude.{◌≡◌, ◌+◌, ◌≤◌, ◌<◌, ◌==◌, ℕ};
ghost use Rattle.ipe_policy.specs.Spelling.{words_for};
ghost use Rattle.ipe_policy.specs.Statement.{RuleParts};
ghost use Rattle.ipe_policy.specs.declared.statement.Property.{Property};
ghost use Rattle.ipe_image.specs.Image.{action_number, kind_number};
ghost use Rattle.ipe_image.specs.Reading.{default_read};
ghost use Rattle.ipe_image.specs.Heads.{IsPropertyHead, IsRuleHead, kind_code, kind_of, told_of_property, told_of_rule};

use ipe_policy::{Action, Op};

/// How many words some bytes fill.
pub(crate) fn words_for(bytes: usize) -> usize
    requires { bytes ≤ 255 }
    ensures words { result ≡ words_for bytes }
    ensures few { result ≤ 32 }
{
    bytes.div_ceil(8)
}

/// The action of a number, if it is one.
pub(crate) fn action_of(number: u64) -> Option<Action>
    ensures { result ≡ default_read number }
{
    match number {
        1 => Some(Action::Allow),
        2 => Some(Action::Deny),
        _ => None,
    }
}

/// The number of an action.
pub(crate) fn action_number(action: Action) -> u64
    ensures number { result ≡ action_number action }
    ensures below { result < 3 }
{
    match action {
        Action::Allow => 1,
        Action::Deny => 2,
    }
}

/// What the head of a rule tells: the rule's number, its action, and how many words it has with the head.
#[derive(Clone, Copy)]
pub(crate) struct RuleHead {
    pub number: u32,
    pub action: Action,
    pub words: u32,
}

impl RuleHead {
    pub fn read(word: u64) -> RuleHead
        ensures { (number : ℕ) (rule : RuleParts) → IsRuleHead word number rule → result ≡ told_of_rule number rule }
    {
        RuleHead {
            number: (word % 0x1_0000_0000) as u32,
            action: action_of(word / 0x100_0000_0000 % 256).unwrap_or(Action::Deny),
            words: (word / 0x100_0000_0000_0000) as u32,
        }
    }
}

/// The kinds of properties.
#[derive(Clone, Copy)]
pub(crate) enum PropertyKind {
    BootVerified,
    DmveritySignature,
    FsveritySignature,
    DmverityRoothash,
    FsverityDigest,
}

impl PropertyKind {
    pub fn number(self) -> u64
        ensures number { result ≡ kind_code self }
        ensures below { result < 5 }
    {
        match self {
            PropertyKind::BootVerified => 0,
            PropertyKind::DmveritySignature => 1,
            PropertyKind::FsveritySignature => 2,
            PropertyKind::DmverityRoothash => 3,
            PropertyKind::FsverityDigest => 4,
        }
    }

    fn of_number(number: u64) -> PropertyKind
        ensures { (property : Property) → number ≡ kind_number property → result ≡ kind_of property }
    {
        match number {
            0 => PropertyKind::BootVerified,
            1 => PropertyKind::DmveritySignature,
            2 => PropertyKind::FsveritySignature,
            3 => PropertyKind::DmverityRoothash,
            _ => PropertyKind::FsverityDigest,
        }
    }
}

/// What the head of a property tells: its kind, the truth value that it wants, and how many bytes the name of its
/// algorithm and its digest have.
#[derive(Clone, Copy)]
pub(crate) struct PropertyHead {
    pub kind: PropertyKind,
    pub wanted: bool,
    pub alg_len: usize,
    pub digest_len: usize,
}

impl PropertyHead {
    pub fn read(word: u64) -> PropertyHead
        ensures { (property : Property) → IsPropertyHead word property → result ≡ told_of_property property }
    {
        PropertyHead {
            kind: PropertyKind::of_number(word % 256),
            wanted: word / 256 % 256 == 1,
            alg_len: (word / 0x1_0000 % 256) as usize,
            digest_len: (word / 0x100_0000 % 256) as usize,
        }
    }
}
