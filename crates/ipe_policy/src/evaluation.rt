ghost use Rattle.std.specs.Prelude.{◌≡◌, ◌≤◌, ◌&&◌, Some, None, false, length, slice_get};
ghost use Rattle.std.specs.List.{filter_map, list_all};
ghost use Rattle.std.specs.Option.{option_map};
ghost use Rattle.ipe_policy.specs.Evaluation.{decision, first_match, has_digest, holds_in, is_signed};
ghost use Rattle.ipe_policy.specs.Policy.{global_defaults, op_defaults};
ghost use Rattle.ipe_policy.specs.Statement.{global_default_of, op_default_of, rule_of, same_op};

use crate::{Action, Digest, Op, Policy, Properties, Property, Statement};

/// A digest of a file's volume or of the file, and whether it is signed.
#[derive(Debug, Drop)]
pub struct Signed {
    pub digest: Digest,
    pub signed: bool,
}

/// What is known of a file: whether it is of the initial root file system, the digest of its dm-verity volume, and its
/// own fs-verity digest.
#[derive(Debug, Drop)]
pub struct Context {
    pub boot: bool,
    pub dm: Option<Signed>,
    pub fs: Option<Signed>,
}

impl Context {
    /// The context of no file.
    pub fn none() -> Context
        ensures boot { result.boot ≡ false }
        ensures dm { result.dm ≡ None }
        ensures fs { result.fs ≡ None }
    {
        Context {
            boot: false,
            dm: None,
            fs: None,
        }
    }
}

/// Which statement decided. Rules are numbered from 1 in text order, over all operations.
#[derive(Clone, Copy, Debug, PartialEq, Eq)]
pub enum Which {
    Rule(u32),
    OpDefault,
    GlobalDefault,
}

/// What was decided, and by which statement.
#[derive(Clone, Copy, Debug, PartialEq, Eq)]
pub struct Found {
    pub action: Action,
    pub which: Which,
}

/// Whether a property holds of a file.
pub fn holds(property: &Property, context: &Context) -> bool
    ensures { result ≡ holds_in context.now property.now }
{
    match property {
        Property::BootVerified(wanted) => *wanted == context.boot,
        Property::DmverityRoothash(digest) => has_digest(&context.dm, digest),
        Property::DmveritySignature(wanted) => *wanted == is_signed(&context.dm),
        Property::FsverityDigest(digest) => has_digest(&context.fs, digest),
        Property::FsveritySignature(wanted) => *wanted == is_signed(&context.fs),
    }
}

fn has_digest(part: &Option<Signed>, digest: &Digest) -> bool
    ensures { result ≡ has_digest part.now digest.now }
{
    match part {
        Some(signed) => {
            digest.alg.as_slice() == signed.digest.alg.as_slice()
                && digest.bytes.as_slice() == signed.digest.bytes.as_slice()
        }
        None => false,
    }
}

fn is_signed(part: &Option<Signed>) -> bool
    ensures { result ≡ is_signed part.now }
{
    match part {
        Some(signed) => signed.signed,
        None => false,
    }
}

fn matches(op: Op, props: &Properties, wanted: Op, context: &Context) -> bool
    ensures { result ≡ (same_op wanted op && list_all (holds_in context.now) props.now) }
{
    op == wanted && all_hold(props.as_slice(), context)
}

fn all_hold(props: &[Property], context: &Context) -> bool
    ensures { result ≡ list_all (holds_in context.now) props.now }
{
    props.iter().all(|property| holds(property, context))
}

// The number and the action of the first rule of the operation whose properties all hold.
fn first_match(items: &[Statement], op: Op, context: &Context) -> Option<(u32, Action)>
    requires { length items.now ≤ 1048576 }
    ensures { result ≡ option_map (λ rule. (rule.0, rule.1.action)) (first_match items.now op context.now) }
{
    let mut number: u32 = 0;
    let mut found = None;
    for item in items {
        if let Statement::Rule {
            op: of,
            props,
            action,
        } = item
        {
            number += 1;
            if matches(*of, props, op, context) {
                found = Some((number, *action));
                break;
            }
        }
    }
    found
}

pub(crate) fn op_default_of(item: &Statement, op: Op) -> Option<Action>
    ensures { result ≡ op_default_of op item.now }
{
    match item {
        Statement::OpDefault { op: of, action } => (op == *of).then_some(*action),
        _ => None,
    }
}

pub(crate) fn global_default_of(item: &Statement) -> Option<Action>
    ensures { result ≡ global_default_of item.now }
{
    match item {
        Statement::GlobalDefault { action } => Some(*action),
        _ => None,
    }
}

/// The first default of the operation.
pub fn op_default(items: &[Statement], op: Op) -> Option<Action>
    ensures { result ≡ slice_get (op_defaults op items.now) 0 }
{
    for item in items {
        if let Some(action) = op_default_of(item, op) {
            return Some(action);
        }
    }
    None
}

/// The first global default.
pub fn global_default(items: &[Statement]) -> Option<Action>
    ensures { result ≡ slice_get (global_defaults items.now) 0 }
{
    for item in items {
        if let Some(action) = global_default_of(item) {
            return Some(action);
        }
    }
    None
}

/// The number of rules.
pub fn rule_count(items: &[Statement]) -> usize
    ensures { result ≡ length (filter_map rule_of items.now) }
{
    let mut count = 0;
    for item in items {
        if let Statement::Rule { .. } = item {
            count += 1;
        }
    }
    count
}

/// What a policy decides of a file for an operation: the first rule of the operation whose properties all hold, else
/// the operation's default, else the global default.
pub fn decide(policy: &Policy, op: Op, context: &Context) -> Found
    ensures { decision policy.now.items op context.now ≡ Some result }
{
    let items = policy.items.as_slice();
    if let Some((number, action)) = first_match(items, op, context) {
        return Found {
            action,
            which: Which::Rule(number),
        };
    }
    if let Some(action) = op_default(items, op) {
        return Found {
            action,
            which: Which::OpDefault,
        };
    }
    match global_default(items) {
        Some(action) => Found {
            action,
            which: Which::GlobalDefault,
        },
        None => unreachable!(),
    }
}
