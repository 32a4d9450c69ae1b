ghost use Rattle.std.specs.Prelude.{◌≡◌, ◌<◌, ◌&&◌, ◌↔◌, IsTrue, length, nat_le};
ghost use Rattle.std.specs.List.{AllByRecursion, list_all};
ghost use Rattle.ipe_policy.specs.Policy.{IsNamedDigest, IsPolicy, IsProperty, IsStatement, global_defaults, has_one_default, op_defaults};
ghost use Rattle.ipe_policy.specs.Statement.{operations};

use crate::evaluation::{global_default_of, op_default_of};
use crate::{Digest, Op, Property, Statement};

// The most statements of a policy.
const MOST_STATEMENTS: usize = 1_048_576;

fn has_byte(bytes: &[u8]) -> bool
    ensures some { result ≡ nat_le 1 (length bytes.now) }
    ensures bytes { AllByRecursion (λ byte. byte < 256) bytes.now }
{
    !bytes.is_empty()
}

// Whether a policy may name the digest: the types of its parts have the other rules.
fn is_named(digest: &Digest) -> bool
    ensures { IsTrue result ↔ IsNamedDigest digest.now }
{
    let _alg = digest.alg.as_slice();
    has_byte(digest.bytes.as_slice())
}

fn keeps_rule(property: &Property) -> bool
    ensures { IsTrue result ↔ IsProperty property.now }
{
    match property {
        Property::DmverityRoothash(digest) | Property::FsverityDigest(digest) => is_named(digest),
        Property::BootVerified(_)
        | Property::DmveritySignature(_)
        | Property::FsveritySignature(_) => true,
    }
}

fn all_keep_rules(properties: &[Property]) -> bool
    ensures { IsTrue result ↔ AllByRecursion IsProperty properties.now }
{
    for property in properties {
        if !keeps_rule(property) {
            return false;
        }
    }
    true
}

fn is_statement(item: &Statement) -> bool
    ensures { IsTrue result ↔ IsStatement item.now }
{
    match item {
        Statement::Rule { props, .. } => all_keep_rules(props.as_slice()),
        Statement::OpDefault { .. } | Statement::GlobalDefault { .. } => true,
    }
}

fn are_statements(items: &[Statement]) -> bool
    ensures { IsTrue result ↔ AllByRecursion IsStatement items.now }
{
    for item in items {
        if !is_statement(item) {
            return false;
        }
    }
    true
}

// How many defaults the statements give the operation.
fn op_default_count(items: &[Statement], op: Op) -> usize
    ensures { result ≡ length (op_defaults op items.now) }
{
    let mut count = 0;
    for item in items {
        if op_default_of(item, op).is_some() {
            count += 1;
        }
    }
    count
}

// How many global defaults the statements give.
fn global_default_count(items: &[Statement]) -> usize
    ensures { result ≡ length (global_defaults items.now) }
{
    let mut count = 0;
    for item in items {
        if global_default_of(item).is_some() {
            count += 1;
        }
    }
    count
}

fn has_one_default(items: &[Statement], op: Op, global: usize) -> bool
    requires { global ≡ length (global_defaults items.now) }
    ensures { result ≡ has_one_default items.now op }
{
    let own = op_default_count(items, op);
    own <= 1 && (own == 1 || global >= 1)
}

fn have_defaults(items: &[Statement]) -> bool
    ensures { result ≡ (nat_le (length (global_defaults items.now)) 1
        && list_all (has_one_default items.now) operations) }
{
    let global = global_default_count(items);
    if global > 1 {
        return false;
    }
    for op in Op::ALL {
        if !has_one_default(items, op, global) {
            return false;
        }
    }
    true
}

/// Whether the statements keep the rules of a policy.
pub(crate) fn are_policy(items: &[Statement]) -> bool
    ensures { IsTrue result ↔ IsPolicy items.now }
{
    if items.len() > MOST_STATEMENTS {
        return false;
    }
    if !have_defaults(items) {
        return false;
    }
    are_statements(items)
}
