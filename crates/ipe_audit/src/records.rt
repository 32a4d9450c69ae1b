ghost use Rattle.std.specs.Prelude.{◌≡◌, ◌++◌, IfOk, OnOk, None};
ghost use Rattle.std.specs.Option.{option_copied};
ghost use Rattle.ipe_audit.specs.Records.{activation_text, enforce_text, load_text, new_text, old_text, told};

use ipe_policy::{Name, Version, bit_text};
use std::alloc::{AllocError, Global};

/// What records tell of a policy: its name, its version and the SHA-256 of its text.
#[derive(Debug, Drop)]
pub struct Brief {
    pub name: Name,
    pub version: Version,
    pub digest: [u8; 32],
}

// What stands before a policy's name, version and digest.
#[derive(Clone, Copy)]
struct Keys {
    name: &'static [u8],
    version: &'static [u8],
    digest: &'static [u8],
}

// A policy's name, version and digest, each after its key.
fn append_policy(
    alloc: Global,
    line: &mut Vec<u8>,
    keys: Keys,
    policy: &Brief,
) -> Result<(), AllocError>
    ensures { OnOk result (line.new.items ≡ line.old.items
        ++ told keys.name.now keys.version.now keys.digest.now policy.now) }
{
    let version = policy.version.to_string(alloc)?;
    let digits = hex::encode(alloc, policy.digest)?;
    line.extend_from_slice(keys.name)?;
    line.extend_from_slice(policy.name.as_slice())?;
    line.extend_from_slice(keys.version)?;
    line.extend_from_slice(version.as_bytes())?;
    line.extend_from_slice(keys.digest)?;
    line.extend_from_slice(digits.as_bytes())
}

/// The record of a load or an update, of type 1422, without an end of line.
pub fn load_line(alloc: Global, policy: &Brief) -> Result<Vec<u8>, AllocError>
    ensures { IfOk result (λ line. line.items ≡ load_text policy.now) }
{
    let keys = Keys {
        name: b"type=1422 policy_name=\"",
        version: b"\" policy_version=",
        digest: b" policy_digest=sha256:",
    };
    let mut line = Vec::new(alloc);
    append_policy(alloc, &mut line, keys, policy)?;
    line.extend_from_slice(b" auid=4294967295 ses=4294967295 lsm=ipe res=1 errno=0")?;
    Ok(line)
}

// No policy was active.
fn append_question_marks(line: &mut Vec<u8>) -> Result<(), AllocError>
    ensures { OnOk result (line.new.items ≡ line.old.items ++ old_text None) }
{
    line.extend_from_slice(b"old_active_pol_name=? old_active_pol_version=? old_policy_digest=?")
}

fn append_old(alloc: Global, line: &mut Vec<u8>, old: Option<&Brief>) -> Result<(), AllocError>
    ensures { OnOk result (line.new.items ≡ line.old.items ++ old_text (option_copied old.entry)) }
{
    let keys = Keys {
        name: b"old_active_pol_name=\"",
        version: b"\" old_active_pol_version=",
        digest: b" old_policy_digest=sha256:",
    };
    match old {
        Some(policy) => append_policy(alloc, line, keys, policy),
        None => append_question_marks(line),
    }
}

fn append_new(alloc: Global, line: &mut Vec<u8>, new: &Brief) -> Result<(), AllocError>
    ensures { OnOk result (line.new.items ≡ line.old.items ++ new_text new.now) }
{
    let keys = Keys {
        name: b"new_active_pol_name=\"",
        version: b"\" new_active_pol_version=",
        digest: b" new_policy_digest=sha256:",
    };
    append_policy(alloc, line, keys, new)
}

/// The record of a change of the active policy, of type 1421, without an end of line.
pub fn activation_line(
    alloc: Global,
    old: Option<&Brief>,
    new: &Brief,
) -> Result<Vec<u8>, AllocError>
    ensures { IfOk result (λ line. line.items ≡ activation_text (option_copied old.entry) new.now) }
{
    let mut line = b"type=1421 ".to_vec(alloc)?;
    append_old(alloc, &mut line, old)?;
    line.extend_from_slice(b" ")?;
    append_new(alloc, &mut line, new)?;
    line.extend_from_slice(b" auid=4294967295 ses=4294967295 lsm=ipe res=1")?;
    Ok(line)
}

/// The record of a change of the switch enforce to this value, of type 1404, without an end of line.
pub fn enforce_line(alloc: Global, enforce: bool) -> Result<Vec<u8>, AllocError>
    ensures { IfOk result (λ line. line.items ≡ enforce_text enforce) }
{
    let mut line = b"type=1404 enforcing=".to_vec(alloc)?;
    line.extend_from_slice(bit_text(enforce))?;
    line.extend_from_slice(b" old_enforcing=")?;
    line.extend_from_slice(bit_text(!enforce))?;
    line.extend_from_slice(
        b" auid=4294967295 ses=4294967295 enabled=1 old-enabled=1 lsm=ipe res=1",
    )?;
    Ok(line)
}
