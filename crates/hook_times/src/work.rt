ghost use Rattle.std.specs.Prelude.{◌≡◌, ◌≤◌, IfOk, length};

use anyhow::{Context as _, Result};
use crossbeam_utils::atomic::AtomicCell;
use ipe_gate::{Pass, start};
use ipe_hooks::hook;
use ipe_image::compile;
use ipe_parse::parse;
use ipe_policy::{Action, Context, Op, Policy, Request, decide};
use std::alloc::Global;

const HEAD: &[u8] = b"policy_name=p policy_version=1.0.0\nDEFAULT action=DENY\n";

// It holds of no file of the initial root file system.
const RULE: &[u8] = b"op=EXECUTE boot_verified=FALSE action=DENY\n";

const CONTEXT: Context = Context {
    boot: true,
    dm: None,
    fs: None,
};

/// A policy with so many rules, of which none matches.
pub fn policy_of(alloc: Global, rules: u32) -> Result<Policy> {
    let mut text = Vec::new(alloc);
    text.extend_from_slice(HEAD)?;
    for _ in 0..rules {
        text.extend_from_slice(RULE)?;
    }
    if text.len() > 1_048_576 {
        None::<()>.context("too many rules")?;
    }
    Ok(parse(alloc, text.as_slice())?)
}

/// So many passes of a gate whose active policy is this one.
pub fn open_gate(alloc: Global, policy: &Policy, passes: u32) -> Result<Vec<Pass>>
    ensures { IfOk result (λ made. length made.items ≡ passes) }
{
    if passes == 0 || passes > 30 {
        None::<()>.context("1 to 30 threads")?;
    }
    let image = compile(alloc, policy, 1)?;
    let (mut admin, passes) = start(alloc, passes)?;
    let slot = admin.place(&image);
    admin.switch(Some(slot), true, false);
    Ok(passes)
}

/// How many of so many hooks on this request are denied.
pub fn hooks(mut pass: Pass, request: &Request, times: u32) -> u64 {
    let context = CONTEXT;
    let mut denied = 0u64;
    if pass.holds().is_some() || pass.calls() > 0 {
        return denied;
    }
    for _ in 0..times {
        let ruling = hook(&mut pass, request, &context);
        if ruling.code != 0 {
            denied = denied.saturating_add(1);
        }
    }
    denied
}

/// How many of so many decisions deny.
pub fn decisions(policy: &Policy, times: u32) -> u64 {
    let context = CONTEXT;
    let mut denied = 0u64;
    for _ in 0..times {
        if decide(policy, Op::Execute, &context).action == Action::Deny {
            denied = denied.saturating_add(1);
        }
    }
    denied
}

/// The sum of so many additions of 1 to one word.
pub fn additions(times: u32) -> u64 {
    let word = AtomicCell::new(0u64);
    for _ in 0..times {
        word.fetch_add(1);
    }
    word.load()
}
