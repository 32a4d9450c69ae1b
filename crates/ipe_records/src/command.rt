ghost use Rattle.std.specs.Prelude.{◌≡◌, ◌∷◌, [], IfOk, IsTrue, OnErr, is_some};
ghost use Rattle.std.specs.Option.{option_copied, option_map, option_map_or};
ghost use Rattle.ipe_audit.specs.Records.{load_text};
ghost use Rattle.ipe_machine.specs.Change as change;
ghost use Rattle.ipe_machine.specs.Policies as state;
ghost use Rattle.ipe_machine.specs.Policies.{active_entry};
ghost use Rattle.ipe_registry.specs.Change.{change_in};
ghost use Rattle.ipe_records.specs.Records.{activation_of, brief_of, change_records, records_with};

use ipe_audit::{Brief, LineBytes, Lines, activation_line, enforce_line, load_line};
use ipe_registry::{Change, Entry, Plan, Registry, Step};
use std::alloc::{AllocError, Global};

/// The records of the command that comes to this plan on these policies, in their order. None is made by a refusal or
/// where nothing is changed, and then no memory is taken.
pub fn command_records(alloc: Global, registry: &Registry, plan: &Plan) -> Result<Lines, AllocError>
    ensures records { IfOk result (λ lines. lines ≡ records_with registry.now (change_in plan.now)) }
    ensures memory { OnErr result (IsTrue (is_some (change_in plan.now))) }
{
    match plan {
        Plan::Refused(_) | Plan::Same(_) => Ok(no_lines(alloc)),
        Plan::Ready(change) => change_records(alloc, registry, change),
    }
}

fn change_records(alloc: Global, registry: &Registry, change: &Change) -> Result<Lines, AllocError>
    ensures { IfOk result (λ lines. lines ≡ change_records registry.now change.now) }
{
    match change.step() {
        Step::Load(entry) => one_line(alloc, load_record(alloc, entry)?),
        Step::Update(entry) => update_records(alloc, registry, entry),
        Step::Activate(name) => activation_records(alloc, registry, registry.entry(name)),
        Step::Enforce(on) => one_line(alloc, enforce_line(alloc, *on)?),
        Step::Delete(_) | Step::SuccessAudit(_) => Ok(no_lines(alloc)),
    }
}

fn update_records(alloc: Global, registry: &Registry, entry: &Entry) -> Result<Lines, AllocError>
    ensures { IfOk result
        (λ lines. lines ≡ change_records registry.now (change.Updates entry.now.name entry.now)) }
{
    let loaded = load_record(alloc, entry)?;
    if registry.is_active(&entry.name) {
        two_lines(alloc, loaded, activation_record(alloc, registry, entry)?)
    } else {
        one_line(alloc, loaded)
    }
}

fn activation_records(
    alloc: Global,
    registry: &Registry,
    entry: Option<&Entry>,
) -> Result<Lines, AllocError>
    ensures { IfOk result (λ lines. lines
        ≡ option_map_or (λ (e : state.Loaded). activation_of registry.now e ∷ []) (option_copied entry.entry) []) }
{
    match entry {
        Some(entry) => one_line(alloc, activation_record(alloc, registry, entry)?),
        None => Ok(no_lines(alloc)),
    }
}

// The record of a load of this entry.
fn load_record(alloc: Global, entry: &Entry) -> Result<Vec<u8>, AllocError>
    ensures { IfOk result (λ line. line.items ≡ load_text (brief_of entry.now)) }
{
    load_line(alloc, &brief_of(entry)?)
}

// The record of a change of the active policy to this entry.
fn activation_record(
    alloc: Global,
    registry: &Registry,
    entry: &Entry,
) -> Result<Vec<u8>, AllocError>
    ensures { IfOk result (λ line. line.items ≡ activation_of registry.now entry.now) }
{
    let old = active_brief(registry)?;
    activation_line(alloc, old.as_ref(), &brief_of(entry)?)
}

/// What records tell of the policy that is active.
pub fn active_brief(registry: &Registry) -> Result<Option<Brief>, AllocError>
    ensures { IfOk result (λ brief. brief ≡ option_map brief_of (active_entry registry.now)) }
{
    match registry.active_entry() {
        Some(entry) => Ok(Some(brief_of(entry)?)),
        None => Ok(None),
    }
}

fn brief_of(entry: &Entry) -> Result<Brief, AllocError>
    ensures { IfOk result (λ brief. brief ≡ brief_of entry.now) }
{
    Ok(Brief {
        name: entry.name.clone()?,
        version: entry.version,
        digest: entry.digest,
    })
}

fn no_lines(alloc: Global) -> Lines
    ensures { result ≡ [] }
{
    Lines::from_vec(Vec::new(alloc))
}

fn one_line(alloc: Global, line: Vec<u8>) -> Result<Lines, AllocError>
    ensures { IfOk result (λ lines. lines ≡ line.items ∷ []) }
{
    let mut lines = Vec::new(alloc);
    lines.push(LineBytes::from_vec(line))?;
    Ok(Lines::from_vec(lines))
}

fn two_lines(alloc: Global, first: Vec<u8>, second: Vec<u8>) -> Result<Lines, AllocError>
    ensures { IfOk result (λ lines. lines ≡ first.items ∷ second.items ∷ []) }
{
    let mut lines = Vec::new(alloc);
    lines.push(LineBytes::from_vec(first))?;
    lines.push(LineBytes::from_vec(second))?;
    Ok(Lines::from_vec(lines))
}
