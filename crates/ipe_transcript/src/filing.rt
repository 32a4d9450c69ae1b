ghost use Rattle.std.specs.Prelude.{◌≡◌, ℕ, ◌+◌, ◌<◌, [], ◌∷◌, ◌++◌, length, map, IfOk, OnOk};
ghost use Rattle.ipe_transcript.specs.Entries.{actor_of, key_of, line_of, of_phase};
ghost use Rattle.ipe_transcript.specs.Filing.{AreFiled, filed};
ghost use Rattle.ipe_transcript.specs.Order.{filed_shown, part_at};

use crate::key::{Key, key_of};
use crate::transcript::{Entries, Entry};
use std::alloc::{AllocError, Global};
use std::collections::BTreeMap;

// Adds an entry to its phase's part, if there is one.
fn add_to_part(parts: &mut Vec<Vec<Entry>>, entry: Entry) -> Result<(), AllocError>
    ensures count { length parts.new.items ≡ length parts.old.items }
    ensures added { OnOk result ((i : ℕ) → i < length parts.old.items →
        part_at parts.new.items i ≡ part_at parts.old.items i ++ of_phase (i + 1) (entry ∷ [])) }
{
    if let Some(at) = (entry.phase() as usize).checked_sub(1) {
        if let Some(part) = parts.get_mut(at) {
            part.push(entry)?;
        }
    }
    Ok(())
}

fn empty_parts(alloc: Global, phases: u32) -> Result<Vec<Vec<Entry>>, AllocError>
    ensures count { IfOk result (λ parts. length parts.items ≡ phases) }
    ensures empty { IfOk result (λ parts. (i : ℕ) → part_at parts.items i ≡ []) }
{
    let mut parts = Vec::new(alloc);
    for _ in 0..phases {
        parts.push(Vec::new(alloc))?;
    }
    Ok(parts)
}

// The entries of each phase up to the last, in the order in which they come. Those of other phases are left out.
pub fn part_by_phase(
    alloc: Global,
    phases: u32,
    entries: Vec<Entry>,
) -> Result<Vec<Vec<Entry>>, AllocError>
    ensures count { IfOk result (λ parts. length parts.items ≡ phases) }
    ensures parted { IfOk result (λ parts. (i : ℕ) → i < phases →
        part_at parts.items i ≡ of_phase (i + 1) entries.items) }
{
    let mut parts = empty_parts(alloc, phases)?;
    for entry in entries {
        add_to_part(&mut parts, entry)?;
    }
    Ok(parts)
}

// An entry with the key by which it is filed.
#[derive(Drop)]
pub struct Filed {
    pub key: Option<Key>,
    pub entry: Entry,
}

// Each of a phase's entries is filed by its own key, else by the latest one of its actor's entries before it.
fn file(alloc: Global, entries: Vec<Entry>) -> Result<Vec<Filed>, AllocError>
    ensures { IfOk result (λ filed_entries.
        map filed_shown filed_entries.items ≡ filed actor_of key_of [] entries.items) }
{
    let mut latest = BTreeMap::new(alloc);
    let mut filed = Vec::new(alloc);
    for entry in entries {
        let actor = entry.actor();
        let key = key_of(&entry).or(latest.get(&actor).copied());
        if let Some(key) = key {
            latest.insert(actor, key)?;
        }
        filed.push(Filed { key, entry })?;
    }
    Ok(filed)
}

// A phase's entries in their order.
pub fn order_phase(alloc: Global, entries: Vec<Entry>) -> Result<Entries, AllocError>
    ensures { IfOk result (λ ordered. AreFiled actor_of line_of key_of entries.items ordered) }
{
    let mut filed = file(alloc, entries)?;
    filed.sort_by_key(|filed| (filed.key, filed.entry.actor(), filed.entry.line()))?;
    let ordered = filed.into_iter().map(|filed| filed.entry).collect(alloc)?;
    Ok(Entries::from_vec(ordered))
}
