// The start of a gate.
ghost use Rattle.std.specs.Prelude.{◌≡◌, ◌<◌, ◌≤◌, IfOk};
ghost use Rattle.ipe_gate.specs.Opening.{AreFirstWords, IsStart};

use crate::table::{ENFORCE, GateTable};
use crate::{GateAdmin, Pass};
use ipe_gate_rule::{NewPass, WORDS};
use std::alloc::{AllocError, Global};
use std::sync::Arc;

// ACTIVE at the start, and zero in all other words.
fn first_words(alloc: Global, count: usize) -> Result<Vec<u64>, AllocError>
    requires { 0 < count }
    ensures { IfOk result (λ v. AreFirstWords count v.items) }
{
    let mut words = vec![in alloc; 0; count]?;
    words[0] = ENFORCE;
    Ok(words)
}

/// A gate, which takes about 2 MB: its administrator, and its passes in the order of their numbers, from 0. No slot is
/// active, denials are enforced, and what is allowed isn't recorded.
pub fn start(alloc: Global, passes: u32) -> Result<(GateAdmin, Vec<Pass>), AllocError>
    requires some { 0 < passes }
    requires few { passes ≤ 30 }
    ensures { IfOk result (λ r. IsStart passes r.0 r.1.items) }
{
    let words = first_words(alloc, WORDS)?;
    let (table, mut seat) = GateTable::of_words(alloc, words.as_slice(), &())?;
    let table = Arc::new(alloc, table)?;
    let mut all = Vec::new(alloc);
    for number in 0..passes {
        all.reserve(1)?;
        let theirs = Arc::try_clone(&table)?;
        let pass_seat = table.shared.split_seat::<NewPass>(&mut seat);
        all.push_reserved(Pass {
            table: theirs,
            seat: pass_seat,
            number,
            made: 0,
            holding: 0,
        });
    }
    let admin = GateAdmin {
        table,
        seat,
        passes,
        epoch: 0,
        active: 0,
        sums: [0; 64],
        bound: [false; 64],
    };
    Ok((admin, all))
}
