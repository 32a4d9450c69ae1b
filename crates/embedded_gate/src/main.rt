//! `embedded_gate` embeds the gate: two threads ask it, while the main thread replaces the policy that they are ruled by.
//!
//! What it prints is the same however the threads run: which policy is in force after each replacement; that each
//! thread's answers are those of the policies, none of an older one after one of a newer; and that the last policy rules
//! once all have met the administrator.
#![tactic(auto)]

mod asking;
mod run;

use anyhow::Result;
use asking::answers;
use run::run;

fn main(rt: HostRuntime) -> Result<()> {
    let report = run(&rt, rt.alloc())?;
    let [at_start, after_first, after_second] = report.serials;
    println!(rt; "in force at the start: policy {}", at_start.unwrap_or(0))?;
    println!(rt;
        "in force after the first replacement: policy {}",
        after_first.unwrap_or(0)
    )?;
    println!(rt;
        "in force after the second replacement: policy {}",
        after_second.unwrap_or(0)
    )?;
    let [of_first, of_second] = report.meanwhile;
    println!(rt; "{}", answers(rt.alloc(), 0, &of_first)?)?;
    println!(rt; "{}", answers(rt.alloc(), 1, &of_second)?)?;
    let [of_first, of_second] = report.afterwards;
    println!(rt;
        "once all had met: policy {} and policy {}",
        of_first.newest, of_second.newest
    )?;
    println!(rt; "closed in epoch {}", report.epoch)?;
    Ok(())
}
