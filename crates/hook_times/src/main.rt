//! `hook_times` does the same work so many times, to be measured from outside: `hook RULES THREADS TIMES` asks the gate
//! from that many threads at once, on a policy of that many rules of which none matches; `other RULES THREADS TIMES` asks
//! it for an operation that none of the rules is of; `decide RULES 1 TIMES` decides by the same policy without a gate;
//! `add 0 1 TIMES` adds to a word that no other thread uses. It prints how many requests were denied, or the sum.
//! `figures RULES THREADS HOOK DECIDE ADDITION` prints what was measured, with its ratios.
#![tactic(auto)]

mod figures;
mod work;

use anyhow::{Context, Result};
use figures::{Times, figures};
use ipe_policy::{Kind, Request};
use std::{env, thread};
use work::{additions, decisions, hooks, open_gate, policy_of};

fn main(rt: HostRuntime) -> Result<()> {
    let words: Vec<String> = env::args(&rt)?.skip(1).collect(rt.alloc())?;
    let mode = words.get(0).context("what to do")?;
    let rules = number(&words, 1)?;
    let threads = number(&words, 2)?;
    let times = number(&words, 3)?;
    if mode.as_str() == "figures" {
        let times = Times {
            hook: times,
            decide: number(&words, 4)?,
            addition: number(&words, 5)?,
        };
        if times.decide == 0 || times.addition == 0 {
            None::<()>.context("times above 0")?;
        }
        println!(rt; "{}", figures(rt.alloc(), rules, threads, &times)?)?;
        return Ok(());
    }
    let policy = policy_of(rt.alloc(), rules)?;
    let total = match mode.as_str() {
        "hook" | "other" => {
            let request = if mode.as_str() == "hook" {
                Request::ExecCheck
            } else {
                Request::KernelRead(Kind::Module)
            };
            let passes = open_gate(rt.alloc(), &policy, threads)?;
            let denied = thread::map_vec(&rt, passes, &|pass| hooks(pass, &request, times))?;
            denied.iter().fold(0u64, |sum, n| sum.saturating_add(*n))
        }
        "decide" => decisions(&policy, times),
        _ => additions(times),
    };
    println!(rt; "{total}")?;
    Ok(())
}

fn number(words: &Vec<String>, place: usize) -> Result<u32> {
    let word = words.get(place).context("a number")?;
    Ok(word.parse::<u32>()?)
}
