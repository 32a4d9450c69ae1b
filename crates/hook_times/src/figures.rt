ghost use Rattle.std.specs.Prelude.{◌≡◌, ◌<◌, ◌++◌, IfOk, string_bytes};
ghost use Rattle.hook_times.specs.Figures.{figures_text, percent};

use std::alloc::{AllocError, Global};

/// What a hook, a decision by the same policy, and an addition to a word that no other thread uses take, in
/// picoseconds.
#[derive(Clone, Copy, Debug)]
pub struct Times {
    pub hook: u32,
    pub decide: u32,
    pub addition: u32,
}

// A time in hundredths of another.
fn percent(time: u32, base: u32) -> u64
    requires { 0 < base }
    ensures { result ≡ percent time base }
{
    u64::from(time) * 100 / u64::from(base)
}

/// The line of a hook's times on a policy of so many rules, from so many threads at once.
pub fn figures(alloc: Global, rules: u32, threads: u32, times: &Times) -> Result<String, AllocError>
    requires decide { 0 < times.now.decide }
    requires addition { 0 < times.now.addition }
    ensures { IfOk result (λ text. string_bytes text ≡ figures_text rules threads times.now) }
{
    let hook = times.hook;
    let of_decide = percent(times.hook, times.decide);
    let of_addition = percent(times.hook, times.addition);
    let mut text = String::new(alloc);
    write!(text, "rules {rules}, threads {threads}")?;
    write!(text, ": a hook takes {hook}")?;
    write!(text, " ps, in hundredths of decide {of_decide}")?;
    write!(text, ", of an addition {of_addition}")?;
    Ok(text)
}
