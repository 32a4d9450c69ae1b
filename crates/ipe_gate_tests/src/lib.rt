//! Tests of `ipe_gate` over its public calls. They stand apart so that their check doesn't prove `ipe_gate` again.
#![tactic(auto)]

#[cfg(test)]
mod tests;
