//! Tests of `ipe_sim` over its public calls. They stand apart so that their check doesn't prove `ipe_sim` again.
#![tactic(auto)]

#[cfg(test)]
mod tests;
