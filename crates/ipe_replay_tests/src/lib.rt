//! Tests of `ipe_replay` over its public calls. They stand apart so that their check doesn't prove `ipe_replay` again.
#![tactic(auto)]

#[cfg(test)]
mod tests;
