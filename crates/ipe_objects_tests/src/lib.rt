//! Tests of `ipe_objects` over its public calls. They stand apart so that their check doesn't prove `ipe_objects` again.
#![tactic(auto)]

#[cfg(test)]
mod tests;
