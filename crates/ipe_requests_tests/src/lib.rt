//! Tests of `ipe_requests` over its public calls. They stand apart so that their check doesn't prove `ipe_requests` again.
#![tactic(auto)]

#[cfg(test)]
mod fault_tests;
#[cfg(test)]
mod limit_tests;
#[cfg(test)]
mod print_tests;
#[cfg(test)]
mod tests;
