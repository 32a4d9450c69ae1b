//! Where a hook asks the gate: one call, from any thread that has a pass.
//!
//! [`hook`] claims the active policy by one atomic addition, decides from the words of its image, and returns the claim
//! by another. It takes no lock and no memory, and waits for nobody.
#![tactic(auto)]

mod law;
mod ruling;

pub use law::rules_as_the_machine;
pub use ruling::hook;
