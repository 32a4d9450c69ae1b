//! Who vouches for a digest: a signer answers for policies, volumes and files, each by the digest alone.
#![tactic(auto)]

mod signer;
mod trust_list;

pub use signer::{Purpose, Signer, Verdict};
pub use trust_list::{Mark, Marks, TrustList};
