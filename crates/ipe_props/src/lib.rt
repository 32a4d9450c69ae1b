//! What a signer's verdicts make of digests: which volumes and files count as signed.
#![tactic(auto)]

mod props;

pub use props::{dm_props, fs_props};

#[cfg(test)]
mod tests;
