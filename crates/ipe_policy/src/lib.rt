//! Policies of Integrity Policy Enforcement: the words and statements that they are made of, and what they decide.
//!
//! [`decide`] is the meaning of a policy: the first rule of the operation whose properties all hold, else the
//! operation's default, else the global default. [`Policy`] keeps the rules on defaults, so one of the three decides.
#![tactic(auto)]

mod evaluation;
mod image;
mod keeping;
mod op;
mod policy;
mod request;
mod spelling;
mod statement;
mod version;
mod words;

pub use evaluation::{
    Context, Found, Signed, Which, decide, global_default, holds, op_default, rule_count,
};
pub use image::image_words;
pub use op::{Action, Op};
pub use policy::{Policy, Statements};
pub use request::{Hook, Kind, Object, Request, Subject};
pub use spelling::{append_truth, bit_text, print, statement_text};
pub use statement::{Digest, Properties, Property, Statement};
pub use version::Version;
pub use words::{AlgName, Comm, DevName, DigestBytes, Name, PathName};

#[cfg(test)]
mod tests;
