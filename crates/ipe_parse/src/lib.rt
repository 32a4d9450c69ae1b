//! From the text of a policy to the policy, or to the text's first fault.
#![tactic(auto)]

mod draft;
mod error;
mod given;
mod header;
mod header_line;
mod law;
mod line;
mod line_error;
mod reading;
mod spoken;
mod statements;
mod token;
mod walk;

pub use error::{BadKind, BadText, ParseError};
pub use law::{names_the_first_fault, printed_is_read, reads_or_has_a_fault};
pub use reading::parse;
