//! Lines and tokens of a policy text, as walks over the text that take no memory.
#![tactic(auto)]

mod line_walk;
mod places;
mod token_walk;
mod walks;

pub use line_walk::{Line, LineWalk};
pub use places::stand_in_their_text;
pub use token_walk::{Token, TokenWalk};
pub use walks::{lines, tokens};
