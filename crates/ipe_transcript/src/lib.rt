//! The lines of a transcript, and where its entries belong.
#![tactic(auto)]

mod filing;
mod key;
mod laws;
mod printing;
mod text;
mod transcript;

pub use laws::{entries_are_printed_in_one_order, filed_entries_are_printed};
pub use text::print_transcript;
pub use transcript::{Content, Entries, Entry, Transcript};

#[cfg(test)]
mod order_tests;
#[cfg(test)]
mod text_tests;
