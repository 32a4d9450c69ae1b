//! The ground of every crate: the one type of lists, lines of words with the rules of their words, and an index of words.
//!
//! A line is cut into words at each blank. A word has a length and bytes that may stand in it; some words spell a number or
//! bytes.
#![tactic(auto)]

mod items;
mod line;
mod number;
mod word;
mod word_index;

pub use items::{Bytes, Items};
pub use line::{blanks, cut_at, cut_line, place_of, words_of};
pub use number::decimal;
pub use word::{has_length, hex_bytes, is_digit, is_hex, is_lower, is_visible, is_visible_word};
pub use word_index::WordIndex;

#[cfg(test)]
mod tests;
