//! A policy as words: at most 4,096 words of 64 bits that tell each default and each rule, so that the gate decides
//! from them without memory or a lock.
//!
//! [`compile`] writes the image of a policy, [`decide_words`] decides from the words of an image alone, and
//! [`rule_text`] spells the statement that decided. What the words are is said by `image_of` in specs/Image.antt.
#![tactic(auto)]

mod compiling;
mod deciding;
mod head;
mod hit;
mod law;
mod packing;
mod property;
mod reader;
mod record;
mod wording;

pub use compiling::{CompileError, Image, compile};
pub use deciding::decide_words;
pub use hit::{Hit, Place, Ruling};
pub use law::images_are_read_as_themselves;
pub use reader::{CountingReader, SliceReader, WordReader};
pub use wording::rule_text;

#[cfg(test)]
mod tests;
