use line_words::{Bytes, Items};

/// The bytes of a line, without its end.
pub type LineBytes = Bytes;

/// Lines, in order.
pub type Lines = Items<LineBytes>;
