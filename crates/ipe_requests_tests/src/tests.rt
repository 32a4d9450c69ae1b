use ipe_requests::*;
use std::alloc::{AllocError, Global};
use std::process::Abort;

pub const HEAD: &str = "ipe-requests 1\nworkers 2\n";

/// The 64 digits of a digest.
pub const DIGITS: &str = "076a27c79e5ace2a3d47f9dd2e83e4ff6ea8872b3c2218f66c92b89b55f36560";

/// A text with `value` in place of each `#`.
pub fn filled(alloc: Global, pattern: &str, value: &str) -> Result<String, AllocError> {
    let mut text = String::from_str(alloc, "")?;
    for (place, part) in pattern.split('#').enumerate() {
        if place > 0 {
            text.push_str(value)?;
        }
        text.push_str(part)?;
    }
    Ok(text)
}

pub fn ask(rt: &impl Abort, alloc: Global, text: &str) -> Result<Requests, ScriptError> {
    assert!(rt; text.len() <= 16_777_216);
    parse_requests(alloc, text.as_bytes())
}

/// The number of the first bad line and what is wrong with it, where memory lasts and there is one.
pub fn fault_of(rt: &impl Abort, alloc: Global, text: &str) -> Option<(u32, ScriptKind)> {
    match ask(rt, alloc, text) {
        Err(ScriptError::Bad { line, kind }) => Some((line, kind)),
        Err(ScriptError::NoMemory) | Ok(_) => None,
    }
}
