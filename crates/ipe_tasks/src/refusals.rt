ghost use Rattle.std.specs.Prelude.{◌≡◌, IfOk};
ghost use Rattle.ipe_tasks.specs.Refusals.{bad_line_text, device_text};

use std::alloc::{AllocError, Global};

/// The line that refuses a line of the input for what has this name.
pub fn bad_line(alloc: Global, line: u32, name: &str) -> Result<Vec<u8>, AllocError>
    ensures { IfOk result (λ text. text.items ≡ bad_line_text line name.now) }
{
    let mut text = format!(in alloc; "refused line {line}: ")?;
    text.push_str(name)?;
    text.push_str("\n")?;
    Ok(text.into_bytes())
}

/// The line that refuses a device.
pub fn device_line(alloc: Global, device: &[u8], why: &str) -> Result<Vec<u8>, AllocError>
    ensures { IfOk result (λ text. text.items ≡ device_text device.now why.now) }
{
    let mut text = b"refused: device ".to_vec(alloc)?;
    text.extend_from_slice(device)?;
    text.extend_from_slice(b": ")?;
    text.extend_from_slice(why.as_bytes())?;
    text.extend_from_slice(b"\n")?;
    Ok(text)
}
