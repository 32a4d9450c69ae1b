ghost use Rattle.std.specs.Prelude.{◌≡◌, ◌++◌, IfOk, OnOk, string_bytes};
ghost use Rattle.std.specs.List.{flat_map};
ghost use Rattle.ipe_transcript.specs.Lines.{access_line, acted_text, by_text, bytes_text, hook_text, place_text, read_text, serial_text, told_text, who_text, write_text};
ghost use Rattle.line_words.specs.Lines.{line_text};

use ipe_audit::LineBytes;
use ipe_machine::Place;
use ipe_policy::Which;
use ipe_words::Bytes;
use std::alloc::{AllocError, Global};

pub fn append_line(out: &mut Vec<u8>, line: &[u8]) -> Result<(), AllocError>
    ensures { OnOk result (out.new.items ≡ out.old.items ++ line_text line.now) }
{
    out.extend_from_slice(line)?;
    out.extend_from_slice(b"\n")
}

pub fn append_lines(out: &mut Vec<u8>, lines: &[LineBytes]) -> Result<(), AllocError>
    ensures { OnOk result (out.new.items ≡ out.old.items ++ flat_map line_text lines.now) }
{
    for line in lines {
        append_line(out, line.as_slice())?;
    }
    Ok(())
}

pub fn append_access(out: &mut Vec<u8>, access: &Option<LineBytes>) -> Result<(), AllocError>
    ensures { OnOk result (out.new.items ≡ out.old.items ++ access_line access.now) }
{
    match access {
        Some(record) => append_line(out, record.as_slice()),
        None => Ok(()),
    }
}

fn who(may: bool) -> &'static str
    ensures { result.now ≡ who_text may }
{
    if may { " admin" } else { " guest" }
}

fn push_acted(text: &mut String, line: u32, who: &str, code: i32) -> Result<(), AllocError>
    ensures { OnOk result (string_bytes text.new ≡ string_bytes text.old ++ acted_text line who.now code) }
{
    write!(text, "line={line}{who} code={code}")
}

pub fn write_text(
    alloc: Global,
    line: u32,
    may: bool,
    code: i32,
    epoch: u16,
) -> Result<String, AllocError>
    ensures { IfOk result (λ text. string_bytes text ≡ write_text line may code epoch) }
{
    let mut text = String::new(alloc);
    push_acted(&mut text, line, who(may), code)?;
    write!(text, " epoch={epoch}")?;
    Ok(text)
}

pub fn read_text(
    alloc: Global,
    line: u32,
    code: i32,
    epoch: u16,
    bytes: &Option<Bytes>,
) -> Result<String, AllocError>
    ensures { IfOk result (λ text. string_bytes text ≡ read_text line code epoch bytes.now) }
{
    let mut text = String::new(alloc);
    push_acted(&mut text, line, " admin", code)?;
    write!(text, " epoch={epoch}")?;
    push_told(alloc, &mut text, bytes)?;
    Ok(text)
}

fn push_told(alloc: Global, text: &mut String, bytes: &Option<Bytes>) -> Result<(), AllocError>
    ensures { OnOk result (string_bytes text.new ≡ string_bytes text.old ++ told_text bytes.now) }
{
    match bytes {
        Some(bytes) => {
            text.push_str(" bytes=")?;
            push_bytes(alloc, text, bytes.as_slice())
        }
        None => Ok(()),
    }
}

// Hexadecimal digits, or a dash for no bytes.
fn push_bytes(alloc: Global, text: &mut String, bytes: &[u8]) -> Result<(), AllocError>
    ensures { OnOk result (string_bytes text.new ≡ string_bytes text.old ++ bytes_text bytes.now) }
{
    if bytes.is_empty() {
        return text.push_str("-");
    }
    let digits = hex::encode(alloc, bytes)?;
    text.push_str(&digits)
}

pub fn hook_text(
    alloc: Global,
    line: u32,
    worker: u32,
    code: i32,
    place: Option<Place>,
    serial: Option<u64>,
    by: Option<Which>,
) -> Result<String, AllocError>
    ensures { IfOk result (λ text. string_bytes text ≡ hook_text line worker code place serial by) }
{
    let who = format!(in alloc; " w{worker}")?;
    let mut text = String::new(alloc);
    push_acted(&mut text, line, &who, code)?;
    push_place(&mut text, place)?;
    push_serial(&mut text, serial)?;
    push_by(&mut text, by)?;
    Ok(text)
}

fn push_place(text: &mut String, place: Option<Place>) -> Result<(), AllocError>
    ensures { OnOk result (string_bytes text.new ≡ string_bytes text.old ++ place_text place) }
{
    match place {
        Some(Place { epoch, count }) => write!(text, " epoch={epoch} count={count}"),
        None => text.push_str(" epoch=- count=-"),
    }
}

fn push_serial(text: &mut String, serial: Option<u64>) -> Result<(), AllocError>
    ensures { OnOk result (string_bytes text.new ≡ string_bytes text.old ++ serial_text serial) }
{
    match serial {
        Some(serial) => write!(text, " policy={serial}"),
        None => text.push_str(" policy=-"),
    }
}

fn push_by(text: &mut String, by: Option<Which>) -> Result<(), AllocError>
    ensures { OnOk result (string_bytes text.new ≡ string_bytes text.old ++ by_text by) }
{
    match by {
        Some(Which::Rule(number)) => write!(text, " by=rule:{number}"),
        Some(Which::OpDefault) => text.push_str(" by=op"),
        Some(Which::GlobalDefault) => text.push_str(" by=global"),
        None => text.push_str(" by=-"),
    }
}
