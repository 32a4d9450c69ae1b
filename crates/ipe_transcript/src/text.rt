ghost use Rattle.std.specs.Prelude.{◌≡◌, ◌++◌, codes, IfOk, OnOk, string_bytes};
ghost use Rattle.std.specs.List.{flat_map};
ghost use Rattle.ipe_transcript.specs.Text.{content_line, content_text, corrupt_text, entry_text, phase_text, phases_text, transcript_text};

use crate::printing::{append_access, append_line, append_lines, hook_text, read_text, write_text};
use crate::transcript::{Content, Entries, Entry, Transcript};
use std::alloc::{AllocError, Global};

/// The text of a transcript: its first line, each phase's number and entries, and `end`.
pub fn print_transcript(alloc: Global, transcript: &Transcript) -> Result<Vec<u8>, AllocError>
    ensures { IfOk result (λ bytes. bytes.items ≡ transcript_text transcript.now) }
{
    let mut out = Vec::new(alloc);
    append_line(&mut out, b"ipe-transcript 1")?;
    append_phases(alloc, &mut out, transcript.phases())?;
    append_line(&mut out, b"end")?;
    Ok(out)
}

fn append_phases(alloc: Global, out: &mut Vec<u8>, phases: &[Entries]) -> Result<(), AllocError>
    ensures { OnOk result (out.new.items ≡ out.old.items ++ phases_text 1 phases.now) }
{
    for (at, entries) in phases.iter().enumerate() {
        append_phase(alloc, out, at + 1, entries.as_slice())?;
    }
    Ok(())
}

fn append_phase(
    alloc: Global,
    out: &mut Vec<u8>,
    number: usize,
    entries: &[Entry],
) -> Result<(), AllocError>
    ensures { OnOk result (out.new.items ≡ out.old.items ++ phase_text number entries.now) }
{
    append_line(out, format!(in alloc; "phase {number}")?.as_bytes())?;
    for entry in entries {
        append_entry(alloc, out, entry)?;
    }
    Ok(())
}

fn append_entry(alloc: Global, out: &mut Vec<u8>, entry: &Entry) -> Result<(), AllocError>
    ensures { OnOk result (out.new.items ≡ out.old.items ++ entry_text entry.now) }
{
    match entry {
        Entry::Write {
            line,
            may,
            code,
            epoch,
            records,
            ..
        } => {
            let written = write_text(alloc, *line, *may, *code, *epoch)?;
            append_line(out, written.as_bytes())?;
            append_lines(out, records.as_slice())
        }
        Entry::Read {
            line,
            code,
            epoch,
            bytes,
            ..
        } => {
            let read = read_text(alloc, *line, *code, *epoch, bytes)?;
            append_line(out, read.as_bytes())
        }
        Entry::Hook {
            line,
            worker,
            code,
            place,
            serial,
            by,
            access,
            content,
            ..
        } => {
            let asked = hook_text(alloc, *line, *worker, *code, *place, *serial, *by)?;
            append_line(out, asked.as_bytes())?;
            append_access(out, access)?;
            append_content(alloc, out, content)
        }
    }
}

fn append_content(
    alloc: Global,
    out: &mut Vec<u8>,
    content: &Option<Content>,
) -> Result<(), AllocError>
    ensures { OnOk result (out.new.items ≡ out.old.items ++ content_line content.now) }
{
    match content {
        Some(content) => append_line(out, content_text(alloc, content)?.as_bytes()),
        None => Ok(()),
    }
}

fn content_text(alloc: Global, content: &Content) -> Result<String, AllocError>
    ensures { IfOk result (λ text. string_bytes text ≡ content_text content.now) }
{
    match content {
        Content::Hash(digest) => {
            let digits = hex::encode(alloc, digest)?;
            format!(in alloc; "content sha256:{digits}")
        }
        Content::VolumeCorrupt { level, block } => corrupt_text(alloc, "volume", *level, *block),
        Content::FileCorrupt { level, block } => corrupt_text(alloc, "file", *level, *block),
        Content::BadDescriptor { byte } => {
            format!(in alloc; "content bad-descriptor byte={byte}")
        }
    }
}

fn corrupt_text(alloc: Global, whose: &str, level: u8, block: u64) -> Result<String, AllocError>
    ensures { IfOk result (λ text. string_bytes text ≡ corrupt_text whose.now level block) }
{
    let mut text = String::new(alloc);
    write!(text, "content corrupt {whose} level={level} block={block}")?;
    Ok(text)
}
