ghost use Rattle.std.specs.Prelude.{◌≡◌, ◌++◌, ◌≤◌, IfOk, Ok, OnOk, length};
ghost use Rattle.std.specs.List.{flat_map};
ghost use Rattle.ipe_requests.specs.Requests.{requests_of};
ghost use Rattle.ipe_requests.specs.Spelling.{asked_text, file_text, head_text, mark_text, phase_text, request_text, seal_text, text_text, volume_text};

mod asked;
mod declared;
mod word;

use crate::requests::Requests;
use crate::script::{FileLine, MarkLine, Phase, PhaseLine, SealLine, TextLine, VolumeLine};
use asked::append_asked;
use declared::{append_file, append_mark, append_seal, append_text, append_volume};
use std::alloc::{AllocError, Global};
use word::append_number;

fn append_all_asked(alloc: Global, out: &mut Vec<u8>, lines: &[PhaseLine]) -> Result<(), AllocError>
    ensures { OnOk result (out.new.items ≡ out.old.items ++ flat_map asked_text lines.now) }
{
    for what in lines {
        append_asked(alloc, out, what)?;
    }
    Ok(())
}

fn append_phase(alloc: Global, out: &mut Vec<u8>, phase: &Phase) -> Result<(), AllocError>
    ensures { OnOk result (out.new.items ≡ out.old.items ++ phase_text phase.now) }
{
    out.extend_from_slice(b"phase\n")?;
    append_all_asked(alloc, out, phase.lines.as_slice())
}

fn append_texts(alloc: Global, out: &mut Vec<u8>, texts: &[TextLine]) -> Result<(), AllocError>
    ensures { OnOk result (out.new.items ≡ out.old.items ++ flat_map text_text texts.now) }
{
    for text in texts {
        append_text(alloc, out, text)?;
    }
    Ok(())
}

fn append_volumes(out: &mut Vec<u8>, volumes: &[VolumeLine]) -> Result<(), AllocError>
    ensures { OnOk result (out.new.items ≡ out.old.items ++ flat_map volume_text volumes.now) }
{
    for volume in volumes {
        append_volume(out, volume)?;
    }
    Ok(())
}

fn append_files(alloc: Global, out: &mut Vec<u8>, files: &[FileLine]) -> Result<(), AllocError>
    ensures { OnOk result (out.new.items ≡ out.old.items ++ flat_map file_text files.now) }
{
    for file in files {
        append_file(alloc, out, file)?;
    }
    Ok(())
}

fn append_seals(alloc: Global, out: &mut Vec<u8>, seals: &[SealLine]) -> Result<(), AllocError>
    ensures { OnOk result (out.new.items ≡ out.old.items ++ flat_map seal_text seals.now) }
{
    for seal in seals {
        append_seal(alloc, out, seal)?;
    }
    Ok(())
}

fn append_marks(alloc: Global, out: &mut Vec<u8>, marks: &[MarkLine]) -> Result<(), AllocError>
    ensures { OnOk result (out.new.items ≡ out.old.items ++ flat_map mark_text marks.now) }
{
    for mark in marks {
        append_mark(alloc, out, mark)?;
    }
    Ok(())
}

fn append_phases(alloc: Global, out: &mut Vec<u8>, phases: &[Phase]) -> Result<(), AllocError>
    ensures { OnOk result (out.new.items ≡ out.old.items ++ flat_map phase_text phases.now) }
{
    for phase in phases {
        append_phase(alloc, out, phase)?;
    }
    Ok(())
}

// The first two lines.
fn head(alloc: Global, workers: u32) -> Result<Vec<u8>, AllocError>
    ensures { IfOk result (λ out. out.items ≡ head_text workers) }
{
    let mut out = b"ipe-requests 1\nworkers".to_vec(alloc)?;
    append_number(alloc, &mut out, u64::from(workers))?;
    out.push(b'\n')?;
    Ok(out)
}

/// The bytes of the request file that declares and asks this: they are read as it.
pub fn print_requests(alloc: Global, requests: &Requests) -> Result<Vec<u8>, AllocError>
    ensures bytes { IfOk result (λ bytes. bytes.items ≡ request_text requests.now) }
    ensures read { IfOk result (λ bytes. requests_of bytes.items ≡ Ok requests.now) }
    ensures few { IfOk result (λ bytes. length bytes.items ≤ 16777216) }
{
    let mut out = head(alloc, requests.workers)?;
    append_texts(alloc, &mut out, requests.texts.as_slice())?;
    append_volumes(&mut out, requests.volumes.as_slice())?;
    append_files(alloc, &mut out, requests.files.as_slice())?;
    append_seals(alloc, &mut out, requests.seals.as_slice())?;
    append_marks(alloc, &mut out, requests.marks.as_slice())?;
    append_phases(alloc, &mut out, requests.phases.as_slice())?;
    out.extend_from_slice(b"end\n")?;
    Ok(out)
}
