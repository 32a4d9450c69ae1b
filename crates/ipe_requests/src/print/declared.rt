ghost use Rattle.std.specs.Prelude.{◌≡◌, ◌++◌, ◌∷◌, OnOk, codes};
ghost use Rattle.std.specs.Fmt.{decimal};
ghost use Rattle.ipe_requests.specs.declared.script.FileForm.TheVariants as Form;
ghost use Rattle.ipe_requests.specs.declared.script.MarkDigest.TheVariants as Digest;
ghost use Rattle.ipe_requests.specs.Words.{purpose_word, verdict_word};
ghost use Rattle.ipe_requests.specs.Spelling.{file_text, mark_text, seal_text, text_text, volume_text};

use super::word::{append_number, append_word, end_line, purpose_word, verdict_word};
use crate::path::FilePath;
use crate::script::{
    FileForm, FileLine, MarkDigest, MarkLine, MarkPurpose, MarkVerdict, SealLine, TextLine,
    VolumeLine,
};
use ipe_policy::{DevName, DigestBytes};
use line_words::Bytes;
use std::alloc::{AllocError, Global};

// `text ID N` and the raw lines
pub fn append_text(alloc: Global, out: &mut Vec<u8>, text: &TextLine) -> Result<(), AllocError>
    ensures { OnOk result (out.new.items ≡ out.old.items ++ text_text text.now) }
{
    out.extend_from_slice(b"text")?;
    append_word(out, text.id.as_slice())?;
    append_number(alloc, out, u64::from(text.lines))?;
    out.push(b'\n')?;
    out.extend_from_slice(text.bytes.as_slice())
}

// `volume ID TABLE`
pub fn append_volume(out: &mut Vec<u8>, volume: &VolumeLine) -> Result<(), AllocError>
    ensures { OnOk result (out.new.items ≡ out.old.items ++ volume_text volume.now) }
{
    out.extend_from_slice(b"volume")?;
    append_word(out, volume.id.as_slice())?;
    append_word(out, volume.words.as_slice())?;
    end_line(out)
}

// `file PATH` and the word of its kind
fn append_named(out: &mut Vec<u8>, path: &FilePath, kind: &[u8]) -> Result<(), AllocError>
    ensures { OnOk result (out.new.items ≡ out.old.items ++ codes "file" ++ 32 ∷ path.now ++ 32 ∷ kind.now) }
{
    out.extend_from_slice(b"file")?;
    append_word(out, path.as_slice())?;
    append_word(out, kind)
}

// `file PATH boot DEV INO ID`
fn append_boot(
    alloc: Global,
    out: &mut Vec<u8>,
    path: &FilePath,
    dev: &DevName,
    ino: u64,
    text: &DevName,
) -> Result<(), AllocError>
    ensures { OnOk result (out.new.items ≡ out.old.items
        ++ file_text (record { line = 0; path = path.now; form = Form.Boot dev.now ino text.now })) }
{
    append_named(out, path, b"boot")?;
    append_word(out, dev.as_slice())?;
    append_number(alloc, out, ino)?;
    append_word(out, text.as_slice())?;
    end_line(out)
}

// `file PATH volume ID FIRST SIZE INO`
fn append_part(
    alloc: Global,
    out: &mut Vec<u8>,
    path: &FilePath,
    volume: &DevName,
    first: u64,
    size: u64,
    ino: u64,
) -> Result<(), AllocError>
    ensures { OnOk result (out.new.items ≡ out.old.items
        ++ file_text (record { line = 0; path = path.now; form = Form.Volume volume.now first size ino })) }
{
    append_named(out, path, b"volume")?;
    append_word(out, volume.as_slice())?;
    append_number(alloc, out, first)?;
    append_number(alloc, out, size)?;
    append_number(alloc, out, ino)?;
    end_line(out)
}

// Where a plain file's bytes are, and how many.
fn append_span(
    alloc: Global,
    out: &mut Vec<u8>,
    device: &Bytes,
    at: u64,
    size: u64,
) -> Result<(), AllocError>
    ensures { OnOk result (out.new.items ≡ out.old.items ++ 32 ∷ device.now ++ 32 ∷ decimal at ++ 32 ∷ decimal size) }
{
    append_word(out, device.as_slice())?;
    append_number(alloc, out, at)?;
    append_number(alloc, out, size)
}

// `file PATH plain DEVICE AT SIZE DEV INO`
fn append_plain(
    alloc: Global,
    out: &mut Vec<u8>,
    path: &FilePath,
    device: &Bytes,
    at: u64,
    size: u64,
    dev: &DevName,
    ino: u64,
) -> Result<(), AllocError>
    ensures { OnOk result (out.new.items ≡ out.old.items
        ++ file_text (record { line = 0; path = path.now; form = Form.Plain device.now at size dev.now ino })) }
{
    append_named(out, path, b"plain")?;
    append_span(alloc, out, device, at, size)?;
    append_word(out, dev.as_slice())?;
    append_number(alloc, out, ino)?;
    end_line(out)
}

pub fn append_file(alloc: Global, out: &mut Vec<u8>, file: &FileLine) -> Result<(), AllocError>
    ensures { OnOk result (out.new.items ≡ out.old.items ++ file_text file.now) }
{
    let path = &file.path;
    match &file.form {
        FileForm::Boot { dev, ino, text } => append_boot(alloc, out, path, dev, *ino, text),
        FileForm::Volume {
            volume,
            first,
            size,
            ino,
        } => append_part(alloc, out, path, volume, *first, *size, *ino),
        FileForm::Plain {
            device,
            at,
            size,
            dev,
            ino,
        } => append_plain(alloc, out, path, device, *at, *size, dev, *ino),
    }
}

// `seal PATH DEVICE AT`
pub fn append_seal(alloc: Global, out: &mut Vec<u8>, seal: &SealLine) -> Result<(), AllocError>
    ensures { OnOk result (out.new.items ≡ out.old.items ++ seal_text seal.now) }
{
    out.extend_from_slice(b"seal")?;
    append_word(out, seal.path.as_slice())?;
    append_word(out, seal.device.as_slice())?;
    append_number(alloc, out, seal.at)?;
    end_line(out)
}

// `mark PURPOSE VERDICT`
fn append_vouched(
    out: &mut Vec<u8>,
    purpose: MarkPurpose,
    verdict: MarkVerdict,
) -> Result<(), AllocError>
    ensures { OnOk result (out.new.items ≡ out.old.items ++ codes "mark" ++ 32 ∷ purpose_word purpose
        ++ 32 ∷ verdict_word verdict) }
{
    out.extend_from_slice(b"mark")?;
    append_word(out, purpose_word(purpose))?;
    append_word(out, verdict_word(verdict))
}

// `mark PURPOSE VERDICT text ID`
fn append_mark_text(
    out: &mut Vec<u8>,
    purpose: MarkPurpose,
    verdict: MarkVerdict,
    id: &DevName,
) -> Result<(), AllocError>
    ensures { OnOk result (out.new.items ≡ out.old.items
        ++ mark_text (record { line = 0; purpose = purpose; verdict = verdict; digest = Digest.Text id.now })) }
{
    append_vouched(out, purpose, verdict)?;
    append_word(out, b"text")?;
    append_word(out, id.as_slice())?;
    end_line(out)
}

// `mark PURPOSE VERDICT hex H`
fn append_mark_hex(
    alloc: Global,
    out: &mut Vec<u8>,
    purpose: MarkPurpose,
    verdict: MarkVerdict,
    bytes: &DigestBytes,
) -> Result<(), AllocError>
    ensures { OnOk result (out.new.items ≡ out.old.items
        ++ mark_text (record { line = 0; purpose = purpose; verdict = verdict; digest = Digest.Hex bytes.now })) }
{
    let digits = hex::encode(alloc, bytes.as_slice())?;
    append_vouched(out, purpose, verdict)?;
    append_word(out, b"hex")?;
    append_word(out, digits.as_bytes())?;
    end_line(out)
}

pub fn append_mark(alloc: Global, out: &mut Vec<u8>, mark: &MarkLine) -> Result<(), AllocError>
    ensures { OnOk result (out.new.items ≡ out.old.items ++ mark_text mark.now) }
{
    match &mark.digest {
        MarkDigest::Text(id) => append_mark_text(out, mark.purpose, mark.verdict, id),
        MarkDigest::Hex(bytes) => append_mark_hex(alloc, out, mark.purpose, mark.verdict, bytes),
    }
}
