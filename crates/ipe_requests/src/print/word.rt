ghost use Rattle.std.specs.Prelude.{◌≡◌, ◌++◌, ◌∷◌, [], OnOk, unwrap_or};
ghost use Rattle.std.specs.Fmt.{decimal};
ghost use Rattle.ipe_requests.specs.Words.{bit_word, bytes_word, kind_word, path_word, purpose_word, right_word, verdict_word};

use crate::path::FilePath;
use crate::script::{MarkPurpose, MarkVerdict};
use ipe_policy::Kind;
use std::alloc::{AllocError, Global};

pub fn append_word(text: &mut Vec<u8>, word: &[u8]) -> Result<(), AllocError>
    ensures { OnOk result (text.new.items ≡ text.old.items ++ 32 ∷ word.now) }
{
    text.push(b' ')?;
    text.extend_from_slice(word)
}

pub fn append_number(alloc: Global, text: &mut Vec<u8>, number: u64) -> Result<(), AllocError>
    ensures { OnOk result (text.new.items ≡ text.old.items ++ 32 ∷ decimal number) }
{
    let number = number.to_string(alloc)?;
    append_word(text, number.as_bytes())
}

pub fn append_bytes(alloc: Global, text: &mut Vec<u8>, bytes: &[u8]) -> Result<(), AllocError>
    ensures { OnOk result (text.new.items ≡ text.old.items ++ 32 ∷ bytes_word bytes.now) }
{
    match bytes {
        [] => append_word(text, b"-"),
        [_, ..] => {
            let digits = hex::encode(alloc, bytes)?;
            append_word(text, digits.as_bytes())
        }
    }
}

pub fn end_line(text: &mut Vec<u8>) -> Result<(), AllocError>
    ensures { OnOk result (text.new.items ≡ text.old.items ++ 10 ∷ []) }
{
    text.push(b'\n')?;
    Ok(())
}

pub fn kind_word(kind: Kind) -> &'static [u8]
    ensures { result.now ≡ kind_word kind }
{
    match kind {
        Kind::Firmware => b"firmware",
        Kind::Module => b"module",
        Kind::KexecImage => b"kexec-image",
        Kind::KexecInitramfs => b"kexec-initramfs",
        Kind::Policy => b"policy",
        Kind::X509 => b"x509",
    }
}

pub fn purpose_word(purpose: MarkPurpose) -> &'static [u8]
    ensures { result.now ≡ purpose_word purpose }
{
    match purpose {
        MarkPurpose::Policy => b"policy",
        MarkPurpose::Root => b"root",
        MarkPurpose::File => b"file",
    }
}

pub fn verdict_word(verdict: MarkVerdict) -> &'static [u8]
    ensures { result.now ≡ verdict_word verdict }
{
    match verdict {
        MarkVerdict::Trusted => b"trusted",
        MarkVerdict::Unknown => b"unknown",
        MarkVerdict::Revoked => b"revoked",
    }
}

pub fn right_word(may: bool) -> &'static [u8]
    ensures { result.now ≡ right_word may }
{
    if may { b"admin" } else { b"guest" }
}

// A path, or nothing.
pub fn path_of(path: &Option<FilePath>) -> &[u8]
    ensures { result.now ≡ unwrap_or path.now [] }
{
    match path {
        Some(path) => path.as_slice(),
        None => &[],
    }
}

// A path, or a dash for no file.
pub fn path_word(path: &Option<FilePath>) -> &[u8]
    ensures { result.now ≡ path_word path.now }
{
    match path {
        Some(path) => path.as_slice(),
        None => b"-",
    }
}

pub fn bit_word(bit: bool) -> &'static [u8]
    ensures { result.now ≡ bit_word bit }
{
    if bit { b"1" } else { b"0" }
}
