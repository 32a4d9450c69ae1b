ghost use Rattle.std.specs.Prelude.{◌≡◌, ◌≤◌, IfOk, IfSome, ok_or};
ghost use Rattle.line_words.specs.Words.{hex_of, number_of};
ghost use Rattle.ipe_requests.specs.Words.{bit_of, bytes_of, kind_of, purpose_of, right_of, verdict_of};
ghost use Rattle.ipe_requests.specs.Known.Thing.{a_text, a_volume, a_file};
ghost use Rattle.ipe_requests.specs.Table.Rule.{Bit, Comm as CommRule, Content, Digits, FileKind, Name, New, Number, Old, OldOrDash, Purpose, Right, Unsealed, Verdict, Visible, Worker};
ghost use Rattle.ipe_requests.specs.Reading.{read_word};

use crate::known::Known;
use crate::line::ScriptKind;
use crate::path::FilePath;
use crate::script::{MarkPurpose, MarkVerdict};
use ipe_policy::{Comm, DevName, DigestBytes, Kind, PathName};
use line_words::{Bytes, decimal, hex_bytes, is_hex, is_visible_word};
use std::alloc::{AllocError, Global};

const MOST_DIGITS: usize = 8192;

fn number_of(word: &[u8], high: u64) -> Option<u64>
    ensures number { result ≡ number_of high word.now }
    ensures within { IfSome result (λ n. n ≤ high) }
{
    decimal(word, high)
}

// A number from `low` to `high`.
pub fn number(known: &Known, word: &[u8], low: u64, high: u64) -> Result<u64, ScriptKind>
    ensures number { result ≡ read_word known.now (Number low high) word.now }
    ensures within { IfOk result (λ n. n ≤ high) }
{
    match number_of(word, high) {
        Some(number) if low <= number => Ok(number),
        _ => Err(ScriptKind::Number),
    }
}

// A number of 32 bits.
pub fn number_of_32_bits(known: &Known, word: &[u8]) -> Result<u32, ScriptKind>
    ensures { result ≡ read_word known.now (Number 0 4294967295) word.now }
{
    Ok(number(known, word, 0, u64::from(u32::MAX))? as u32)
}

// The worker that `w` and a number name.
pub fn worker(known: &Known, word: &[u8]) -> Result<u32, ScriptKind>
    ensures { result ≡ read_word known.now Worker word.now }
{
    let [_, digits @ ..] = word else {
        return Err(ScriptKind::Number);
    };
    match number_of(digits, 30) {
        Some(number) if 1 <= number && number <= u64::from(known.workers) => Ok(number as u32),
        _ => Err(ScriptKind::Number),
    }
}

pub fn name(known: &Known, word: &[u8]) -> Result<DevName, ScriptKind>
    ensures { result ≡ read_word known.now Name word.now }
{
    DevName::read(word).ok_or(ScriptKind::Name)
}

// A word of visible bytes, at most so many.
pub fn visible(
    alloc: Global,
    known: &Known,
    word: &[u8],
    most: usize,
) -> Result<Result<Bytes, ScriptKind>, AllocError>
    ensures { IfOk result (λ read. read ≡ read_word known.now (Visible most) word.now) }
{
    if !is_visible_word(word, most) {
        return Ok(Err(ScriptKind::Name));
    }
    Ok(Ok(Bytes::from_vec(word.to_vec(alloc)?)))
}

pub fn comm(known: &Known, word: &[u8]) -> Result<Comm, ScriptKind>
    ensures { result ≡ read_word known.now CommRule word.now }
{
    Comm::read(word).ok_or(ScriptKind::Name)
}

#[tactic(auto, unfolding(crate::specs::Words::bit_of))]
fn bit_of(word: &[u8]) -> Option<bool>
    ensures { result ≡ bit_of word.now }
{
    if word == b"0".as_slice() {
        Some(false)
    } else if word == b"1".as_slice() {
        Some(true)
    } else {
        None
    }
}

pub fn bit(known: &Known, word: &[u8]) -> Result<bool, ScriptKind>
    ensures { result ≡ read_word known.now Bit word.now }
{
    bit_of(word).ok_or(ScriptKind::Number)
}

#[tactic(auto, unfolding(crate::specs::Words::kind_of))]
fn kind_of(word: &[u8]) -> Option<Kind>
    ensures { result ≡ kind_of word.now }
{
    if word == b"firmware".as_slice() {
        Some(Kind::Firmware)
    } else if word == b"module".as_slice() {
        Some(Kind::Module)
    } else if word == b"kexec-image".as_slice() {
        Some(Kind::KexecImage)
    } else if word == b"kexec-initramfs".as_slice() {
        Some(Kind::KexecInitramfs)
    } else if word == b"policy".as_slice() {
        Some(Kind::Policy)
    } else if word == b"x509".as_slice() {
        Some(Kind::X509)
    } else {
        None
    }
}

pub fn kind(known: &Known, word: &[u8]) -> Result<Kind, ScriptKind>
    ensures { result ≡ read_word known.now FileKind word.now }
{
    kind_of(word).ok_or(ScriptKind::Name)
}

#[tactic(auto, unfolding(crate::specs::Words::purpose_of))]
fn purpose_of(word: &[u8]) -> Option<MarkPurpose>
    ensures { result ≡ purpose_of word.now }
{
    if word == b"policy".as_slice() {
        Some(MarkPurpose::Policy)
    } else if word == b"root".as_slice() {
        Some(MarkPurpose::Root)
    } else if word == b"file".as_slice() {
        Some(MarkPurpose::File)
    } else {
        None
    }
}

pub fn purpose(known: &Known, word: &[u8]) -> Result<MarkPurpose, ScriptKind>
    ensures { result ≡ read_word known.now Purpose word.now }
{
    purpose_of(word).ok_or(ScriptKind::Name)
}

#[tactic(auto, unfolding(crate::specs::Words::verdict_of))]
fn verdict_of(word: &[u8]) -> Option<MarkVerdict>
    ensures { result ≡ verdict_of word.now }
{
    if word == b"trusted".as_slice() {
        Some(MarkVerdict::Trusted)
    } else if word == b"unknown".as_slice() {
        Some(MarkVerdict::Unknown)
    } else if word == b"revoked".as_slice() {
        Some(MarkVerdict::Revoked)
    } else {
        None
    }
}

pub fn verdict(known: &Known, word: &[u8]) -> Result<MarkVerdict, ScriptKind>
    ensures { result ≡ read_word known.now Verdict word.now }
{
    verdict_of(word).ok_or(ScriptKind::Name)
}

#[tactic(auto, unfolding(crate::specs::Words::right_of))]
fn right_of(word: &[u8]) -> Option<bool>
    ensures { result ≡ right_of word.now }
{
    if word == b"admin".as_slice() {
        Some(true)
    } else if word == b"guest".as_slice() {
        Some(false)
    } else {
        None
    }
}

// Whether `admin` or `guest` acts.
pub fn right(known: &Known, word: &[u8]) -> Result<bool, ScriptKind>
    ensures { result ≡ read_word known.now Right word.now }
{
    right_of(word).ok_or(ScriptKind::Form)
}

// The 32 bytes that 64 digits spell.
#[tactic(auto, unfolding(line_words::specs::Words::hex_of))]
fn hex_digest(word: &[u8]) -> Option<DigestBytes>
    ensures { result ≡ hex_of 64 64 word.now }
{
    if !is_hex(64, 64, word) {
        return None;
    }
    let mut buffer = [0u8; 32];
    hex::decode_to_slice(word, &mut buffer).ok()?;
    DigestBytes::read(&buffer)
}

pub fn digest(known: &Known, word: &[u8]) -> Result<DigestBytes, ScriptKind>
    ensures { result ≡ read_word known.now (Digits 64 64) word.now }
{
    hex_digest(word).ok_or(ScriptKind::Hex)
}

#[tactic(auto, unfolding(crate::specs::Words::bytes_of))]
fn bytes_of(alloc: Global, word: &[u8]) -> Result<Option<Bytes>, AllocError>
    ensures { IfOk result (λ bytes. bytes ≡ bytes_of word.now) }
{
    if word == b"-".as_slice() {
        return Ok(Some(Bytes::from_vec(Vec::new(alloc))));
    }
    hex_bytes(alloc, 2, MOST_DIGITS, word)
}

// The bytes that a dash or digits say.
pub fn bytes(
    alloc: Global,
    known: &Known,
    word: &[u8],
) -> Result<Result<Bytes, ScriptKind>, AllocError>
    ensures { IfOk result (λ read. read ≡ read_word known.now Content word.now) }
{
    Ok(bytes_of(alloc, word)?.ok_or(ScriptKind::Hex))
}

// The id of a text that isn't declared before.
pub fn new_text(known: &Known, word: &[u8]) -> Result<DevName, ScriptKind>
    ensures { result ≡ read_word known.now (New a_text) word.now }
{
    let id = DevName::read(word).ok_or(ScriptKind::Name)?;
    if known.texts.names.place_of(word).is_some() {
        return Err(ScriptKind::Twice);
    }
    Ok(id)
}

// The id of a text that is declared before.
pub fn old_text(known: &Known, word: &[u8]) -> Result<DevName, ScriptKind>
    ensures { result ≡ read_word known.now (Old a_text) word.now }
{
    let id = DevName::read(word).ok_or(ScriptKind::Name)?;
    if known.texts.names.place_of(word).is_none() {
        return Err(ScriptKind::Unknown);
    }
    Ok(id)
}

// The id of a volume that isn't declared before.
pub fn new_volume(known: &Known, word: &[u8]) -> Result<DevName, ScriptKind>
    ensures { result ≡ read_word known.now (New a_volume) word.now }
{
    let id = DevName::read(word).ok_or(ScriptKind::Name)?;
    if known.volumes.names.place_of(word).is_some() {
        return Err(ScriptKind::Twice);
    }
    Ok(id)
}

// The id of a volume that is declared before.
pub fn old_volume(known: &Known, word: &[u8]) -> Result<DevName, ScriptKind>
    ensures { result ≡ read_word known.now (Old a_volume) word.now }
{
    let id = DevName::read(word).ok_or(ScriptKind::Name)?;
    if known.volumes.names.place_of(word).is_none() {
        return Err(ScriptKind::Unknown);
    }
    Ok(id)
}

// The path of a file that isn't declared before.
pub fn new_file(known: &Known, word: &[u8]) -> Result<PathName, ScriptKind>
    ensures { result ≡ read_word known.now (New a_file) word.now }
{
    let path = PathName::read(word).ok_or(ScriptKind::Name)?;
    if known.files.names.place_of(word).is_some() {
        return Err(ScriptKind::Twice);
    }
    Ok(path)
}

// The path of a file that is declared before.
pub fn old_file(
    alloc: Global,
    known: &Known,
    word: &[u8],
) -> Result<Result<FilePath, ScriptKind>, AllocError>
    ensures { IfOk result (λ read. read ≡ read_word known.now (Old a_file) word.now) }
{
    let Some(path) = PathName::read(word) else {
        return Ok(Err(ScriptKind::Name));
    };
    match known.files.names.place_of(word) {
        Some(place) => Ok(Ok(known.path_at(alloc, place, path)?)),
        None => Ok(Err(ScriptKind::Unknown)),
    }
}

// The path of a file that is declared before, or a dash for none.
pub fn old_file_or_dash(
    alloc: Global,
    known: &Known,
    word: &[u8],
) -> Result<Result<Option<FilePath>, ScriptKind>, AllocError>
    ensures { IfOk result (λ read. read ≡ read_word known.now OldOrDash word.now) }
{
    if word == b"-".as_slice() {
        return Ok(Ok(None));
    }
    let Some(path) = PathName::read(word) else {
        return Ok(Err(ScriptKind::Name));
    };
    match known.files.names.place_of(word) {
        Some(place) => Ok(Ok(Some(known.path_at(alloc, place, path)?))),
        None => Ok(Err(ScriptKind::Unknown)),
    }
}

// The path of a declared file that isn't sealed before.
pub fn unsealed_file(known: &Known, word: &[u8]) -> Result<PathName, ScriptKind>
    ensures { result ≡ read_word known.now Unsealed word.now }
{
    let path = PathName::read(word).ok_or(ScriptKind::Name)?;
    if known.seals.names.place_of(word).is_some() {
        return Err(ScriptKind::Twice);
    }
    if known.files.names.place_of(word).is_none() {
        return Err(ScriptKind::Unknown);
    }
    Ok(path)
}
