ghost use Rattle.std.specs.Prelude.{◌≡◌, ◌<◌, ◌++◌, IfOk, OnOk};
ghost use Rattle.line_words.specs.Lines.{line_text};
ghost use Rattle.ipe_sim.specs.Roll.{default, each, file, file_path, mark, policy_text, text, text_id};

use ipe_policy::{DevName, PathName};
use ipe_requests::{
    FileForm, FileLine, FileLines, FilePath, MarkDigest, MarkLine, MarkLines, MarkPurpose,
    MarkVerdict, TextLine, TextLines,
};
use line_words::{Bytes, Items};
use std::alloc::{AllocError, Global};

/// The number of policies.
pub const TEXTS: u32 = 16;

const FILES: u32 = 8;

/// The id of a text.
pub fn text_id(alloc: Global, number: u32) -> Result<DevName, AllocError>
    requires { number < 16 }
    ensures { IfOk result (λ id. id ≡ text_id number) }
{
    let id = format!(in alloc; "t{number}")?;
    Ok(DevName::read(id.as_bytes()).unwrap())
}

fn default_line(number: u32) -> &'static str
    ensures { result.now ≡ default number }
{
    if number % 3 == 0 {
        "DEFAULT action=ALLOW"
    } else {
        "DEFAULT action=DENY"
    }
}

fn append_line(text: &mut Vec<u8>, line: &str) -> Result<(), AllocError>
    ensures { OnOk result (text.new.items ≡ text.old.items ++ line_text line.now) }
{
    text.extend_from_slice(line.as_bytes())?;
    text.push(b'\n')?;
    Ok(())
}

// A policy, of which there are four names, each in rising versions.
fn policy_text(alloc: Global, number: u32) -> Result<Bytes, AllocError>
    ensures { IfOk result (λ bytes. bytes ≡ policy_text number) }
{
    let name = number % 4;
    let version = number / 4;
    let header = format!(in alloc; "policy_name=p{name} policy_version=1.{version}.0")?;
    let mut text = Vec::new(alloc);
    append_line(&mut text, header.as_str())?;
    append_line(&mut text, default_line(number))?;
    append_line(&mut text, "op=EXECUTE boot_verified=TRUE action=ALLOW")?;
    append_line(&mut text, "op=KMODULE boot_verified=FALSE action=DENY")?;
    Ok(Items::from_vec(text))
}

fn text(alloc: Global, number: u32) -> Result<TextLine, AllocError>
    requires { number < 16 }
    ensures { IfOk result (λ line. line ≡ text number) }
{
    Ok(TextLine {
        line: 3 + 5 * number,
        id: text_id(alloc, number)?,
        lines: 4,
        bytes: policy_text(alloc, number)?,
    })
}

/// The policies.
pub fn texts(alloc: Global) -> Result<TextLines, AllocError>
    ensures { IfOk result (λ texts. texts ≡ each 16 text) }
{
    let mut texts = Vec::new(alloc);
    for number in 0..TEXTS {
        texts.push(text(alloc, number)?)?;
    }
    Ok(Items::from_vec(texts))
}

fn file_path(alloc: Global, number: u32) -> Result<FilePath, AllocError>
    requires { number < 8 }
    ensures { IfOk result (λ path. path ≡ file_path number) }
{
    let path = format!(in alloc; "/f{number}")?;
    FilePath::new(alloc, PathName::read(path.as_bytes()).unwrap())
}

fn file(alloc: Global, number: u32) -> Result<FileLine, AllocError>
    requires { number < 8 }
    ensures { IfOk result (λ line. line ≡ file number) }
{
    Ok(FileLine {
        line: 83 + number,
        path: file_path(alloc, number)?,
        form: FileForm::Boot {
            dev: DevName::read(b"rootfs").unwrap(),
            ino: 100 + u64::from(number),
            text: text_id(alloc, number)?,
        },
    })
}

/// The files.
pub fn files(alloc: Global) -> Result<FileLines, AllocError>
    ensures { IfOk result (λ files. files ≡ each 8 file) }
{
    let mut files = Vec::new(alloc);
    for number in 0..FILES {
        files.push(file(alloc, number)?)?;
    }
    Ok(Items::from_vec(files))
}

fn mark(alloc: Global, number: u32) -> Result<MarkLine, AllocError>
    requires { number < 16 }
    ensures { IfOk result (λ line. line ≡ mark number) }
{
    Ok(MarkLine {
        line: 91 + number,
        purpose: MarkPurpose::Policy,
        verdict: MarkVerdict::Trusted,
        digest: MarkDigest::Text(text_id(alloc, number)?),
    })
}

/// A mark for each policy.
pub fn marks(alloc: Global) -> Result<MarkLines, AllocError>
    ensures { IfOk result (λ marks. marks ≡ each 16 mark) }
{
    let mut marks = Vec::new(alloc);
    for number in 0..TEXTS {
        marks.push(mark(alloc, number)?)?;
    }
    Ok(Items::from_vec(marks))
}
