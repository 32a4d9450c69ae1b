ghost use Rattle.std.specs.Prelude.{◌≡◌, ◌++◌, ◌∷◌, None, OnOk, codes};
ghost use Rattle.std.specs.Fmt.{decimal};
ghost use Rattle.ipe_policy.specs.declared.request.Request.TheVariants as Request;
ghost use Rattle.ipe_requests.specs.declared.script.PhaseLine.TheVariants as Asked;
ghost use Rattle.ipe_requests.specs.declared.script.WriteContent.TheVariants as Content;
ghost use Rattle.ipe_requests.specs.Words.{bit_word, right_word};
ghost use Rattle.ipe_requests.specs.Spelling.{asked_text};

use super::word::{
    append_bytes, append_number, append_word, bit_word, end_line, kind_word, path_of, path_word,
    right_word,
};
use crate::path::FilePath;
use crate::script::{PhaseLine, WriteContent};
use ipe_policy::{DevName, Kind, Request, Subject};
use line_words::Bytes;
use std::alloc::{AllocError, Global};

// `admin write NODE`, or with `guest`
fn append_to(out: &mut Vec<u8>, may: bool, node: &Bytes) -> Result<(), AllocError>
    ensures { OnOk result (out.new.items ≡ out.old.items ++ right_word may ++ 32 ∷ codes "write" ++ 32 ∷ node.now) }
{
    out.extend_from_slice(right_word(may))?;
    append_word(out, b"write")?;
    append_word(out, node.as_slice())
}

// `admin write NODE text ID`. The number of a line isn't spelled: 0 stands for any.
fn append_write_text(
    out: &mut Vec<u8>,
    may: bool,
    node: &Bytes,
    id: &DevName,
) -> Result<(), AllocError>
    ensures { OnOk result (out.new.items ≡ out.old.items
        ++ asked_text (Asked.Write 0 may node.now (Content.Text id.now))) }
{
    append_to(out, may, node)?;
    append_word(out, b"text")?;
    append_word(out, id.as_slice())?;
    end_line(out)
}

// `admin write NODE echo WORD`
fn append_write_echo(
    out: &mut Vec<u8>,
    may: bool,
    node: &Bytes,
    word: &Bytes,
) -> Result<(), AllocError>
    ensures { OnOk result (out.new.items ≡ out.old.items
        ++ asked_text (Asked.Write 0 may node.now (Content.Echo word.now))) }
{
    append_to(out, may, node)?;
    append_word(out, b"echo")?;
    append_word(out, word.as_slice())?;
    end_line(out)
}

// `admin write NODE hex H`
fn append_write_hex(
    alloc: Global,
    out: &mut Vec<u8>,
    may: bool,
    node: &Bytes,
    bytes: &Bytes,
) -> Result<(), AllocError>
    ensures { OnOk result (out.new.items ≡ out.old.items
        ++ asked_text (Asked.Write 0 may node.now (Content.Hex bytes.now))) }
{
    append_to(out, may, node)?;
    append_word(out, b"hex")?;
    append_bytes(alloc, out, bytes.as_slice())?;
    end_line(out)
}

fn append_write(
    alloc: Global,
    out: &mut Vec<u8>,
    may: bool,
    node: &Bytes,
    content: &WriteContent,
) -> Result<(), AllocError>
    ensures { OnOk result (out.new.items ≡ out.old.items ++ asked_text (Asked.Write 0 may node.now content.now)) }
{
    match content {
        WriteContent::Text(id) => append_write_text(out, may, node, id),
        WriteContent::Echo(word) => append_write_echo(out, may, node, word),
        WriteContent::Hex(bytes) => append_write_hex(alloc, out, may, node, bytes),
    }
}

// A worker, its hook, the process and its name.
fn append_task(
    alloc: Global,
    out: &mut Vec<u8>,
    worker: u32,
    hook: &[u8],
    subject: &Subject,
) -> Result<(), AllocError>
    ensures { OnOk result (out.new.items ≡ out.old.items ++ codes "w" ++ decimal worker ++ 32 ∷ hook.now
        ++ 32 ∷ decimal subject.now.pid ++ 32 ∷ subject.now.comm) }
{
    let number = worker.to_string(alloc)?;
    out.extend_from_slice(b"w")?;
    out.extend_from_slice(number.as_bytes())?;
    append_word(out, hook)?;
    append_number(alloc, out, u64::from(subject.pid))?;
    append_word(out, subject.comm.as_slice())
}

// `wK exec PID COMM PATH`
fn append_exec(
    alloc: Global,
    out: &mut Vec<u8>,
    worker: u32,
    subject: &Subject,
    path: &Option<FilePath>,
) -> Result<(), AllocError>
    ensures { OnOk result (out.new.items ≡ out.old.items
        ++ asked_text (Asked.Hook 0 worker Request.ExecCheck subject.now path.now)) }
{
    append_task(alloc, out, worker, b"exec", subject)?;
    append_word(out, path_of(path))?;
    end_line(out)
}

// `wK mmap PID COMM PROT PATH`
fn append_mmap(
    alloc: Global,
    out: &mut Vec<u8>,
    worker: u32,
    prot: u32,
    subject: &Subject,
    path: &Option<FilePath>,
) -> Result<(), AllocError>
    ensures { OnOk result (out.new.items ≡ out.old.items
        ++ asked_text (Asked.Hook 0 worker (Request.Mmap prot) subject.now path.now)) }
{
    append_task(alloc, out, worker, b"mmap", subject)?;
    append_number(alloc, out, u64::from(prot))?;
    append_word(out, path_of(path))?;
    end_line(out)
}

// Whether a mapping is executable already, and its protection.
fn append_mapped(
    alloc: Global,
    out: &mut Vec<u8>,
    was_exec: bool,
    prot: u32,
) -> Result<(), AllocError>
    ensures { OnOk result (out.new.items ≡ out.old.items ++ 32 ∷ bit_word was_exec ++ 32 ∷ decimal prot) }
{
    append_word(out, bit_word(was_exec))?;
    append_number(alloc, out, u64::from(prot))
}

// `wK mprotect PID COMM WAS PROT PATH`
fn append_mprotect(
    alloc: Global,
    out: &mut Vec<u8>,
    worker: u32,
    was_exec: bool,
    prot: u32,
    subject: &Subject,
    path: &Option<FilePath>,
) -> Result<(), AllocError>
    ensures { OnOk result (out.new.items ≡ out.old.items
        ++ asked_text (Asked.Hook 0 worker (Request.Mprotect was_exec prot) subject.now path.now)) }
{
    append_task(alloc, out, worker, b"mprotect", subject)?;
    append_mapped(alloc, out, was_exec, prot)?;
    append_word(out, path_word(path))?;
    end_line(out)
}

// `wK read PID COMM KIND PATH`
fn append_kernel_read(
    alloc: Global,
    out: &mut Vec<u8>,
    worker: u32,
    kind: Kind,
    subject: &Subject,
    path: &Option<FilePath>,
) -> Result<(), AllocError>
    ensures { OnOk result (out.new.items ≡ out.old.items
        ++ asked_text (Asked.Hook 0 worker (Request.KernelRead kind) subject.now path.now)) }
{
    append_task(alloc, out, worker, b"read", subject)?;
    append_word(out, kind_word(kind))?;
    append_word(out, path_of(path))?;
    end_line(out)
}

// `wK load PID COMM KIND`
fn append_kernel_load(
    alloc: Global,
    out: &mut Vec<u8>,
    worker: u32,
    kind: Kind,
    subject: &Subject,
) -> Result<(), AllocError>
    ensures { OnOk result (out.new.items ≡ out.old.items
        ++ asked_text (Asked.Hook 0 worker (Request.KernelLoad kind) subject.now None)) }
{
    append_task(alloc, out, worker, b"load", subject)?;
    append_word(out, kind_word(kind))?;
    end_line(out)
}

fn append_hook(
    alloc: Global,
    out: &mut Vec<u8>,
    worker: u32,
    request: Request,
    subject: &Subject,
    path: &Option<FilePath>,
) -> Result<(), AllocError>
    ensures { OnOk result (out.new.items ≡ out.old.items
        ++ asked_text (Asked.Hook 0 worker request subject.now path.now)) }
{
    match request {
        Request::ExecCheck => append_exec(alloc, out, worker, subject, path),
        Request::Mmap { prot } => append_mmap(alloc, out, worker, prot, subject, path),
        Request::Mprotect { was_exec, prot } => {
            append_mprotect(alloc, out, worker, was_exec, prot, subject, path)
        }
        Request::KernelRead(kind) => append_kernel_read(alloc, out, worker, kind, subject, path),
        Request::KernelLoad(kind) => append_kernel_load(alloc, out, worker, kind, subject),
    }
}

// `admin read NODE`
fn append_read(out: &mut Vec<u8>, node: &Bytes) -> Result<(), AllocError>
    ensures { OnOk result (out.new.items ≡ out.old.items ++ asked_text (Asked.Read 0 node.now)) }
{
    out.extend_from_slice(b"admin")?;
    append_word(out, b"read")?;
    append_word(out, node.as_slice())?;
    end_line(out)
}

pub fn append_asked(alloc: Global, out: &mut Vec<u8>, what: &PhaseLine) -> Result<(), AllocError>
    ensures { OnOk result (out.new.items ≡ out.old.items ++ asked_text what.now) }
{
    match what {
        PhaseLine::Write {
            may,
            node,
            content,
            ..
        } => append_write(alloc, out, *may, node, content),
        PhaseLine::Read { node, .. } => append_read(out, node),
        PhaseLine::Hook {
            worker,
            request,
            subject,
            path,
            ..
        } => append_hook(alloc, out, *worker, *request, subject, path),
    }
}
