ghost use Rattle.std.specs.Prelude.{◌≡◌, IsTrue, IfOk};
ghost use Rattle.line_words.specs.Lines.{seen};
ghost use Rattle.ipe_requests.specs.declared.line.Shape.TheVariants as Shape;
ghost use Rattle.ipe_requests.specs.Table.{cells};
ghost use Rattle.ipe_requests.specs.Reading.{has_form, reads};

use crate::known::Known;
use crate::line::{Line, ScriptKind};
use crate::script::PhaseLine;
use crate::word::{bit, comm, kind, number_of_32_bits, old_file, old_file_or_dash, worker};
use ipe_policy::{Request, Subject};
use std::alloc::{AllocError, Global};

// `wK exec PID COMM PATH`
pub fn exec(
    alloc: Global,
    known: &Known,
    words: &[&[u8]],
) -> Result<Result<Line, ScriptKind>, AllocError>
    requires { IsTrue (has_form (cells Shape.Exec) (seen words.now)) }
    ensures { IfOk result (λ read. read ≡ reads known.now Shape.Exec (seen words.now)) }
{
    let [who, _, pid, task, path] = words else {
        return Ok(Err(ScriptKind::Form));
    };
    let worker = good!(worker(known, who));
    let pid = good!(number_of_32_bits(known, pid));
    let comm = good!(comm(known, task));
    let path = good!(old_file(alloc, known, path)?);
    Ok(Ok(Line::Asked(PhaseLine::Hook {
        line: known.count,
        worker,
        request: Request::ExecCheck,
        subject: Subject { pid, comm },
        path: Some(path),
    })))
}

// `wK mmap PID COMM PROT PATH`
pub fn mmap(
    alloc: Global,
    known: &Known,
    words: &[&[u8]],
) -> Result<Result<Line, ScriptKind>, AllocError>
    requires { IsTrue (has_form (cells Shape.Mmap) (seen words.now)) }
    ensures { IfOk result (λ read. read ≡ reads known.now Shape.Mmap (seen words.now)) }
{
    let [who, _, pid, task, prot, path] = words else {
        return Ok(Err(ScriptKind::Form));
    };
    let worker = good!(worker(known, who));
    let pid = good!(number_of_32_bits(known, pid));
    let comm = good!(comm(known, task));
    let prot = good!(number_of_32_bits(known, prot));
    let path = good!(old_file(alloc, known, path)?);
    Ok(Ok(Line::Asked(PhaseLine::Hook {
        line: known.count,
        worker,
        request: Request::Mmap { prot },
        subject: Subject { pid, comm },
        path: Some(path),
    })))
}

// `wK mprotect PID COMM WAS PROT PATH`
pub fn mprotect(
    alloc: Global,
    known: &Known,
    words: &[&[u8]],
) -> Result<Result<Line, ScriptKind>, AllocError>
    requires { IsTrue (has_form (cells Shape.Mprotect) (seen words.now)) }
    ensures { IfOk result (λ read. read ≡ reads known.now Shape.Mprotect (seen words.now)) }
{
    let [who, _, pid, task, was, prot, path] = words else {
        return Ok(Err(ScriptKind::Form));
    };
    let worker = good!(worker(known, who));
    let pid = good!(number_of_32_bits(known, pid));
    let comm = good!(comm(known, task));
    let was_exec = good!(bit(known, was));
    let prot = good!(number_of_32_bits(known, prot));
    let path = good!(old_file_or_dash(alloc, known, path)?);
    Ok(Ok(Line::Asked(PhaseLine::Hook {
        line: known.count,
        worker,
        request: Request::Mprotect { was_exec, prot },
        subject: Subject { pid, comm },
        path,
    })))
}

// `wK read PID COMM KIND PATH`
pub fn kernel_read(
    alloc: Global,
    known: &Known,
    words: &[&[u8]],
) -> Result<Result<Line, ScriptKind>, AllocError>
    requires { IsTrue (has_form (cells Shape.KernelRead) (seen words.now)) }
    ensures { IfOk result (λ read. read ≡ reads known.now Shape.KernelRead (seen words.now)) }
{
    let [who, _, pid, task, what, path] = words else {
        return Ok(Err(ScriptKind::Form));
    };
    let worker = good!(worker(known, who));
    let pid = good!(number_of_32_bits(known, pid));
    let comm = good!(comm(known, task));
    let kind = good!(kind(known, what));
    let path = good!(old_file(alloc, known, path)?);
    Ok(Ok(Line::Asked(PhaseLine::Hook {
        line: known.count,
        worker,
        request: Request::KernelRead(kind),
        subject: Subject { pid, comm },
        path: Some(path),
    })))
}

// `wK load PID COMM KIND`
pub fn kernel_load(known: &Known, words: &[&[u8]]) -> Result<Line, ScriptKind>
    requires { IsTrue (has_form (cells Shape.KernelLoad) (seen words.now)) }
    ensures { result ≡ reads known.now Shape.KernelLoad (seen words.now) }
{
    let [who, _, pid, task, what] = words else {
        return Err(ScriptKind::Form);
    };
    let worker = worker(known, who)?;
    let pid = number_of_32_bits(known, pid)?;
    let comm = comm(known, task)?;
    let kind = kind(known, what)?;
    Ok(Line::Asked(PhaseLine::Hook {
        line: known.count,
        worker,
        request: Request::KernelLoad(kind),
        subject: Subject { pid, comm },
        path: None,
    }))
}
