//! `examples` runs the program on each example of the folder that it is in, and prints whether it writes what stands beside
//! the example: a request file is replayed over the devices that stand beside it, and a policy is linted.
#![tactic(auto)]

use blk_device::FileDevices;
use ipe_program::{NoPace, run};
use ipe_words::{MemorySink, MemorySource, Status};
use std::fs::Files;
use std::process::ExitCode;
use std::sync::Wait;
use std::thread::Threads;
use std::{fs, io};

/// The most bytes that an example may write.
const MOST_WRITTEN: usize = 65_536;

fn main(rt: HostRuntime) -> io::Result<ExitCode> {
    let mut status = ExitCode::SUCCESS;
    for name in names(&rt)? {
        let verdict = match name.as_str().split_once('.') {
            Some((stem, "requests")) => check(&rt, "replay", name.as_str(), stem, "transcript")?,
            Some((stem, "policy")) => check(&rt, "lint", name.as_str(), stem, "lint")?,
            _ => continue,
        };
        if verdict {
            println!(rt; "as expected: {name}")?;
        } else {
            println!(rt; "DIFFERS: {name}")?;
            status = ExitCode::FAILURE;
        }
    }
    Ok(status)
}

// The names of the files of the folder, in order.
fn names(rt: &HostRuntime) -> io::Result<Vec<String>> {
    let mut names = Vec::new(rt.alloc());
    for entry in fs::read_dir(rt, ".")? {
        names.push(String::from_str(rt.alloc(), entry?.file_name())?)?;
    }
    names.sort()?;
    Ok(names)
}

// Whether the program ends with status 0 on the example, and writes what stands beside it.
fn check<R: Files + AllocGlobal + Threads + Wait + Sync>(
    rt: &R,
    word: &str,
    name: &str,
    stem: &str,
    kind: &str,
) -> io::Result<bool> {
    let alloc = rt.alloc();
    let input = fs::read_to_string(rt, name)?;
    let wanted = fs::read_to_string(rt, format!(in alloc; "{stem}.{kind}")?.as_str())?;
    let words = vec![in alloc; String::from_str(alloc, word)?]?;
    let mut source = MemorySource::new(input.into_bytes(), MOST_WRITTEN, Vec::new(alloc));
    let mut sink = MemorySink::new(alloc, MOST_WRITTEN, MOST_WRITTEN, Vec::new(alloc))?;
    let mut devices = FileDevices::new(rt);
    let status = run(
        rt,
        alloc,
        &words,
        &mut source,
        &mut sink,
        &mut devices,
        &NoPace,
        &mut None,
    );
    Ok(status == Status::Done && sink.written() == wanted.as_bytes())
}
