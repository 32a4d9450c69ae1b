ghost use Rattle.std.specs.Prelude.{◌≡◌, ◌<◌, ◌≤◌, ◌+◌, ◌*◌, ◌/◌, ◌%◌, ◌++◌, ℕ, IfOk, OnOk};
ghost use Rattle.ipe_sim.specs.Draws.{next, state_after, upper};
ghost use Rattle.ipe_sim.specs.Roll.{asks, command, command_at, draws_before, each, file, file_path, hook, hook_at, kind, named, node, phase, phase_line, policy_node, written};

use crate::declared::text_id;
use crate::generator::Generator;
use ipe_policy::{Comm, Kind, Request, Subject};
use ipe_requests::{FileLine, FilePath, Phase, PhaseLine, WriteContent};
use line_words::{Bytes, Items};
use std::alloc::{AllocError, Global};

const COMMANDS: u32 = 30;

const HOOKS: u32 = 8000;

const HOOKS_OF_A_WORKER: u32 = 1000;

fn bytes(alloc: Global, text: &str) -> Result<Bytes, AllocError>
    ensures { IfOk result (λ bytes. bytes ≡ text.now) }
{
    Ok(Items::from_vec(text.as_bytes().to_vec(alloc)?))
}

// A node of the policy of a text.
fn policy_node(alloc: Global, number: u32, node: &str) -> Result<Bytes, AllocError>
    ensures { IfOk result (λ bytes. bytes ≡ policy_node number node.now) }
{
    let name = number % 4;
    Ok(Items::from_vec(format!(in alloc; "policies/p{name}{node}")?.into_bytes()))
}

fn node(alloc: Global, kind: u64, number: u32) -> Result<Bytes, AllocError>
    ensures { IfOk result (λ bytes. bytes ≡ node kind number) }
{
    match kind {
        0 => bytes(alloc, "new_policy"),
        1 => policy_node(alloc, number, "/update"),
        2 => policy_node(alloc, number, "/active"),
        3 => policy_node(alloc, number, "/delete"),
        4 => bytes(alloc, "enforce"),
        _ => bytes(alloc, "success_audit"),
    }
}

fn written(alloc: Global, kind: u64, number: u32) -> Result<WriteContent, AllocError>
    requires { number < 16 }
    ensures { IfOk result (λ content. content ≡ written kind number) }
{
    match kind {
        0 | 1 => Ok(WriteContent::Text(text_id(alloc, number)?)),
        2 | 3 => Ok(WriteContent::Echo(bytes(alloc, "1")?)),
        _ => Ok(WriteContent::Echo(bytes(alloc, (number % 2).to_string(alloc)?.as_str())?)),
    }
}

fn command(alloc: Global, line: u32, kind: u64, number: u32) -> Result<PhaseLine, AllocError>
    requires { number < 16 }
    ensures { IfOk result (λ asked. asked ≡ command line kind number) }
{
    Ok(PhaseLine::Write {
        line,
        may: true,
        node: node(alloc, kind, number)?,
        content: written(alloc, kind, number)?,
    })
}

fn kind(number: u64) -> Kind
    ensures { result ≡ kind number }
{
    match number {
        0 => Kind::Firmware,
        1 => Kind::Module,
        2 => Kind::KexecImage,
        3 => Kind::KexecInitramfs,
        4 => Kind::Policy,
        _ => Kind::X509,
    }
}

fn asks(what: u64, of: u64) -> Request
    ensures { result ≡ asks what of }
{
    match what {
        0 => Request::ExecCheck,
        1 => Request::Mmap {
            prot: if of % 2 == 0 { 5 } else { 1 },
        },
        2 => Request::Mprotect {
            was_exec: false,
            prot: 4,
        },
        3 => Request::KernelRead(kind(of)),
        _ => Request::KernelLoad(kind(of)),
    }
}

// The path of a file: its own, of which a hook takes no copy.
fn path_at(files: &[FileLine], place: u64) -> Result<FilePath, AllocError>
    requires files { files.now ≡ each 8 file }
    requires place { place < 8 }
    ensures { IfOk result (λ path. path ≡ file_path place) }
{
    files[place as usize].path.share()
}

// The path that a hook names.
fn named(files: &[FileLine], what: u64, place: u64) -> Result<Option<FilePath>, AllocError>
    requires files { files.now ≡ each 8 file }
    requires place { place < 8 }
    ensures { IfOk result (λ path. path ≡ named what place) }
{
    match what {
        2 | 4 => Ok(None),
        _ => Ok(Some(path_at(files, place)?)),
    }
}

fn hook(
    files: &[FileLine],
    line: u32,
    worker: u32,
    what: u64,
    place: u64,
    of: u64,
) -> Result<PhaseLine, AllocError>
    requires files { files.now ≡ each 8 file }
    requires place { place < 8 }
    requires worker { worker ≤ 8 }
    ensures { IfOk result (λ asked. asked ≡ hook line worker what place of) }
{
    Ok(PhaseLine::Hook {
        line,
        worker,
        request: asks(what, of),
        subject: Subject {
            pid: 1000 + worker,
            comm: Comm::read(b"sim").unwrap(),
        },
        path: named(files, what, place)?,
    })
}

// The next command of a phase.
fn next_command(
    alloc: Global,
    generator: &mut Generator,
    line: u32,
) -> Result<PhaseLine, AllocError>
    ensures asked { IfOk result (λ asked.
        asked ≡ command line (upper (next generator.old.state) % 6) (upper (next (next generator.old.state)) % 16)) }
    ensures state { generator.new.state ≡ next (next generator.old.state) }
{
    let what = generator.below(6);
    let number = generator.below(16) as u32;
    command(alloc, line, what, number)
}

// The next hook of a phase.
fn next_hook(
    files: &[FileLine],
    generator: &mut Generator,
    line: u32,
    worker: u32,
) -> Result<PhaseLine, AllocError>
    requires files { files.now ≡ each 8 file }
    requires worker { worker ≤ 8 }
    ensures asked { IfOk result (λ asked.
        asked ≡ hook line worker (upper (next generator.old.state) % 5)
        (upper (next (next generator.old.state)) % 8) (upper (next (next (next generator.old.state))) % 6)) }
    ensures state { generator.new.state ≡ next (next (next generator.old.state)) }
{
    let what = generator.below(5);
    let place = generator.below(8);
    let of = generator.below(6);
    hook(files, line, worker, what, place, of)
}

// The commands of a phase that begins at this line.
fn commands(
    alloc: Global,
    generator: &mut Generator,
    begins: u32,
) -> Result<Vec<PhaseLine>, AllocError>
    requires { begins ≤ 100000 }
    ensures { (seed p : ℕ) → begins ≡ phase_line p → generator.old.state ≡ state_after seed (draws_before p) →
        IfOk result (λ lines. (lines.items ≡ each 30 (command_at seed p)) ×
        (generator.new.state ≡ state_after seed (draws_before p + 60))) }
{
    let mut lines = Vec::new(alloc);
    for place in 0..COMMANDS {
        lines.push(next_command(alloc, generator, begins + 1 + place)?)?;
    }
    Ok(lines)
}

// Appends the hooks of a phase that begins at this line.
fn append_hooks(
    lines: &mut Vec<PhaseLine>,
    files: &[FileLine],
    generator: &mut Generator,
    begins: u32,
) -> Result<(), AllocError>
    requires files { files.now ≡ each 8 file }
    requires begins { begins ≤ 100000 }
    ensures { (seed p : ℕ) → begins ≡ phase_line p → generator.old.state ≡ state_after seed (draws_before p + 60) →
        OnOk result ((lines.new.items ≡ lines.old.items ++ each 8000 (hook_at seed p)) ×
        (generator.new.state ≡ state_after seed (draws_before (p + 1)))) }
{
    for place in 0..HOOKS {
        let worker = place / HOOKS_OF_A_WORKER + 1;
        lines.push(next_hook(files, generator, begins + 31 + place, worker)?)?;
    }
    Ok(())
}

/// The next phase, which begins at this line.
pub fn next_phase(
    alloc: Global,
    files: &[FileLine],
    generator: &mut Generator,
    begins: u32,
) -> Result<Phase, AllocError>
    requires files { files.now ≡ each 8 file }
    requires begins { begins ≤ 100000 }
    ensures { (seed p : ℕ) → begins ≡ phase_line p → generator.old.state ≡ state_after seed (draws_before p) →
        IfOk result (λ made. (made ≡ phase seed p) ×
        (generator.new.state ≡ state_after seed (draws_before (p + 1)))) }
{
    let mut lines = commands(alloc, generator, begins)?;
    append_hooks(&mut lines, files, generator, begins)?;
    Ok(Phase {
        line: begins,
        lines: Items::from_vec(lines),
    })
}
