ghost use Rattle.std.specs.Prelude.{◌≡◌};
ghost use Rattle.ipe_policy.specs.Request.{evaluated_op, hook_of, is_exec, kind_op};

use crate::{Comm, DevName, Op, PathName};

/// A kind of file that the kernel reads or loads for itself.
#[derive(Clone, Copy, Debug, PartialEq, Eq)]
pub enum Kind {
    Firmware,
    Module,
    KexecImage,
    KexecInitramfs,
    Policy,
    X509,
}

/// The hook of the kernel that a request comes by.
#[derive(Clone, Copy, Debug, PartialEq, Eq)]
pub enum Hook {
    BprmCheck,
    Mmap,
    Mprotect,
    KernelRead,
    KernelLoad,
}

/// What is asked of the gate. `prot` has the bits of `mmap`'s argument, of which `PROT_EXEC` is the one of value 4.
#[derive(Clone, Copy, Debug, PartialEq, Eq)]
pub enum Request {
    ExecCheck,
    Mmap { prot: u32 },
    Mprotect { was_exec: bool, prot: u32 },
    KernelRead(Kind),
    KernelLoad(Kind),
}

impl Kind {
    fn op(self) -> Op
        ensures { result ≡ kind_op self }
    {
        match self {
            Kind::Firmware => Op::Firmware,
            Kind::Module => Op::Kmodule,
            Kind::KexecImage => Op::KexecImage,
            Kind::KexecInitramfs => Op::KexecInitramfs,
            Kind::Policy => Op::Policy,
            Kind::X509 => Op::X509Cert,
        }
    }
}

fn is_exec(prot: u32) -> bool
    ensures { result ≡ is_exec prot }
{
    (prot / 4) % 2 == 1
}

impl Request {
    /// The operation as which the request is evaluated. A mapping or `mprotect` that makes nothing executable isn't.
    pub fn op(&self) -> Option<Op>
        ensures { result ≡ evaluated_op self.now }
    {
        match self {
            Request::ExecCheck => Some(Op::Execute),
            Request::Mmap { prot } => is_exec(*prot).then_some(Op::Execute),
            Request::Mprotect { was_exec, prot } => {
                (!*was_exec && is_exec(*prot)).then_some(Op::Execute)
            }
            Request::KernelRead(kind) | Request::KernelLoad(kind) => Some(kind.op()),
        }
    }

    /// The hook by which the request comes.
    pub fn hook(&self) -> Hook
        ensures { result ≡ hook_of self.now }
    {
        match self {
            Request::ExecCheck => Hook::BprmCheck,
            Request::Mmap { .. } => Hook::Mmap,
            Request::Mprotect { .. } => Hook::Mprotect,
            Request::KernelRead(_) => Hook::KernelRead,
            Request::KernelLoad(_) => Hook::KernelLoad,
        }
    }
}

/// The task that asks.
#[derive(Debug, Drop)]
pub struct Subject {
    pub pid: u32,
    pub comm: Comm,
}

/// The file that is asked about.
#[derive(Debug, Drop)]
pub enum Object {
    NoFile,
    File {
        path: PathName,
        dev: DevName,
        ino: u64,
    },
}
