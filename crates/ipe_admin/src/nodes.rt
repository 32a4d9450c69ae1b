// The files of securityfs, on a running gate.
ghost use Rattle.std.specs.Prelude.{◌≡◌, ◌<◌, ◌^◌, IfOk, OnErr};
ghost use Rattle.ipe_nodes.specs.Nodes.{bytes_in, node_read, node_write};
ghost use Rattle.ipe_admin.specs.Outcomes.{IsOutcome, policies_in};

use crate::{Admin, Outcome};
use ipe_audit::Lines;
use ipe_machine::Refusal;
use ipe_nodes::{command_of, read_registry};
use ipe_signer::Signer;
use std::alloc::{AllocError, Global};

/// A write of these bytes to a path, by one who has the right to administer or has it not. A path that is no node's is
/// answered NoEntry, and a node that isn't written Direction, without a step. After out of memory nothing is changed.
pub fn write_node<S: Signer>(
    alloc: Global,
    signer: &S,
    admin: &mut Admin,
    path: &[u8],
    bytes: &[u8],
    may: bool,
) -> Result<Outcome, AllocError>
    requires { (policies_in admin.old).next < 2 ^ 63 }
    ensures ok { IfOk result
        (IsOutcome (S.verdict_of signer.now) (node_write path.now bytes.now may) admin.old admin.new) }
    ensures err { OnErr result (admin.new ≡ admin.old) }
{
    match command_of(alloc, path, bytes, may)? {
        Ok(command) => admin.command(alloc, signer, &command),
        Err(refusal) => Ok(admin.outcome(Err(refusal), Lines::from_vec(Vec::new(alloc)))),
    }
}

/// What a read of a path gives, without a line feed of its own. Reading needs no right. `NoEntry`: the path is no
/// node's, or the policy isn't loaded. `Direction`: the node isn't read.
pub fn read_node(
    alloc: Global,
    admin: &Admin,
    path: &[u8],
) -> Result<Result<Vec<u8>, Refusal>, AllocError>
    ensures { IfOk result (λ answer. bytes_in answer ≡ node_read (policies_in admin.now) path.now) }
{
    read_registry(alloc, admin.registry(), path)
}
