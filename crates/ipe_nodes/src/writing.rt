ghost use Rattle.std.specs.Prelude.{◌≡◌, IfOk};
ghost use Rattle.ipe_nodes.specs.Nodes.{leaf_act, node_act, node_write};

use crate::node::{Leaf, Node};
use ipe_machine::{Act, Command, Refusal, Text, Value};
use ipe_policy::Name;
use std::alloc::{AllocError, Global};

fn leaf_act(
    alloc: Global,
    name: Name,
    leaf: Leaf,
    bytes: &[u8],
) -> Result<Result<Act, Refusal>, AllocError>
    ensures { IfOk result (λ answer. answer ≡ leaf_act name leaf bytes.now) }
{
    match leaf {
        Leaf::Pkcs7 | Leaf::Policy | Leaf::Name | Leaf::Version => Ok(Err(Refusal::Direction)),
        Leaf::Active => Ok(Ok(Act::Activate(name, Value::read(bytes)))),
        Leaf::Update => Ok(Ok(Act::Update(name, Text::from_vec(bytes.to_vec(alloc)?)))),
        Leaf::Delete => Ok(Ok(Act::Delete(name, Value::read(bytes)))),
    }
}

fn node_act(alloc: Global, node: Node, bytes: &[u8]) -> Result<Result<Act, Refusal>, AllocError>
    ensures { IfOk result (λ answer. answer ≡ node_act node bytes.now) }
{
    match node {
        Node::NewPolicy => Ok(Ok(Act::Load(Text::from_vec(bytes.to_vec(alloc)?)))),
        Node::Enforce => Ok(Ok(Act::Enforce(Value::read(bytes)))),
        Node::SuccessAudit => Ok(Ok(Act::SuccessAudit(Value::read(bytes)))),
        Node::OfPolicy(name, leaf) => leaf_act(alloc, name, leaf, bytes),
    }
}

/// What a write of these bytes to a path asks for, by one who has the right to administer or has it not. `NoEntry`: the
/// path is no node's. `Direction`: the node isn't written. The right is examined only where the command is carried out.
pub fn command_of(
    alloc: Global,
    path: &[u8],
    bytes: &[u8],
    may: bool,
) -> Result<Result<Command, Refusal>, AllocError>
    ensures { IfOk result (λ answer. answer ≡ node_write path.now bytes.now may) }
{
    let Some(node) = Node::read(path) else {
        return Ok(Err(Refusal::NoEntry));
    };
    match node_act(alloc, node, bytes)? {
        Ok(act) => Ok(Ok(Command { may, act })),
        Err(refusal) => Ok(Err(refusal)),
    }
}
