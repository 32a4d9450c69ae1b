ghost use Rattle.std.specs.Prelude.{◌≡◌, IfOk};
ghost use Rattle.ipe_policy.specs.Spelling.{version_text};
ghost use Rattle.ipe_machine.specs.Policies.{entry_named};
ghost use Rattle.ipe_nodes.specs.Nodes.{bytes_at, bytes_in, leaf_read, node_read};

use crate::node::{Leaf, Node};
use ipe_machine::Refusal;
use ipe_policy::{Name, Version, bit_text};
use ipe_registry::Registry;
use std::alloc::{AllocError, Global};

fn version_text(alloc: Global, version: Version) -> Result<Vec<u8>, AllocError>
    ensures { IfOk result (λ bytes. bytes.items ≡ version_text version) }
{
    Ok(version.to_string(alloc)?.into_bytes())
}

fn leaf_read(
    alloc: Global,
    registry: &Registry,
    name: &Name,
    leaf: Leaf,
) -> Result<Result<Vec<u8>, Refusal>, AllocError>
    ensures { IfOk result (λ answer. bytes_in answer
        ≡ leaf_read registry.now name.now (entry_named name.now registry.now.loaded) leaf) }
{
    let bytes = match (leaf, registry.entry(name)) {
        (Leaf::Update | Leaf::Delete, _) => return Ok(Err(Refusal::Direction)),
        (_, None) => return Ok(Err(Refusal::NoEntry)),
        (Leaf::Pkcs7 | Leaf::Policy, Some(entry)) => entry.text.as_slice().to_vec(alloc)?,
        (Leaf::Name, Some(entry)) => entry.name.as_slice().to_vec(alloc)?,
        (Leaf::Version, Some(entry)) => version_text(alloc, entry.version)?,
        (Leaf::Active, Some(_)) => bit_text(registry.is_active(name)).to_vec(alloc)?,
    };
    Ok(Ok(bytes))
}

fn bytes_at(
    alloc: Global,
    registry: &Registry,
    node: Node,
) -> Result<Result<Vec<u8>, Refusal>, AllocError>
    ensures { IfOk result (λ answer. bytes_in answer ≡ bytes_at registry.now node) }
{
    match node {
        Node::NewPolicy => Ok(Err(Refusal::Direction)),
        Node::Enforce => Ok(Ok(bit_text(registry.enforce()).to_vec(alloc)?)),
        Node::SuccessAudit => Ok(Ok(bit_text(registry.success()).to_vec(alloc)?)),
        Node::OfPolicy(name, leaf) => leaf_read(alloc, registry, &name, leaf),
    }
}

/// What a read of a path gives, without a line feed of its own. Reading needs no right. `NoEntry`: the path is no
/// node's, or the policy isn't loaded. `Direction`: the node isn't read.
pub fn read_registry(
    alloc: Global,
    registry: &Registry,
    path: &[u8],
) -> Result<Result<Vec<u8>, Refusal>, AllocError>
    ensures { IfOk result (λ answer. bytes_in answer ≡ node_read registry.now path.now) }
{
    match Node::read(path) {
        Some(node) => bytes_at(alloc, registry, node),
        None => Ok(Err(Refusal::NoEntry)),
    }
}
