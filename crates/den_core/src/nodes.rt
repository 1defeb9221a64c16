//! The configured nodes, copied.
ghost use Rattle.std.specs.Prelude.{◌≡◌, IfOk};

use den_codec::{Label, NodeMeta, Rows};
use std::alloc::{AllocError, Global};

/// The same node.
pub fn copy_node(alloc: Global, node: &NodeMeta) -> Result<NodeMeta, AllocError>
    ensures { IfOk result (λ copy. copy ≡ node.now) }
{
    let address = Label::of(alloc, node.address.as_str())?;
    Ok(NodeMeta {
        id: node.id,
        address,
        role: node.role,
        status: node.status,
    })
}

/// The same nodes.
pub fn copy_nodes(alloc: Global, nodes: &[NodeMeta]) -> Result<Rows<NodeMeta>, AllocError>
    ensures { IfOk result (λ copies. copies ≡ nodes.now) }
{
    let mut copies = Vec::new(alloc);
    for node in nodes {
        copies.push(copy_node(alloc, node)?)?;
    }
    Ok(Rows::of(copies))
}
