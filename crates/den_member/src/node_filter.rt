//! Which nodes are asked for.
ghost use Rattle.std.specs.Prelude.{◌≡◌};
ghost use Rattle.std.specs.Ordering.{int_eq};
ghost use Rattle.den_member.specs.Queries.{passes};
ghost use Rattle.den_member.specs.Status.{status_number};

use crate::NodeStatus;
use den_model::NodeMeta;

/// Which nodes are asked for: all, those that a node sends entries to, those whose votes it asks for, or those of a status.
#[derive(Clone, Copy)]
pub(crate) enum NodeFilter {
    All,
    Peers { of: u32 },
    Voters { of: u32 },
    Status(NodeStatus),
}

/// Whether the node has the status.
fn has_status(node: &NodeMeta, status: NodeStatus) -> bool
    ensures { result ≡ int_eq node.now.status (status_number status) }
{
    node.status == status.number()
}

impl NodeFilter {
    /// Whether a node is asked for, which stands under the id.
    pub(crate) fn passes(self, id: u32, node: &NodeMeta) -> bool
        ensures { result ≡ passes self (id, node.now) }
    {
        match self {
            NodeFilter::All => true,
            NodeFilter::Peers { of } => id != of && NodeStatus::of(node.status).is_some(),
            NodeFilter::Voters { of } => id != of && has_status(node, NodeStatus::Active),
            NodeFilter::Status(status) => has_status(node, status),
        }
    }
}
