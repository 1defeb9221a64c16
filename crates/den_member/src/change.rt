//! Changes of the membership, and what a leader's request for one is answered.
use den_model::{Label, Rows};

/// A change of the membership. A status is a number of `NodeStatus`.
#[derive(Debug, Drop, PartialEq, Eq)]
pub enum NodeChange {
    /// A learner joins.
    AddNode {
        node_id: u32,
        address: Label,
        status: i32,
    },
    RemoveNode {
        node_id: u32,
    },
    /// A node comes to follow.
    Promote {
        node_id: u32,
    },
    /// Nodes come to follow, and get this status.
    BatchPromote {
        node_ids: Rows<u32>,
        new_status: i32,
    },
    BatchRemove {
        node_ids: Rows<u32>,
    },
}

/// A change of the membership, or none.
#[derive(Debug, Drop, PartialEq, Eq)]
pub struct MembershipChange {
    pub change: Option<NodeChange>,
}

/// A change that a node asks for, as the leader of its term. The version is the number that the change gets.
#[derive(Debug, Drop, PartialEq, Eq)]
pub struct ClusterConfChangeRequest {
    pub id: u32,
    pub term: u64,
    pub version: u64,
    pub change: Option<MembershipChange>,
}

/// What became of a change that was asked for.
#[derive(Clone, Copy, Debug, PartialEq, Eq)]
pub enum ConfOutcome {
    Success,
    /// The node that asked does not lead.
    NotLeader,
    /// This node is in a higher term.
    HigherTerm,
    /// This node holds a later version.
    VersionConflict,
}

/// The answer to a request for a change: the node that answers, its term, and the version that it holds.
#[derive(Clone, Copy, Debug, PartialEq, Eq)]
pub struct ClusterConfUpdateResponse {
    pub id: u32,
    pub term: u64,
    pub version: u64,
    pub outcome: ConfOutcome,
}
