//! Changes that a leader asks for.
ghost use Rattle.std.specs.Prelude.{◌≡◌, option_copied};
ghost use Rattle.den_member.specs.Answers.{Answers, Comes, MakesChange};
ghost use Rattle.den_member.specs.Leading.{leader_answer, asked_change, led, members_after, promoted_learner, ready, readied, readied_one, turned_away};

use crate::changes::status_or;
use crate::utils::{FOLLOWER, LEARNER};
use crate::{
    ClusterConfChangeRequest, ClusterConfUpdateResponse, ConfOutcome, InnerState, MemberError,
    MembershipError, NodeChange, NodeStatus,
};
use den_model::{Label, NodeMeta};
use std::alloc::Global;

/// The change that a request asks for, if it asks for one.
pub(crate) fn asked_change(req: &ClusterConfChangeRequest) -> Option<&NodeChange>
    ensures { option_copied result ≡ asked_change req.now }
{
    match &req.change {
        None => None,
        Some(change) => change.change.as_ref(),
    }
}

/// Makes a node that may be promoted a follower of this status.
fn make_ready(node: &mut NodeMeta, status: i32)
    ensures { node.new ≡ ready status node.old }
{
    if node.status == NodeStatus::Promotable.number() {
        node.role = FOLLOWER;
        node.status = status;
    }
}

impl InnerState {
    /// Why a request changes nothing, before its change is looked at.
    fn turned_away(
        &self,
        my_current_term: u64,
        leader: u32,
        req: &ClusterConfChangeRequest,
    ) -> Option<ConfOutcome>
        ensures { result ≡ turned_away my_current_term leader req.now self.now }
    {
        if req.id != leader {
            return Some(ConfOutcome::NotLeader);
        }
        if req.term < my_current_term {
            return Some(ConfOutcome::HigherTerm);
        }
        if req.version < self.cluster_conf_version {
            return Some(ConfOutcome::VersionConflict);
        }
        None
    }

    /// Makes a learner a follower. `NoMetadataFoundForNode` comes exactly where it is not held, `InvalidPromotion` exactly
    /// where it is no learner, and nothing changes then.
    fn promote_learner(&mut self, node_id: u32) -> Result<(), MemberError>
        ensures { Comes result (promoted_learner node_id self.old) self.new }
    {
        let Some(node) = self.nodes.get(&node_id) else {
            return Err(MemberError::Membership(MembershipError::NoMetadataFoundForNode {
                node_id,
            }));
        };
        if node.role != LEARNER {
            return Err(MemberError::Membership(MembershipError::InvalidPromotion {
                node_id,
                role: node.role,
            }));
        }
        self.update_node(node_id, |node| node.role = FOLLOWER)
    }

    /// Makes a node a follower of this status, where it is held and may be promoted.
    fn promote_ready(&mut self, node_id: u32, status: i32)
        ensures { self.new ≡ readied_one node_id status self.old }
    {
        // A node that is not held stays so.
        let _ = self.update_node(node_id, |node| make_ready(node, status));
    }

    /// Makes those of the nodes that may be promoted followers of this status.
    fn promote_ready_nodes(&mut self, node_ids: &[u32], status: i32)
        ensures { self.new ≡ readied node_ids.now status self.old }
    {
        for node_id in node_ids {
            self.promote_ready(*node_id, status);
        }
    }

    /// Carries a leader's change out. On an `Err` nothing changes.
    fn lead(&mut self, alloc: Global, leader: u32, change: &NodeChange) -> Result<(), MemberError>
        ensures { MakesChange result self.old (led leader change.now self.old) self.new }
    {
        match change {
            NodeChange::AddNode {
                node_id,
                address,
                status,
            } => {
                let address = Label::of(alloc, address.as_str())?;
                self.add_learner(
                    *node_id,
                    address,
                    status_or(*status, NodeStatus::Promotable),
                )
            }
            NodeChange::RemoveNode { node_id } => {
                self.remove_node(*node_id);
                Ok(())
            }
            NodeChange::Promote { node_id } => self.promote_learner(*node_id),
            NodeChange::BatchPromote {
                node_ids,
                new_status,
            } => {
                self.promote_ready_nodes(node_ids.as_slice(), *new_status);
                Ok(())
            }
            NodeChange::BatchRemove { node_ids } => {
                if node_ids.as_slice().contains(&leader) {
                    return Err(MemberError::Membership(MembershipError::RemoveNodeIsLeader(
                        leader,
                    )));
                }
                self.remove_nodes(node_ids.as_slice());
                Ok(())
            }
        }
    }

    /// Carries out the change that a request asks for, where it comes from the leader, of this node's term or a later one,
    /// and at no lower version than the one that is held. The version is the request's then. Else nothing changes.
    pub fn update_cluster_conf_from_leader(
        &mut self,
        alloc: Global,
        my_id: u32,
        my_current_term: u64,
        current_conf_version: u64,
        current_leader_id: Option<u32>,
        req: &ClusterConfChangeRequest,
    ) -> Result<ClusterConfUpdateResponse, MemberError>
        ensures { Answers result self.old (leader_answer my_id my_current_term current_conf_version current_leader_id req.now self.old) (members_after my_current_term current_leader_id req.now self.old) self.new }
    {
        let leader = current_leader_id.ok_or(MembershipError::NoLeaderFound)?;
        let response = |version: u64, outcome: ConfOutcome| ClusterConfUpdateResponse {
            id: my_id,
            term: my_current_term,
            version,
            outcome,
        };
        if let Some(outcome) = self.turned_away(my_current_term, leader, req) {
            return Ok(response(current_conf_version, outcome));
        }
        let change = asked_change(req).ok_or(MembershipError::InvalidChangeRequest)?;
        self.lead(alloc, leader, change)?;
        self.cluster_conf_version = req.version;
        Ok(response(req.version, ConfOutcome::Success))
    }
}
