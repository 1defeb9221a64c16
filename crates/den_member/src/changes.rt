//! What a change makes of the nodes.
ghost use Rattle.std.specs.Prelude.{◌≡◌};
ghost use Rattle.den_member.specs.Answers.{Comes, MakesChange};
ghost use Rattle.den_member.specs.Changes.{activated, added, change_applied, promoted_all, promoted_one, removed, removed_all, stated, status_or};
ghost use Rattle.den_member.specs.Status.{status_number};
ghost use Rattle.den_member.specs.declared.node_status.NodeStatus.TheVariants.{Active};

use crate::utils::{FOLLOWER, LEARNER};
use crate::{InnerState, MemberError, MembershipChange, MembershipError, NodeChange, NodeStatus};
use den_model::{Label, NodeMeta};

/// The status of a number, and another where it has none.
pub(crate) fn status_or(number: i32, other: NodeStatus) -> NodeStatus
    ensures { result ≡ status_or number other }
{
    NodeStatus::of(number).unwrap_or(other)
}

impl InnerState {
    /// Adds a node as a learner. A learner that is held stays as it is; `NodeAlreadyExists` comes exactly where another node
    /// is held under the id. On a refusal nothing changes.
    pub fn add_learner(
        &mut self,
        node_id: u32,
        address: Label,
        status: NodeStatus,
    ) -> Result<(), MemberError>
        ensures { MakesChange result self.old (added node_id address (status_number status) self.old) self.new }
    {
        if let Some(node) = self.nodes.get(&node_id) {
            if node.role == LEARNER {
                return Ok(());
            }
            return Err(MemberError::Membership(MembershipError::NodeAlreadyExists(node_id)));
        }
        let node = NodeMeta {
            id: node_id,
            address,
            role: LEARNER,
            status: status.number(),
        };
        self.nodes.insert(node_id, node)?;
        Ok(())
    }

    /// Removes a node, where it is held. The version rises in any case.
    pub fn remove_node(&mut self, node_id: u32)
        ensures { self.new ≡ removed node_id self.old }
    {
        self.nodes.remove(&node_id);
        self.cluster_conf_version = self.cluster_conf_version.saturating_add(1);
    }

    /// Removes nodes, those that are held. The version rises by one in any case.
    pub fn remove_nodes(&mut self, node_ids: &[u32])
        ensures { self.new ≡ removed_all node_ids.now self.old }
    {
        self.nodes.retain(|id, _| !node_ids.contains(id));
        self.cluster_conf_version = self.cluster_conf_version.saturating_add(1);
    }

    /// Gives a node its status. `NoMetadataFoundForNode` comes exactly where it is not held, and nothing changes then.
    pub fn update_node_status(
        &mut self,
        node_id: u32,
        status: NodeStatus,
    ) -> Result<(), MemberError>
        ensures { Comes result (stated node_id (status_number status) self.old) self.new }
    {
        self.update_node(node_id, |node| node.status = status.number())
    }

    /// Makes a node active, where it is held.
    pub fn activate_node(&mut self, node_id: u32)
        ensures { self.new ≡ activated node_id self.old }
    {
        // A node that is not held stays so.
        let _ = self.update_node_status(node_id, NodeStatus::Active);
    }

    /// Makes a node a follower of this status. `NoMetadataFoundForNode` comes exactly where it is not held, and nothing
    /// changes then.
    pub fn promote_node(&mut self, node_id: u32, status: NodeStatus) -> Result<(), MemberError>
        ensures { Comes result (promoted_one node_id (status_number status) self.old) self.new }
    {
        self.update_node(node_id, |node| {
            node.role = FOLLOWER;
            node.status = status.number();
        })
    }

    /// Makes nodes followers of this status, in their order. `NoMetadataFoundForNode` comes exactly where one is not held,
    /// with the first of these; those before it are followers then, and those behind it stay as they are.
    pub fn promote_nodes(&mut self, node_ids: &[u32], status: NodeStatus) -> Result<(), MemberError>
        ensures { Comes result (promoted_all node_ids.now (status_number status) self.old) self.new }
    {
        for node_id in node_ids {
            self.promote_node(*node_id, status)?;
        }
        Ok(())
    }

    /// Makes nodes followers of the status of this number, or active where it has none, as `promote_nodes` does.
    fn promote_batch(&mut self, node_ids: &[u32], new_status: i32) -> Result<(), MemberError>
        ensures { MakesChange result self.old (promoted_all node_ids.now (status_number (status_or new_status Active)) self.old) self.new }
    {
        self.promote_nodes(node_ids, status_or(new_status, NodeStatus::Active))
    }

    /// Carries a change out, as the log has it. On an `Err` nothing changes, but that a batch of promotions which meets a
    /// node that is not held has promoted those before it.
    pub fn apply_config_change(
        &mut self,
        membership_change: MembershipChange,
    ) -> Result<(), MemberError>
        ensures { MakesChange result self.old (change_applied membership_change.change self.old) self.new }
    {
        match membership_change.change {
            None => Ok(()),
            Some(
                NodeChange::AddNode {
                    node_id,
                    address,
                    status,
                },
            ) => self.add_learner(node_id, address, status_or(status, NodeStatus::Promotable)),
            Some(NodeChange::RemoveNode { node_id }) => {
                self.remove_node(node_id);
                Ok(())
            }
            Some(NodeChange::Promote { node_id }) => {
                self.promote_node(node_id, NodeStatus::Active)
            }
            Some(
                NodeChange::BatchPromote {
                    node_ids,
                    new_status,
                },
            ) => self.promote_batch(node_ids.as_slice(), new_status),
            Some(NodeChange::BatchRemove { node_ids }) => {
                self.remove_nodes(node_ids.as_slice());
                Ok(())
            }
        }
    }
}
