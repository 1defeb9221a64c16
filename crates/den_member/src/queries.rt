//! What is asked of the nodes.
ghost use Rattle.std.specs.Prelude.{◌≡◌, ℤ, Bool, IfOk, IfErr};
ghost use Rattle.den_member.specs.Numbered.{at};
ghost use Rattle.den_member.specs.Queries.{IsAddressAt, all_nodes, ids_that, membership_under, nodes_that, passes, rejoins, status_at};
ghost use Rattle.den_member.specs.declared.error.MemberError.TheVariants.{OutOfMemory};

use crate::inner::copy_node;
use crate::node_filter::NodeFilter;
use crate::utils::{address_str, is_learner};
use crate::{InnerState, MemberError, MembershipError, NodeStatus};
use den_model::{ClusterMembership, Label, NodeMeta, Rows};
use std::alloc::Global;

impl InnerState {
    /// The nodes that are asked for, in the order of their ids. It is refused for want of memory alone, as are all calls below
    /// that may be refused.
    pub(crate) fn nodes_that(
        &self,
        alloc: Global,
        filter: NodeFilter,
    ) -> Result<Rows<NodeMeta>, MemberError>
        ensures nodes { IfOk result (λ nodes. nodes ≡ nodes_that (passes filter) self.now) }
        ensures refused { IfErr result (λ e. e ≡ OutOfMemory) }
    {
        let mut nodes = Vec::new(alloc);
        for (id, node) in self.nodes.iter() {
            if filter.passes(*id, node) {
                nodes.push(copy_node(alloc, node)?)?;
            }
        }
        Ok(Rows::of(nodes))
    }

    /// All nodes, in the order of their ids.
    pub(crate) fn all_nodes(&self, alloc: Global) -> Result<Rows<NodeMeta>, MemberError>
        ensures nodes { IfOk result (λ nodes. nodes ≡ all_nodes self.now) }
        ensures refused { IfErr result (λ e. e ≡ OutOfMemory) }
    {
        self.nodes_that(alloc, NodeFilter::All)
    }

    /// The ids of the nodes whose role meets the condition, in their order.
    pub(crate) fn ids_of_roles<F: Fn(i32) -> bool>(
        &self,
        alloc: Global,
        condition: F,
    ) -> Result<Rows<u32>, MemberError>
        requires { F.IsAlwaysCallable condition }
        ensures ids { (meets : ℤ → Bool) → ((role : ℤ) (answer : Bool) → F.post condition role answer → answer ≡ meets role) → IfOk result (λ ids. ids ≡ ids_that (λ e. meets e.1.role) self.now) }
        ensures refused { IfErr result (λ e. e ≡ OutOfMemory) }
    {
        let mut ids = Vec::new(alloc);
        for (id, node) in self.nodes.iter() {
            if condition(node.role) {
                ids.push(*id)?;
            }
        }
        Ok(Rows::of(ids))
    }

    /// All nodes under a leader.
    pub(crate) fn membership_under(
        &self,
        alloc: Global,
        current_leader_id: Option<u32>,
    ) -> Result<ClusterMembership, MemberError>
        ensures members { IfOk result (λ members. members ≡ membership_under current_leader_id self.now) }
        ensures refused { IfErr result (λ e. e ≡ OutOfMemory) }
    {
        let nodes = self.all_nodes(alloc)?;
        Ok(ClusterMembership {
            version: self.cluster_conf_version,
            nodes,
            current_leader_id,
        })
    }

    /// A node, where it is held.
    pub(crate) fn node(&self, alloc: Global, node_id: u32) -> Result<Option<NodeMeta>, MemberError>
        ensures node { IfOk result (λ node. node ≡ at self.now.nodes node_id) }
        ensures refused { IfErr result (λ e. e ≡ OutOfMemory) }
    {
        match self.nodes.get(&node_id) {
            None => Ok(None),
            Some(node) => Ok(Some(copy_node(alloc, node)?)),
        }
    }

    /// The address at which a node is reached, where it is held.
    pub(crate) fn address(&self, alloc: Global, node_id: u32) -> Result<Option<Label>, MemberError>
        ensures address { IfOk result (IsAddressAt node_id self.now) }
        ensures refused { IfErr result (λ e. e ≡ OutOfMemory) }
    {
        match self.nodes.get(&node_id) {
            None => Ok(None),
            Some(node) => Ok(Some(address_str(alloc, node.address.as_str())?)),
        }
    }

    /// The status of a node, where it is held and has one.
    pub(crate) fn status(&self, node_id: u32) -> Option<NodeStatus>
        ensures { result ≡ status_at node_id self.now }
    {
        match self.nodes.get(&node_id) {
            None => None,
            Some(node) => NodeStatus::of(node.status),
        }
    }

    /// Whether a node of the role may join: `NotLearner` comes exactly where it is no learner, then `NodeAlreadyExists`
    /// exactly where it is held.
    pub(crate) fn can_rejoin(&self, node_id: u32, role: i32) -> Result<(), MemberError>
        ensures { result ≡ rejoins node_id role self.now }
    {
        if !is_learner(role) {
            return Err(MemberError::Membership(MembershipError::NotLearner));
        }
        if self.contains_node(node_id) {
            return Err(MemberError::Membership(MembershipError::NodeAlreadyExists(node_id)));
        }
        Ok(())
    }
}
