//! The nodes of a cluster.
ghost use Rattle.std.specs.Prelude.{◌≡◌, None, Ok, Err, IfSome, IfOk, IfErr, is_some};
ghost use Rattle.std.specs.Fn.{FnOnceReturnsAtMut};
ghost use Rattle.den_model.specs.declared.reply.NodeMeta.{NodeMeta};
ghost use Rattle.den_member.specs.Answers.{Comes};
ghost use Rattle.den_member.specs.Changes.{changed_one};
ghost use Rattle.den_member.specs.Members.{changed, is_id, of_nodes};
ghost use Rattle.den_member.specs.Numbered.{at, is_held};
ghost use Rattle.den_member.specs.declared.error.MemberError.TheVariants.{Membership, OutOfMemory};
ghost use Rattle.den_member.specs.declared.error.MembershipError.TheVariants.{NoMetadataFoundForNode};

use crate::{MemberError, MembershipError};
use den_model::{Label, NodeMeta, Rows};
use std::alloc::{AllocError, Global};
use std::collections::BTreeMap;
use std::marker::Model;

/// The nodes under their ids, and the number of the change that made them so.
#[derive(Drop)]
pub struct InnerState {
    pub nodes: BTreeMap<u32, NodeMeta>,
    pub cluster_conf_version: u64,
}

impl Model for InnerState {
    ghost use Rattle.den_member.specs.Members.{Members};

    ghost Value = { Members };

    ghost view = { λ s. record { nodes = s.nodes.entries; version = s.cluster_conf_version } };
}

/// The same node.
pub(crate) fn copy_node(alloc: Global, node: &NodeMeta) -> Result<NodeMeta, AllocError>
    ensures { IfOk result (λ copy. copy ≡ node.now) }
{
    let address = Label::of(alloc, node.address.as_str())?;
    Ok(NodeMeta {
        id: node.id,
        address,
        role: node.role,
        status: node.status,
    })
}

impl InnerState {
    /// These nodes, of equal ids the last. It is refused for want of memory alone.
    pub fn new(
        alloc: Global,
        initial_nodes: Rows<NodeMeta>,
        initial_version: u64,
    ) -> Result<InnerState, MemberError>
        ensures nodes { IfOk result (λ state. state ≡ of_nodes initial_nodes initial_version) }
        ensures refused { IfErr result (λ e. e ≡ OutOfMemory) }
    {
        let mut nodes = BTreeMap::new(alloc);
        for node in initial_nodes.into_items() {
            nodes.insert(node.id, node)?;
        }
        Ok(InnerState {
            nodes,
            cluster_conf_version: initial_version,
        })
    }

    /// An equal value.
    pub fn copy(&self, alloc: Global) -> Result<InnerState, AllocError>
        ensures { IfOk result (λ copy. copy ≡ self.now) }
    {
        let mut nodes = BTreeMap::new(alloc);
        for (id, node) in self.nodes.iter() {
            nodes.insert(*id, copy_node(alloc, node)?)?;
        }
        Ok(InnerState {
            nodes,
            cluster_conf_version: self.cluster_conf_version,
        })
    }

    /// Whether the node is held.
    pub fn contains_node(&self, node_id: u32) -> bool
        ensures { result ≡ is_held self.now.nodes node_id }
    {
        self.nodes.contains_key(&node_id)
    }

    /// Changes a node as the closure does. `NoMetadataFoundForNode` comes exactly where it is not held, and nothing changes
    /// then.
    pub fn update_node<F: FnOnce(&mut NodeMeta)>(
        &mut self,
        node_id: u32,
        f: F,
    ) -> Result<(), MemberError>
        requires { F.IsAlwaysCallable f }
        ensures missing { at self.old.nodes node_id ≡ None → (result ≡ Err (Membership (NoMetadataFoundForNode node_id))) × (self.new ≡ self.old) }
        ensures held { IfSome (at self.old.nodes node_id) (λ node. (result ≡ Ok tt) × ((after : NodeMeta) × FnOnceReturnsAtMut F.FnOnce f node tt after × (self.new ≡ changed (is_id node_id) (λ _. after) self.old))) }
        ensures made { (g : NodeMeta → NodeMeta) → ((node after : NodeMeta) → FnOnceReturnsAtMut F.FnOnce f node tt after → after ≡ g node) → Comes result (changed_one node_id g self.old) self.new }
    {
        let Some(node) = self.nodes.get_mut(&node_id) else {
            return Err(MemberError::Membership(MembershipError::NoMetadataFoundForNode {
                node_id,
            }));
        };
        f(node);
        Ok(())
    }
}
