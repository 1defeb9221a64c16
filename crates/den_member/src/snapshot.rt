//! What receivers are told of the members.
ghost use Rattle.std.specs.Prelude.{◌≡◌, IfOk, IfErr};
ghost use Rattle.den_member.specs.Queries.{ids_that};
ghost use Rattle.den_member.specs.Snapshots.{learns, snapshot_of};
ghost use Rattle.den_member.specs.declared.error.MemberError.TheVariants.{OutOfMemory};

use crate::utils::is_learner;
use crate::{InnerState, MemberError};
use den_model::NodeMeta;
use std::alloc::{AllocError, Global};
use std::collections::BTreeSet;

/// The ids of the members and of the learners, behind the change that the log has at an index.
#[derive(Debug, Drop, PartialEq, Eq)]
pub struct MembershipSnapshot {
    /// The nodes of every role but that of a learner.
    pub members: BTreeSet<u32>,
    pub learners: BTreeSet<u32>,
    /// The index of the change that was applied last.
    pub committed_index: u64,
}

/// The same ids.
fn copy_ids(alloc: Global, ids: &BTreeSet<u32>) -> Result<BTreeSet<u32>, AllocError>
    ensures { IfOk result (λ copy. copy ≡ ids.now) }
{
    let mut copy = BTreeSet::new(alloc);
    for id in ids.iter() {
        copy.insert(*id)?;
    }
    Ok(copy)
}

/// Whether a node is a learner; or whether it is none, where that is asked.
fn learns(learner: bool, node: &NodeMeta) -> bool
    ensures { result ≡ learns learner (node.now.id, node.now) }
{
    is_learner(node.role) == learner
}

impl MembershipSnapshot {
    /// An equal value.
    pub fn copy(&self, alloc: Global) -> Result<MembershipSnapshot, AllocError>
        ensures { IfOk result (λ copy. copy ≡ self.now) }
    {
        Ok(MembershipSnapshot {
            members: copy_ids(alloc, &self.members)?,
            learners: copy_ids(alloc, &self.learners)?,
            committed_index: self.committed_index,
        })
    }
}

impl InnerState {
    /// The ids of the learners, or of the nodes that are none. It is refused for want of memory alone, as is the call below.
    fn ids_by_learning(&self, alloc: Global, learner: bool) -> Result<BTreeSet<u32>, MemberError>
        ensures ids { IfOk result (λ ids. ids.keys ≡ ids_that (learns learner) self.now) }
        ensures refused { IfErr result (λ e. e ≡ OutOfMemory) }
    {
        let mut ids = BTreeSet::new(alloc);
        for (id, node) in self.nodes.iter() {
            if learns(learner, node) {
                ids.insert(*id)?;
            }
        }
        Ok(ids)
    }

    /// Who is a member and who learns, behind the change of this index.
    pub(crate) fn snapshot(
        &self,
        alloc: Global,
        index: u64,
    ) -> Result<MembershipSnapshot, MemberError>
        ensures snapshot { IfOk result (λ s. s ≡ snapshot_of self.now index) }
        ensures refused { IfErr result (λ e. e ≡ OutOfMemory) }
    {
        Ok(MembershipSnapshot {
            members: self.ids_by_learning(alloc, false)?,
            learners: self.ids_by_learning(alloc, true)?,
            committed_index: index,
        })
    }
}
