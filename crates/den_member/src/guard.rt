//! The nodes of a cluster behind a lock.
ghost use Rattle.std.specs.Fn.{FnOnceReturnsAt, FnOnceReturnsAtMut};
ghost use Rattle.std.specs.Prelude.{◌≡◌, IfOk, IfErr};
ghost use Rattle.den_member.specs.Members.{Members};
ghost use Rattle.den_member.specs.declared.error.MemberError.TheVariants.{Membership, OutOfMemory};
ghost use Rattle.den_member.specs.declared.error.MembershipError.TheVariants.{NoMetadataFoundForNode};

use crate::{InnerState, MemberError};
use den_model::{NodeMeta, Rows};
use std::alloc::Global;
use std::sync::{RwLock, Wait};

/// The nodes of a cluster that threads share: any number read them at once, and one alone writes. Its calls but `new` may
/// wait for one another, so a closure that is passed to one makes no call of the same guard.
#[derive(Drop)]
pub struct MembershipGuard {
    state: RwLock<InnerState>,
}

/// What the closure makes of the nodes.
fn made_of<R, F: FnOnce(&InnerState) -> R>(f: F, state: &InnerState) -> R
    requires { F.IsAlwaysCallable f }
    ensures { FnOnceReturnsAt F.FnOnce f state.now result }
{
    f(state)
}

/// What the closure makes of the nodes, which it may change.
fn made_in<R, F: FnOnce(&mut InnerState) -> R>(f: F, state: &mut InnerState) -> R
    requires { F.IsAlwaysCallable f }
    ensures { FnOnceReturnsAtMut F.FnOnce f state.old result state.new }
{
    f(state)
}

impl MembershipGuard {
    /// These nodes, of equal ids the last. It is refused for want of memory alone.
    pub fn new(
        alloc: Global,
        initial_nodes: Rows<NodeMeta>,
        initial_version: u64,
    ) -> Result<MembershipGuard, MemberError>
        ensures { IfErr result (λ e. e ≡ OutOfMemory) }
    {
        let state = InnerState::new(alloc, initial_nodes, initial_version)?;
        Ok(MembershipGuard {
            state: RwLock::new(state),
        })
    }

    /// What the closure makes of the nodes.
    pub fn blocking_read<W: Wait, R, F: FnOnce(&InnerState) -> R>(&self, rt: &W, f: F) -> R
        requires { F.IsAlwaysCallable f }
        ensures { (members : Members) × FnOnceReturnsAt F.FnOnce f members result }
    {
        let state = self.state.read(rt);
        made_of(f, &state)
    }

    /// What the closure makes of the nodes, which it may change. What it changed stays, whatever it answers.
    pub fn blocking_write<W: Wait, R, F: FnOnce(&mut InnerState) -> R>(&self, rt: &W, f: F) -> R
        requires { F.IsAlwaysCallable f }
        ensures { (old new : Members) × FnOnceReturnsAtMut F.FnOnce f old result new }
    {
        let mut state = self.state.write(rt);
        made_in(f, &mut state)
    }

    /// Changes a node as the closure does. `NoMetadataFoundForNode` comes exactly where it is not held, and nothing changes
    /// then.
    pub fn update_node<W: Wait, F: FnOnce(&mut NodeMeta)>(
        &self,
        rt: &W,
        node_id: u32,
        f: F,
    ) -> Result<(), MemberError>
        requires { F.IsAlwaysCallable f }
        ensures { IfErr result (λ e. e ≡ Membership (NoMetadataFoundForNode node_id)) }
    {
        self.state.write(rt).update_node(node_id, f)
    }

    /// Whether the node is held.
    pub fn contains_node<W: Wait>(&self, rt: &W, node_id: u32) -> bool {
        self.state.read(rt).contains_node(node_id)
    }
}
