//! An engine with its disk and its clock.
ghost use Rattle.std.specs.Prelude.{◌≡◌, ◌↔◌, ◌+◌, IsTrue, OnOk, IfOk, IfErr, length};
ghost use Rattle.den_codec.specs.declared.error.Error.TheVariants.{OutOfMemory};
ghost use Rattle.den_disk.specs.Goes.{ClockGoesOn, LinkGoesOn};
ghost use Rattle.den_core.specs.Making.{CanGoOn};
ghost use Rattle.den_node.specs.Running.{RunsToEnd, SendsFront, ServesLink, SurvivesRun};
ghost use Rattle.den_node.specs.declared.error.NodeError.TheVariants.{Engine as engine_error};

use crate::{LeaderNotifier, NodeError};
use den_codec::{Error, LeaderInfo, NodeMeta, RaftNodeConfig, Rows};
use den_core::{Core, Engine, Stepper, copy_node, serve};
use den_disk::{Clock, Disk, Link};
use den_member::{LatestReceiver, MembershipSnapshot, RaftMembership};
use den_state::StateMachine;
use den_store::{LogStore, MetaStore};
use std::alloc::{AllocError, Global};
use std::fmt;
use std::fmt::{Debug, Formatter, Write};
use std::sync::Wait;

/// An engine that was opened over stores, with its disk and its clock.
#[derive(Drop)]
pub struct Node<D, G, T, M, K, C> {
    pub(crate) engine: Engine<G, T, M, K>,
    pub(crate) disk: D,
    pub(crate) clock: C,
    pub(crate) node_id: u32,
    /// The longest body of a frame.
    pub(crate) limit: u32,
    pub(crate) told: Told,
    pub(crate) alloc: Global,
}

/// The parts of a node.
#[derive(Drop)]
pub struct NodeParts<D, G, T, M, K, C> {
    pub engine: Engine<G, T, M, K>,
    pub disk: D,
    pub clock: C,
    pub node_id: u32,
    pub told: Told,
}

/// Who is told of the leader and of the members. No channel is made to any.
#[derive(Drop)]
pub struct Told {
    leader: LeaderNotifier,
    membership: RaftMembership<u32>,
}

/// The same nodes.
fn copy_nodes(alloc: Global, nodes: &[NodeMeta]) -> Result<Rows<NodeMeta>, AllocError>
    ensures { IfOk result (λ copies. copies ≡ nodes.now) }
{
    let mut copies = Vec::new(alloc);
    for node in nodes {
        copies.push(copy_node(alloc, node)?)?;
    }
    Ok(Rows::of(copies))
}

impl Told {
    /// Of this leader, and the members of a configuration. It is refused for want of memory alone.
    pub(crate) fn of(
        alloc: Global,
        leader: Option<LeaderInfo>,
        config: &RaftNodeConfig,
    ) -> Result<Told, Error>
        ensures { IfErr result (λ e. e ≡ OutOfMemory) }
    {
        let cluster = &config.cluster;
        let nodes = copy_nodes(alloc, cluster.initial_cluster.as_slice())?;
        let leader = LeaderNotifier::of(alloc, leader)?;
        match RaftMembership::new(alloc, cluster.node_id, nodes, config) {
            Ok(membership) => Ok(Told { leader, membership }),
            Err(_) => Err(Error::OutOfMemory),
        }
    }

    /// A receiver of who leads, which finds the present leader. It may wait, and is refused for want of memory alone.
    pub fn leader_change_notifier<W: Wait>(
        &self,
        rt: &W,
    ) -> Result<LatestReceiver<Option<LeaderInfo>>, NodeError>
        ensures { IfErr result (λ e. e ≡ engine_error OutOfMemory) }
    {
        self.leader.subscribe(rt)
    }

    /// A receiver of the members, which finds those of the configuration. It may wait, and is refused for want of memory
    /// alone.
    pub fn membership_change_notifier<W: Wait>(
        &self,
        rt: &W,
    ) -> Result<LatestReceiver<MembershipSnapshot>, NodeError>
        ensures { IfErr result (λ e. e ≡ engine_error OutOfMemory) }
    {
        match self.membership.subscribe_membership(rt) {
            Ok(receiver) => Ok(receiver),
            Err(_) => Err(NodeError::Engine(Error::OutOfMemory)),
        }
    }
}

impl<D, G, T, M, K, C> Node<D, G, T, M, K, C> {
    /// This node's id.
    pub fn node_id(&self) -> u32
        ensures { result ≡ self.now.node_id }
    {
        self.node_id
    }

    /// A receiver of who leads, which finds who led behind the opening. It may wait, and is refused for want of memory alone.
    pub fn leader_change_notifier<W: Wait>(
        &self,
        rt: &W,
    ) -> Result<LatestReceiver<Option<LeaderInfo>>, NodeError>
        ensures { IfErr result (λ e. e ≡ engine_error OutOfMemory) }
    {
        self.told.leader_change_notifier(rt)
    }

    /// A receiver of the members, which finds those of the configuration. It may wait, and is refused for want of memory
    /// alone.
    pub fn membership_change_notifier<W: Wait>(
        &self,
        rt: &W,
    ) -> Result<LatestReceiver<MembershipSnapshot>, NodeError>
        ensures { IfErr result (λ e. e ≡ engine_error OutOfMemory) }
    {
        self.told.membership_change_notifier(rt)
    }

    /// The node taken apart, for those who make calls of its engine themselves.
    pub fn into_parts(self) -> NodeParts<D, G, T, M, K, C>
        ensures { result ≡ record { engine = self.engine; disk = self.disk; clock = self.clock; node_id = self.node_id; told = self.told } }
    {
        NodeParts {
            engine: self.engine,
            disk: self.disk,
            clock: self.clock,
            node_id: self.node_id,
            told: self.told,
        }
    }
}

impl<D: Disk, G: LogStore<D>, T: MetaStore<D>, M: StateMachine<D>, K: Core<D>, C: Clock> Node<
    D,
    G,
    T,
    M,
    K,
    C,
> {
    /// Serves each frame of a link's input, to its end, as `serve` of `den_core` does: each write is on the disk before a
    /// byte of its reply is sent. The node is of use behind an `Err` where its engine has not failed.
    pub fn run<L: Link>(&mut self, link: &mut L) -> Result<(), Error>
        requires stands { CanGoOn D.Disk (⟦<Engine<G, T, M, K> as Stepper<D>>⟧.seen self.old.engine) self.old.disk }
        ensures link { LinkGoesOn L.tells L.sent L.budget L.taken L.faults link.old link.new }
        ensures clock { ClockGoesOn C.tells C.readings self.old.clock self.new.clock }
        ensures counted { IsTrue (L.tells link.old)
            → L.taken link.new + length (L.left link.new) ≡ L.taken link.old + length (L.left link.old) }

        // At every exit, and after a crash at any moment, the disk stands for the state after a prefix of the turns that holds
        // each step of which a byte was sent.
        ensures survives { SurvivesRun D.Disk L.Link C.Clock ⟦<Engine<G, T, M, K> as Stepper<D>>⟧.says
            (⟦<Engine<G, T, M, K> as Stepper<D>>⟧.seen self.old.engine) (⟦<Engine<G, T, M, K> as Stepper<D>>⟧.seen self.new.engine)
            self.old.limit self.old.disk self.new.disk link.old link.new self.old.clock self.new.clock }

        // At every exit what was sent is a front of what the turns answer, whatever is told of the disk and its files.
        ensures prefix { SendsFront D.Disk L.Link C.Clock ⟦<Engine<G, T, M, K> as Stepper<D>>⟧.says
            (⟦<Engine<G, T, M, K> as Stepper<D>>⟧.seen self.old.engine) (⟦<Engine<G, T, M, K> as Stepper<D>>⟧.seen self.new.engine)
            self.old.limit self.old.disk self.new.disk link.old link.new self.old.clock self.new.clock }

        // At Ok all turns were made, exactly what they answer was sent, and their entries are in the log.
        ensures done { OnOk result (RunsToEnd D.Disk L.Link C.Clock ⟦<Engine<G, T, M, K> as Stepper<D>>⟧.says
            (⟦<Engine<G, T, M, K> as Stepper<D>>⟧.seen self.old.engine) (⟦<Engine<G, T, M, K> as Stepper<D>>⟧.seen self.new.engine)
            self.old.limit self.old.disk self.new.disk link.old link.new self.old.clock self.new.clock) }
        ensures serves { ServesLink D.Disk L.Link C.Clock ⟦<Engine<G, T, M, K> as Stepper<D>>⟧.says
            (⟦<Engine<G, T, M, K> as Stepper<D>>⟧.seen self.old.engine) (⟦<Engine<G, T, M, K> as Stepper<D>>⟧.seen self.new.engine)
            self.old.limit self.old.disk self.new.disk link.old link.new self.old.clock self.new.clock result }

        // Nothing of the node moves but engine, disk and clock.
        ensures rest { self.new ≡ record self.old { engine = self.new.engine; disk = self.new.disk; clock = self.new.clock } }
    {
        let limit = self.limit;
        let alloc = self.alloc;
        serve(
            &mut self.engine,
            &mut self.disk,
            link,
            &mut self.clock,
            limit,
            alloc,
        )
    }

    /// Whether a refusal left the engine of no more use. The node is started anew then.
    pub fn is_failed(&self) -> bool
        ensures { IsTrue result ↔ (⟦<Engine<G, T, M, K> as Stepper<D>>⟧.seen self.now.engine).failed }
    {
        Stepper::<D>::is_failed(&self.engine)
    }
}

impl<D, G, T, M, K, C> Debug for Node<D, G, T, M, K, C> {
    fn fmt<W: Write>(&self, f: &mut Formatter<W>) -> fmt::Result {
        write!(f, "Node {{ node_id: {} }}", self.node_id)
    }
}
