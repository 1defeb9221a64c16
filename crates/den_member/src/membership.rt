//! A node's view of its cluster.
ghost use Rattle.std.specs.Prelude.{◌≡◌, ℤ, Bool, None, IfOk, IfErr, option_copied, if◌then◌else◌, true};
ghost use Rattle.den_codec.specs.Nodes.{ids_differ};
ghost use Rattle.den_model.specs.Step.{by_id};
ghost use Rattle.den_member.specs.Answers.{Answers, Comes, MakesChange};
ghost use Rattle.den_member.specs.Cache.{without_node};
ghost use Rattle.den_member.specs.Changes.{activated, added, change_applied, removed, stated};
ghost use Rattle.den_member.specs.Health.{succeeded};
ghost use Rattle.den_member.specs.Leading.{leader_answer, asked_change, members_after};
ghost use Rattle.den_member.specs.Members.{next_version};
ghost use Rattle.den_member.specs.Numbered.{at, is_held};
ghost use Rattle.den_member.specs.Queries.{IsAddressAt, all_nodes, ids_that, membership_under, nodes_of_status, peers_of, rejoins, status_at, voters_of};
ghost use Rattle.den_member.specs.Raft.{Fails, IsFresh, KeepsOwn, KeepsRest, Reaches, dropped_by, dropped_if, is_success, without_option};
ghost use Rattle.den_member.specs.Snapshots.{snapshot_of};
ghost use Rattle.den_member.specs.Status.{status_number};
ghost use Rattle.den_member.specs.declared.error.MemberError.TheVariants.{OutOfMemory};

use crate::leading::asked_change;
use crate::node_filter::NodeFilter;
use crate::{
    ClusterConfChangeRequest, ClusterConfUpdateResponse, ConfOutcome, ConnectionCache,
    ConnectionType, Connector, HealthMonitor, InnerState, Latest, LatestReceiver, MemberError,
    MembershipChange, MembershipSnapshot, NodeChange, NodeStatus, RaftHealthMonitor,
};
use den_codec::RaftNodeConfig;
use den_model::{ClusterMembership, Label, NodeMeta, Rows};
use std::alloc::Global;
use std::fmt;
use std::fmt::{Debug, Formatter, Write};
use std::sync::Wait;

/// A node's view of its cluster: the nodes, which of its peers fail, its channels to them, and what was told of the nodes last.
#[derive(Drop)]
pub struct RaftMembership<X> {
    alloc: Global,
    node_id: u32,
    initial_size: usize,
    membership: InnerState,
    monitor: RaftHealthMonitor,
    cache: ConnectionCache<X>,
    latest: Latest<MembershipSnapshot>,
}

/// The node whose channels a change drops, if it drops some.
fn dropped_by(change: &NodeChange) -> Option<u32>
    ensures { result ≡ dropped_by change.now }
{
    match change {
        NodeChange::RemoveNode { node_id } => Some(*node_id),
        _ => None,
    }
}

/// The same, where there is a change.
fn dropped_if(change: Option<&NodeChange>) -> Option<u32>
    ensures { result ≡ dropped_if (option_copied change.entry) }
{
    match change {
        None => None,
        Some(change) => dropped_by(change),
    }
}

/// Whether a change was made.
fn is_success(outcome: ConfOutcome) -> bool
    ensures { result ≡ is_success outcome }
{
    outcome == ConfOutcome::Success
}

/// Prints the node's id alone.
impl<X> Debug for RaftMembership<X> {
    fn fmt<W: Write>(&self, f: &mut Formatter<W>) -> fmt::Result {
        write!(f, "RaftMembership {{ node_id: {} }}", self.node_id)
    }
}

impl<X: Drop> RaftMembership<X> {
    ghost use Rattle.std.specs.Prelude.{⊤};
    ghost use Rattle.std.specs.Borrow.{follows_so, sem};
    ghost use mathlib.Core.Option.{none};
    ghost use Rattle.den_member.specs.Raft.{Channels};
    ghost use Rattle.den_member.specs.contracts.membership.RaftMembership.{the_row};

    /// The view of a node when it begins: these nodes, of equal ids the last, at version 0. Where no id stands twice, `members`
    /// answers just these in the order of their ids. It is refused for want of memory alone, as are all calls below whose
    /// answer is a list, a node or an address.
    pub fn new(
        alloc: Global,
        node_id: u32,
        initial_nodes: Rows<NodeMeta>,
        config: &RaftNodeConfig,
    ) -> Result<RaftMembership<X>, MemberError>
        ensures fresh { IfOk result (IsFresh node_id initial_nodes config.now.raft.zombie_threshold) }
        ensures by_id { ids_differ initial_nodes ≡ true → IfOk result (λ r. all_nodes r.membership ≡ by_id initial_nodes) }
        ensures refused { IfErr result (λ e. e ≡ OutOfMemory) }
    {
        let initial_size = initial_nodes.as_slice().len();
        let membership = InnerState::new(alloc, initial_nodes, 0)?;
        let latest = Latest::new(alloc, membership.snapshot(alloc, 0)?)?;
        Ok(RaftMembership {
            alloc,
            node_id,
            initial_size,
            membership,
            monitor: RaftHealthMonitor::new(alloc, config.raft.zombie_threshold),
            cache: ConnectionCache::new(alloc),
            latest,
        })
    }

    /// All nodes, in the order of their ids.
    pub fn members(&self) -> Result<Rows<NodeMeta>, MemberError>
        ensures nodes { IfOk result (λ nodes. nodes ≡ all_nodes self.now.membership) }
        ensures refused { IfErr result (λ e. e ≡ OutOfMemory) }
    {
        self.membership.all_nodes(self.alloc)
    }

    /// The same as `members`.
    pub fn get_all_nodes(&self) -> Result<Rows<NodeMeta>, MemberError>
        ensures nodes { IfOk result (λ nodes. nodes ≡ all_nodes self.now.membership) }
        ensures refused { IfErr result (λ e. e ≡ OutOfMemory) }
    {
        self.membership.all_nodes(self.alloc)
    }

    /// The other nodes whose status is known, to which entries are sent.
    pub fn replication_peers(&self) -> Result<Rows<NodeMeta>, MemberError>
        ensures nodes { IfOk result (λ nodes. nodes ≡ peers_of self.now.node_id self.now.membership) }
        ensures refused { IfErr result (λ e. e ≡ OutOfMemory) }
    {
        self.membership
            .nodes_that(self.alloc, NodeFilter::Peers { of: self.node_id })
    }

    /// The other nodes that are active, whose votes count.
    pub fn voters(&self) -> Result<Rows<NodeMeta>, MemberError>
        ensures nodes { IfOk result (λ nodes. nodes ≡ voters_of self.now.node_id self.now.membership) }
        ensures refused { IfErr result (λ e. e ≡ OutOfMemory) }
    {
        self.membership
            .nodes_that(self.alloc, NodeFilter::Voters { of: self.node_id })
    }

    /// The nodes of a status, this one too.
    pub fn nodes_with_status(&self, status: NodeStatus) -> Result<Rows<NodeMeta>, MemberError>
        ensures nodes { IfOk result (λ nodes. nodes ≡ nodes_of_status status self.now.membership) }
        ensures refused { IfErr result (λ e. e ≡ OutOfMemory) }
    {
        self.membership
            .nodes_that(self.alloc, NodeFilter::Status(status))
    }

    /// How many nodes there were in the beginning.
    pub fn initial_cluster_size(&self) -> usize
        ensures { result ≡ self.now.initial_size }
    {
        self.initial_size
    }

    /// The number of the change that made the nodes so.
    pub fn get_cluster_conf_version(&self) -> u64
        ensures { result ≡ self.now.membership.version }
    {
        self.membership.cluster_conf_version
    }

    /// The status of a node, where it is held and has one.
    pub fn get_node_status(&self, node_id: u32) -> Option<NodeStatus>
        ensures { result ≡ status_at node_id self.now.membership }
    {
        self.membership.status(node_id)
    }

    /// The ids of the nodes whose role meets a condition, in their order.
    pub fn get_peers_id_with_condition<F: Fn(i32) -> bool>(
        &self,
        condition: F,
    ) -> Result<Rows<u32>, MemberError>
        requires { F.IsAlwaysCallable condition }
        ensures ids { (meets : ℤ → Bool) → ((role : ℤ) (answer : Bool) → F.post condition role answer → answer ≡ meets role) → IfOk result (λ ids. ids ≡ ids_that (λ e. meets e.1.role) self.now.membership) }
        ensures refused { IfErr result (λ e. e ≡ OutOfMemory) }
    {
        self.membership.ids_of_roles(self.alloc, condition)
    }

    /// All nodes under a leader.
    pub fn retrieve_cluster_membership_config(
        &self,
        current_leader_id: Option<u32>,
    ) -> Result<ClusterMembership, MemberError>
        ensures members { IfOk result (λ members. members ≡ membership_under current_leader_id self.now.membership) }
        ensures refused { IfErr result (λ e. e ≡ OutOfMemory) }
    {
        self.membership
            .membership_under(self.alloc, current_leader_id)
    }

    /// Whether a node is held.
    pub fn contains_node(&self, node_id: u32) -> bool
        ensures { result ≡ is_held self.now.membership.nodes node_id }
    {
        self.membership.contains_node(node_id)
    }

    /// A node, where it is held.
    pub fn retrieve_node_meta(&self, node_id: u32) -> Result<Option<NodeMeta>, MemberError>
        ensures node { IfOk result (λ node. node ≡ at self.now.membership.nodes node_id) }
        ensures refused { IfErr result (λ e. e ≡ OutOfMemory) }
    {
        self.membership.node(self.alloc, node_id)
    }

    /// The address at which a node is reached, where it is held.
    pub fn get_address(&self, node_id: u32) -> Result<Option<Label>, MemberError>
        ensures address { IfOk result (IsAddressAt node_id self.now.membership) }
        ensures refused { IfErr result (λ e. e ≡ OutOfMemory) }
    {
        self.membership.address(self.alloc, node_id)
    }

    /// Makes a node active, where it is held.
    pub fn activate_node(&mut self, new_node_id: u32)
        ensures members { self.new.membership ≡ activated new_node_id self.old.membership }
        ensures rest { KeepsRest self.old self.new }
    {
        self.membership.activate_node(new_node_id);
    }

    /// Sets the version.
    pub fn update_conf_version(&mut self, version: u64)
        ensures members { self.new.membership ≡ record self.old.membership { version = version } }
        ensures rest { KeepsRest self.old self.new }
    {
        self.membership.cluster_conf_version = version;
    }

    /// Raises the version by one, up to the last number.
    pub fn incr_conf_version(&mut self)
        ensures members { self.new.membership ≡ record self.old.membership { version = next_version self.old.membership } }
        ensures rest { KeepsRest self.old self.new }
    {
        self.membership.cluster_conf_version = self
            .membership
            .cluster_conf_version
            .saturating_add(1);
    }

    /// Adds a node as a learner. A learner that is held stays as it is; `NodeAlreadyExists` comes exactly where another node
    /// is held under the id. On a refusal nothing changes.
    pub fn add_learner(
        &mut self,
        node_id: u32,
        address: Label,
        status: NodeStatus,
    ) -> Result<(), MemberError>
        ensures members { MakesChange result self.old.membership (added node_id address (status_number status) self.old.membership) self.new.membership }
        ensures rest { KeepsRest self.old self.new }
    {
        self.membership.add_learner(node_id, address, status)
    }

    /// Gives a node its status. `NoMetadataFoundForNode` comes exactly where it is not held, and nothing changes then.
    pub fn update_node_status(
        &mut self,
        node_id: u32,
        status: NodeStatus,
    ) -> Result<(), MemberError>
        ensures members { Comes result (stated node_id (status_number status) self.old.membership) self.new.membership }
        ensures rest { KeepsRest self.old self.new }
    {
        self.membership.update_node_status(node_id, status)
    }

    /// Removes a node with the channels to it. The version rises in any case.
    pub fn remove_node(&mut self, node_id: u32)
        ensures members { self.new.membership ≡ removed node_id self.old.membership }
        ensures channels { self.new.cache.held.items ≡ without_node node_id self.old.cache.held.items }
        ensures rest { KeepsOwn self.old self.new }
    {
        self.membership.remove_node(node_id);
        self.cache.remove_node(node_id);
    }

    /// The same as `remove_node`.
    pub fn force_remove_node(&mut self, node_id: u32)
        ensures members { self.new.membership ≡ removed node_id self.old.membership }
        ensures channels { self.new.cache.held.items ≡ without_node node_id self.old.cache.held.items }
        ensures rest { KeepsOwn self.old self.new }
    {
        self.remove_node(node_id);
    }

    /// Drops the channels to a node, if to one.
    fn drop_channels(&mut self, node_id: Option<u32>)
        ensures channels { self.new.cache.held.items ≡ without_option node_id self.old.cache.held.items }
        ensures rest { self.new ≡ record self.old { cache = self.new.cache } }
    {
        if let Some(node_id) = node_id {
            self.cache.remove_node(node_id);
        }
    }

    /// Carries a change out, as the log has it; with a node that is removed its channels go. On an `Err` nothing changes, but
    /// that a batch of promotions which meets a node that is not held has promoted those before it.
    pub fn apply_config_change(
        &mut self,
        membership_change: MembershipChange,
    ) -> Result<(), MemberError>
        ensures members { MakesChange result self.old.membership (change_applied membership_change.change self.old.membership) self.new.membership }
        ensures channels { IfOk result (λ _. self.new.cache.held.items ≡ without_option (dropped_if membership_change.change) self.old.cache.held.items) }
        ensures kept { IfErr result (λ _. self.new.cache ≡ self.old.cache) }
        ensures rest { KeepsOwn self.old self.new }
    {
        let dropped = dropped_if(membership_change.change.as_ref());
        self.membership.apply_config_change(membership_change)?;
        self.drop_channels(dropped);
        Ok(())
    }

    /// Carries out the change that a request asks for, where it comes from the leader, of this node's term or a later one,
    /// and at no lower version than the one that is held. The version is the request's then, and with a node that is removed
    /// its channels go. Else nothing changes.
    pub fn update_cluster_conf_from_leader(
        &mut self,
        my_id: u32,
        my_current_term: u64,
        current_conf_version: u64,
        current_leader_id: Option<u32>,
        req: &ClusterConfChangeRequest,
    ) -> Result<ClusterConfUpdateResponse, MemberError>
        ensures members { Answers result self.old.membership (leader_answer my_id my_current_term current_conf_version current_leader_id req.now self.old.membership) (members_after my_current_term current_leader_id req.now self.old.membership) self.new.membership }
        ensures channels { IfOk result (λ r. self.new.cache.held.items ≡ (if is_success r.outcome then without_option (dropped_if (asked_change req.now)) self.old.cache.held.items else self.old.cache.held.items)) }
        ensures kept { IfErr result (λ _. self.new.cache ≡ self.old.cache) }
        ensures rest { KeepsOwn self.old self.new }
    {
        let response = self.membership.update_cluster_conf_from_leader(
            self.alloc,
            my_id,
            my_current_term,
            current_conf_version,
            current_leader_id,
            req,
        )?;
        if is_success(response.outcome) {
            self.drop_channels(dropped_if(asked_change(req)));
        }
        Ok(response)
    }

    /// Sends a snapshot of the nodes behind the change of this index.
    fn send_snapshot<W: Wait>(&self, rt: &W, index: u64, snapshot: MembershipSnapshot)
        requires { snapshot ≡ snapshot_of self.now.membership index }
    {
        self.latest.send(rt, snapshot);
    }

    /// Tells the receivers of `subscribe_membership` who is a member and who learns, behind the change that the log has at this
    /// index. It may wait for one of them. On a refusal, which is for want of memory alone, nothing is sent.
    pub fn notify_config_applied<W: Wait>(&mut self, rt: &W, index: u64) -> Result<(), MemberError>
        ensures same { self.new ≡ self.old }
        ensures refused { IfErr result (λ e. e ≡ OutOfMemory) }
    {
        let snapshot = self.membership.snapshot(self.alloc, index)?;
        self.send_snapshot(rt, index, snapshot);
        Ok(())
    }

    /// A receiver of what `notify_config_applied` sends, which finds the last snapshot at once: that of the nodes of the
    /// beginning, at index 0, where none was sent. It is refused for want of memory alone.
    pub fn subscribe_membership<W: Wait>(
        &self,
        rt: &W,
    ) -> Result<LatestReceiver<MembershipSnapshot>, MemberError>
        ensures { IfErr result (λ e. e ≡ OutOfMemory) }
    {
        self.latest.subscribe(rt)
    }

    /// Whether a node of the role may join: `NotLearner` comes exactly where it is no learner, then `NodeAlreadyExists`
    /// exactly where it is held.
    pub fn can_rejoin(&self, node_id: u32, role: i32) -> Result<(), MemberError>
        ensures { result ≡ rejoins node_id role self.now.membership }
    {
        self.membership.can_rejoin(node_id, role)
    }

    /// Whether failures of the peer are counted, be it none since its last signal.
    pub fn is_zombie_valid(&self, node_id: u32) -> bool
        ensures { result ≡ is_held self.now.monitor.failures node_id }
    {
        self.monitor.is_zombie_valid(node_id)
    }

    /// Forgets the failures of a peer.
    pub fn on_peer_stream_success(&mut self, node_id: u32)
        ensures monitor { self.new.monitor ≡ succeeded self.old.monitor node_id }
        ensures none { at self.new.monitor.failures node_id ≡ None }
        ensures rest { self.new ≡ record self.old { monitor = self.new.monitor } }
    {
        self.monitor.record_success(node_id);
    }

    /// Counts a failure of a peer, and drops the channels to it. Its id is answered where the failures came to the threshold.
    /// On a refusal nothing changes.
    pub fn on_peer_stream_failed(&mut self, node_id: u32) -> Result<Option<u32>, MemberError>
        ensures failed { IfOk result (Fails node_id self.old self.new) }
        ensures refused { IfErr result (λ e. (e ≡ OutOfMemory) × (self.new ≡ self.old)) }
    {
        let signal = self.monitor.record_failure(node_id)?;
        self.cache.remove_node(node_id);
        Ok(signal)
    }

    /// Readies a channel to a peer, or counts a failure where it has no address or is not reached.
    fn reach<K: Connector<X>>(
        &mut self,
        connector: &mut K,
        node_id: u32,
        kind: ConnectionType,
        now: u64,
    ) -> Result<(Option<usize>, Option<u32>), MemberError>
        ensures { Reaches K.connects K.faults connector.old connector.new node_id kind now self.old self.new result }
    {
        let Some(address) = self.get_address(node_id)? else {
            let signal = self.monitor.record_failure(node_id)?;
            return Ok((None, signal));
        };
        match self.cache.ready(connector, node_id, kind, address, now) {
            Ok(place) => Ok((Some(place), None)),
            Err(MemberError::ConnectFault) => {
                let signal = self.on_peer_stream_failed(node_id)?;
                Ok((None, signal))
            }
            Err(error) => Err(error),
        }
    }

    /// The channel to a peer, and no signal; or, where it has no address or could not be reached, no channel and the signal
    /// that this failure gives. Where a connection could not be made, the channels to the peer are dropped.
    pub fn get_peer_channel<K: Connector<X>>(
        &mut self,
        connector: &mut K,
        node_id: u32,
        kind: ConnectionType,
        now: u64,
    ) -> Result<(Option<&X>, Option<u32>), MemberError>
        ensures* channels { sem 𝓛 (follows_so (the_row X.row) (the_row X.row) self.entry.ghost_name none (λ _ _. ⊤)
            (λ after. Channels K.connects K.faults connector.old connector.new node_id kind now self.old after result)) }
    {
        let (place, signal) = self.reach(connector, node_id, kind, now)?;
        match place {
            None => Ok((None, signal)),
            Some(place) => Ok((Some(self.cache.channel_at(place)), signal)),
        }
    }
}
