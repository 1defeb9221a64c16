//! Members: tries with pauses, channels that are kept, failures of peers, and nodes and values that threads share.
ghost use Rattle.std.specs.Prelude.{false, []};

use den_codec::{BackoffPolicy, RaftNodeConfig};
use den_disk::Pause;
use den_member::{
    ConnectionCache, ConnectionType, Connector, HealthMonitor, Latest, LatestReceiver,
    ListConnector, MemberError, MembershipError, MembershipGuard, MembershipSnapshot, NodeStatus,
    RaftHealthMonitor, RaftMembership, task_with_exponential_backoff,
};
use den_model::{Label, NodeMeta, Rows};
use std::alloc::Global;
use std::sync::Wait;
use std::thread;
use std::thread::Threads;

// Notes its last two pauses, and how many there were.
#[derive(Drop)]
struct Noted {
    last: [u64; 2],
    count: u32,
}

impl Pause for Noted {
    ghost tells = { λ _. false };

    ghost delays = { λ _. [] };

    fn pause(&mut self, ms: u64) {
        self.last = [self.last[1], ms];
        self.count = self.count.saturating_add(1);
    }
}

fn unpaused() -> Noted {
    Noted {
        last: [0, 0],
        count: 0,
    }
}

fn three_tries(base_delay_ms: u64) -> BackoffPolicy {
    BackoffPolicy {
        max_retries: 3,
        base_delay_ms,
        max_delay_ms: 3000,
    }
}

// The pauses of three tries that fail, where they end as they should.
fn pauses_from(base_delay_ms: u64) -> Option<[u64; 2]> {
    let mut pause = unpaused();
    let fail = || -> Result<u32, MemberError> { Err(MemberError::ConnectFault) };
    let ended = task_with_exponential_backoff(fail, three_tries(base_delay_ms), &mut pause);
    if ended == Err(MemberError::TaskBackoffFailed { tries: 3 }) && pause.count == 2 {
        return Some(pause.last);
    }
    None
}

// The answer of a task whose first try fails: how often it was tried.
fn answer_behind_a_failure() -> Result<u32, MemberError> {
    let mut pause = unpaused();
    let mut calls = 0u32;
    let second = move || {
        calls = calls.saturating_add(1);
        if calls == 2 {
            Ok(calls)
        } else {
            Err(MemberError::ConnectFault)
        }
    };
    task_with_exponential_backoff(second, three_tries(1000), &mut pause)
}

#[test]
fn tries_again(rt: HostRuntime) {
    assert!(rt; pauses_from(1000) == Some([1000, 2000]));
    assert!(rt; pauses_from(5000) == Some([5000, 3000]));
    assert!(rt; answer_behind_a_failure() == Ok(2));
}

// How many channels are kept behind these calls, of one node at one address.
fn channels_of<K: Connector<u64>>(
    alloc: Global,
    connector: &mut K,
    kinds: &[ConnectionType],
) -> Result<usize, MemberError> {
    let mut cache = ConnectionCache::new(alloc);
    for kind in kinds {
        cache.get_channel(connector, 1, *kind, Label::of(alloc, "h:1")?, 0)?;
    }
    Ok(cache.len())
}

const TWICE: &[ConnectionType] = &[ConnectionType::Data, ConnectionType::Data];

const EACH_KIND: &[ConnectionType] = &[
    ConnectionType::Data,
    ConnectionType::Data,
    ConnectionType::Control,
    ConnectionType::Bulk,
];

#[test]
fn keeps_channels(rt: HostRuntime) {
    let alloc = rt.alloc();
    let mut connector = ListConnector::new(Vec::new(alloc));
    assert!(rt; channels_of(alloc, &mut connector, TWICE) == Ok(1));
    assert!(rt; channels_of(alloc, &mut connector, EACH_KIND) == Ok(3));
}

// A channel of node 1.
fn channel<K: Connector<u64>>(
    alloc: Global,
    cache: &mut ConnectionCache<u64>,
    connector: &mut K,
) -> Result<u64, MemberError> {
    let address = Label::of(alloc, "h:1")?;
    let channel = cache.get_channel(connector, 1, ConnectionType::Data, address, 7)?;
    Ok(*channel)
}

// Whether the first connection fails and leaves none, and the second one stands until its node goes.
fn connects_at_second(alloc: Global) -> Result<bool, MemberError> {
    let mut connector = ListConnector::new([1].to_vec(alloc)?);
    let mut cache = ConnectionCache::new(alloc);
    let failed = channel(alloc, &mut cache, &mut connector) == Err(MemberError::ConnectFault);
    let empty = cache.len() == 0;
    let second = channel(alloc, &mut cache, &mut connector)? == 2;
    let used = cache.last_used(1, ConnectionType::Data) == Some(7);
    cache.remove_node(1);
    Ok(failed && empty && second && used && cache.len() == 0)
}

#[test]
fn connects_again(rt: HostRuntime) {
    assert!(rt; connects_at_second(rt.alloc()) == Ok(true));
}

// The signal of the last of these failures.
fn last_signal(alloc: Global, threshold: u32, peers: &[u32]) -> Result<Option<u32>, MemberError> {
    let mut monitor = RaftHealthMonitor::new(alloc, threshold);
    let mut signal = None;
    for peer in peers {
        signal = monitor.record_failure(*peer)?;
    }
    Ok(signal)
}

#[test]
fn signals_zombies(rt: HostRuntime) {
    assert!(rt; last_signal(rt.alloc(), 2, &[1, 2, 1]) == Ok(Some(1)));
    assert!(rt; last_signal(rt.alloc(), 2, &[1, 2, 1, 1]) == Ok(None));
    assert!(rt; last_signal(rt.alloc(), 0, &[1, 1, 1, 1, 1]) == Ok(None));
}

fn node(alloc: Global, id: u32, address: &str) -> Result<NodeMeta, MemberError> {
    Ok(NodeMeta {
        id,
        address: Label::of(alloc, address)?,
        role: 0,
        status: 2,
    })
}

// Nodes 1 and 2.
fn two_nodes(alloc: Global) -> Result<Rows<NodeMeta>, MemberError> {
    let mut nodes = Vec::new(alloc);
    nodes.push(node(alloc, 1, "node-1.test:8080")?)?;
    nodes.push(node(alloc, 2, "node-2.test:8080")?)?;
    Ok(Rows::of(nodes))
}

const NO_99: MemberError = MemberError::Membership(MembershipError::NoMetadataFoundForNode {
    node_id: 99,
});

// Whether an update of a node that is not held is refused, and changes nothing.
fn refuses_99<W: Wait>(rt: &W, guard: &MembershipGuard) -> bool {
    let refused = guard.update_node(rt, 99, |node| node.role = 3) == Err(NO_99);
    refused
        && guard.blocking_read(rt, |state| {
            state.nodes.len() == 2 && state.cluster_conf_version == 100
        })
}

// Whether what a closure and an update write is found.
fn writes<W: Wait>(rt: &W, guard: &MembershipGuard) -> bool {
    guard.blocking_write(rt, |state| state.cluster_conf_version = 101);
    let updated = guard.update_node(rt, 2, |node| node.role = 3).is_ok();
    let version = guard.blocking_read(rt, |state| state.cluster_conf_version);
    updated && version == 101 && guard.contains_node(rt, 2)
}

// Whether a copy of the nodes has the node and the version.
fn copies<W: Wait>(rt: &W, alloc: Global, guard: &MembershipGuard) -> Result<bool, MemberError> {
    let copy = guard.blocking_read(rt, |state| state.copy(alloc))?;
    Ok(copy.contains_node(2) && copy.cluster_conf_version == 101)
}

fn guards<W: Wait>(rt: &W, alloc: Global) -> Result<bool, MemberError> {
    let guard = MembershipGuard::new(alloc, two_nodes(alloc)?, 100)?;
    Ok(refuses_99(rt, &guard) && writes(rt, &guard) && copies(rt, alloc, &guard)?)
}

#[test]
fn guards_nodes(rt: HostRuntime) {
    assert!(rt; guards(&rt, rt.alloc()) == Ok(true));
}

// Waits for a value, and gives it.
fn next_value<W: Wait>(rt: &W, receiver: &mut LatestReceiver<u64>) -> u64 {
    receiver.changed(rt);
    receiver.read(rt, |value| *value)
}

// Whether a receiver finds the first value at once, and then the one that another thread sends.
fn hears<R: Threads + Wait + Sync>(rt: &R, alloc: Global) -> Result<bool, MemberError> {
    let latest = Latest::new(alloc, 5)?;
    let mut receiver = latest.subscribe(rt)?;
    let first = receiver.read(rt, |value| *value);
    let unchanged = !receiver.has_changed(rt);
    let (_, next) = thread::join(rt, || latest.send(rt, 7), || next_value(rt, &mut receiver));
    Ok(first == 5 && unchanged && next == 7)
}

#[test]
fn hears_another_thread(rt: HostRuntime) {
    assert!(rt; hears(&rt, rt.alloc()) == Ok(true));
}

// A node's view of two nodes, whose peers are zombies at their first failure.
fn view(alloc: Global) -> Result<RaftMembership<u64>, MemberError> {
    let Ok(mut config) = RaftNodeConfig::standard(alloc) else {
        return Err(MemberError::OutOfMemory);
    };
    config.raft.zombie_threshold = 1;
    RaftMembership::new(alloc, 1, two_nodes(alloc)?, &config)
}

// Whether the snapshot has this many members, learners, and this index.
fn is_told<W: Wait>(
    rt: &W,
    receiver: &LatestReceiver<MembershipSnapshot>,
    wanted: (usize, usize, u64),
) -> bool {
    receiver.read(rt, |told| {
        (
            told.members.len(),
            told.learners.len(),
            told.committed_index,
        ) == wanted
    })
}

// Whether the snapshot is equal to its copy.
fn is_copied<W: Wait>(
    rt: &W,
    alloc: Global,
    receiver: &LatestReceiver<MembershipSnapshot>,
) -> Result<bool, MemberError> {
    let copy = receiver.read(rt, |told| told.copy(alloc))?;
    Ok(receiver.read(rt, |told| *told == copy))
}

// Whether a receiver finds the first snapshot, and then that with a learner.
fn tells<W: Wait>(rt: &W, alloc: Global) -> Result<bool, MemberError> {
    let mut view = view(alloc)?;
    let receiver = view.subscribe_membership(rt)?;
    let first = is_told(rt, &receiver, (2, 0, 0));
    view.add_learner(3, Label::of(alloc, "h:3")?, NodeStatus::Promotable)?;
    view.notify_config_applied(rt, 9)?;
    let second = receiver.has_changed(rt) && is_told(rt, &receiver, (2, 1, 9));
    Ok(first && second && is_copied(rt, alloc, &receiver)?)
}

#[test]
fn tells_receivers(rt: HostRuntime) {
    assert!(rt; tells(&rt, rt.alloc()) == Ok(true));
}

// The signal of a peer that has no address.
fn missing_peer(alloc: Global) -> Result<Option<u32>, MemberError> {
    let mut view = view(alloc)?;
    let mut connector = ListConnector::new(Vec::new(alloc));
    let (channel, signal) = view.get_peer_channel(&mut connector, 9, ConnectionType::Data, 0)?;
    Ok(if channel.is_none() { signal } else { None })
}

#[test]
fn misses_a_peer(rt: HostRuntime) {
    assert!(rt; missing_peer(rt.alloc()) == Ok(Some(9)));
}

// Whether a view prints its node's id alone.
fn shows(alloc: Global) -> Result<bool, MemberError> {
    let view = view(alloc)?;
    let shown = format!(in alloc; "{view:?}")?;
    Ok(shown.as_str() == "RaftMembership { node_id: 1 }")
}

#[test]
fn shows_the_id(rt: HostRuntime) {
    assert!(rt; shows(rt.alloc()) == Ok(true));
}
