//! The configuration of a node.
ghost use Rattle.std.specs.Prelude.{◌≡◌, ◌≤◌, IsTrue, IfOk, IfErr, is_ok};
ghost use Rattle.den_codec.specs.Nodes.{has_id, ids_differ, is_cluster, fits_solo, is_solo};
ghost use Rattle.den_codec.specs.declared.error.Error.TheVariants.{Config};
ghost use Rattle.den_codec.specs.declared.config_place.ConfigPlace.TheVariants.{InitialCluster};

use crate::{ConfigPlace, Error};
use den_model::{Label, NodeMeta, Rows};

/// The role of a node that does not vote.
const LEARNER: i32 = 3;

/// This node, the nodes of its cluster, and the folder of its files.
#[derive(Debug, Drop)]
pub struct ClusterConfig {
    pub node_id: u32,
    pub initial_cluster: Rows<NodeMeta>,
    pub db_root_dir: Label,
    ghost named: { IsTrue (is_cluster node_id initial_cluster) },
}

/// Leases: whether keys may expire, and how often expired keys are removed.
#[derive(Clone, Copy, Debug, PartialEq, Eq)]
pub struct LeaseConfig {
    pub enabled: bool,
    /// Milliseconds between two cleanups.
    pub cleanup_interval_ms: u64,
    /// Kept, and not used.
    pub max_cleanup_duration_ms: u64,
    ghost often: { 1 ≤ cleanup_interval_ms },
}

/// How many watchers there may be, and how many events wait for each.
#[derive(Clone, Copy, Debug, PartialEq, Eq)]
pub struct WatchConfig {
    pub max_watcher_count: u32,
    pub watcher_buffer_size: u32,
    ghost some: { 1 ≤ watcher_buffer_size },
}

/// The longest body of a request's frame, in bytes.
#[derive(Clone, Copy, Debug, PartialEq, Eq)]
pub struct NetworkConfig {
    pub max_frame_size: u32,
    ghost some: { 1 ≤ max_frame_size },
}

/// What the log, the leases and the watchers may take.
#[derive(Clone, Copy, Debug, PartialEq, Eq)]
pub struct RaftConfig {
    /// A client's patience, in milliseconds.
    pub timeout_ms: u64,
    pub lease: LeaseConfig,
    pub watch: WatchConfig,
    /// How many entries the log may hold after a step.
    pub max_log_entries: u64,
    /// Failures in a row that make a peer a zombie.
    pub zombie_threshold: u32,
}

/// How often a task is tried, and how long the pauses are, in milliseconds.
#[derive(Clone, Copy, Debug, PartialEq, Eq)]
pub struct BackoffPolicy {
    pub max_retries: u32,
    pub base_delay_ms: u64,
    pub max_delay_ms: u64,
}

/// The whole configuration of a node.
#[derive(Debug, Drop)]
pub struct RaftNodeConfig {
    pub cluster: ClusterConfig,
    pub raft: RaftConfig,
    pub network: NetworkConfig,
    pub retry: BackoffPolicy,
}

/// A configuration of one voter: this node alone has a role other than learner.
#[derive(Debug, Drop)]
pub struct SoloConfig {
    node: RaftNodeConfig,
    ghost alone: { IsTrue (is_solo node.cluster.node_id node.cluster.initial_cluster) },
}

fn has_id(id: u32, nodes: &[NodeMeta]) -> bool
    ensures { result ≡ has_id id nodes.now }
{
    for node in nodes {
        if node.id == id {
            return true;
        }
    }
    false
}

fn ids_differ(nodes: &[NodeMeta]) -> bool
    ensures { result ≡ ids_differ nodes.now }
{
    let mut rest = nodes;
    while let Some((first, others)) = rest.split_first() {
        if has_id(first.id, others) {
            return false;
        }
        rest = others;
    }
    true
}

fn fits_solo(own: u32, node: &NodeMeta) -> bool
    ensures { result ≡ fits_solo own node.now }
{
    if node.id == own {
        node.role != LEARNER
    } else {
        node.role == LEARNER
    }
}

fn is_solo(own: u32, nodes: &[NodeMeta]) -> bool
    ensures { result ≡ is_solo own nodes.now }
{
    for node in nodes {
        if !fits_solo(own, node) {
            return false;
        }
    }
    true
}

impl ClusterConfig {
    /// A cluster of these nodes, this one among them. `Config(InitialCluster)` exactly where an id stands twice or this
    /// node's id is missing.
    pub fn of(
        node_id: u32,
        initial_cluster: Rows<NodeMeta>,
        db_root_dir: Label,
    ) -> Result<ClusterConfig, Error>
        ensures ok { is_ok result ≡ is_cluster node_id initial_cluster }
        ensures config { IfOk result (λ c. (c.node_id ≡ node_id) × (c.initial_cluster ≡ initial_cluster) × (c.db_root_dir ≡ db_root_dir)) }
        ensures refused { IfErr result (λ e. e ≡ Config InitialCluster) }
    {
        let named = has_id(node_id, initial_cluster.as_slice())
            && ids_differ(initial_cluster.as_slice());
        if !named {
            return Err(Error::Config(ConfigPlace::InitialCluster));
        }
        Ok(ClusterConfig {
            node_id,
            initial_cluster,
            db_root_dir,
        })
    }
}

impl RaftNodeConfig {
    /// As a configuration of one voter. `Config(InitialCluster)` exactly where another node is no learner, or this one is.
    pub fn solo(self) -> Result<SoloConfig, Error>
        ensures ok { is_ok result ≡ is_solo self.cluster.node_id self.cluster.initial_cluster }
        ensures config { IfOk result (λ c. c.node ≡ self) }
        ensures refused { IfErr result (λ e. e ≡ Config InitialCluster) }
    {
        if !is_solo(
            self.cluster.node_id,
            self.cluster.initial_cluster.as_slice(),
        ) {
            return Err(Error::Config(ConfigPlace::InitialCluster));
        }
        Ok(SoloConfig { node: self })
    }
}

impl SoloConfig {
    /// The node's configuration.
    pub fn node(&self) -> &RaftNodeConfig
        ensures { result.now ≡ self.now.node }
    {
        &self.node
    }
}
