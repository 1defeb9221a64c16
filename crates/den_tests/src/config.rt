//! Configurations, read from a source.
use den_codec::{
    BackoffPolicy, ClusterConfig, ConfigPlace, Error, LeaseConfig, RaftConfig, RaftNodeConfig,
    WatchConfig,
};
use den_config::{read_solo, read_source};
use den_disk::{MemSource, Source};
use den_model::NodeMeta;
use std::alloc::Global;
use std::test::Fail;

// A value for each key, none of them the default.
const FULL: &[u8] = b"other = 1
[cluster]
node_id = 2
db_root_dir = \"data\"
[[cluster.initial_cluster]]
id = 2
address = \"10.0.0.2:9081\"
role = 1
status = 0
[[cluster.initial_cluster]]
id = 5
address = \"10.0.0.5:9081\"
[raft]
general_raft_timeout_duration_in_ms = 0
[raft.state_machine.lease]
enabled = true
cleanup_interval_ms = 1
max_cleanup_duration_ms = 9223372036854775807
[raft.watch]
max_watcher_count = 4294967295
watcher_buffer_size = 1
[raft.snapshot]
max_log_entries_before_snapshot = 7
[raft.membership.zombie]
threshold = 0
[network]
max_frame_size = 4294967295
";

const FULL_RAFT: RaftConfig = RaftConfig {
    timeout_ms: 0,
    lease: LeaseConfig {
        enabled: true,
        cleanup_interval_ms: 1,
        max_cleanup_duration_ms: 9_223_372_036_854_775_807,
    },
    watch: WatchConfig {
        max_watcher_count: 4_294_967_295,
        watcher_buffer_size: 1,
    },
    max_log_entries: 7,
    zombie_threshold: 0,
};

const DEFAULT_RAFT: RaftConfig = RaftConfig {
    timeout_ms: 1000,
    lease: LeaseConfig {
        enabled: false,
        cleanup_interval_ms: 1000,
        max_cleanup_duration_ms: 1,
    },
    watch: WatchConfig {
        max_watcher_count: 1000,
        watcher_buffer_size: 64,
    },
    max_log_entries: 1000,
    zombie_threshold: 3,
};

const RETRY: BackoffPolicy = BackoffPolicy {
    max_retries: 3,
    base_delay_ms: 100,
    max_delay_ms: 1000,
};

// A node as a text gives it.
struct Listed {
    id: u32,
    address: &'static str,
    role: i32,
    status: i32,
}

const DEFAULT_NODES: &[Listed] = &[Listed {
    id: 1,
    address: "127.0.0.1:9081",
    role: 0,
    status: 2,
}];

const FULL_NODES: &[Listed] = &[
    Listed {
        id: 2,
        address: "10.0.0.2:9081",
        role: 1,
        status: 0,
    },
    Listed {
        id: 5,
        address: "10.0.0.5:9081",
        role: 0,
        status: 2,
    },
];

fn is_node(node: &NodeMeta, listed: &Listed) -> bool {
    node.id == listed.id
        && node.address.as_str() == listed.address
        && node.role == listed.role
        && node.status == listed.status
}

fn are_nodes(nodes: &[NodeMeta], listed: &[Listed]) -> bool {
    for (node, listed) in nodes.iter().zip(listed) {
        if !is_node(node, listed) {
            return false;
        }
    }
    nodes.len() == listed.len()
}

fn is_cluster(cluster: &ClusterConfig, node_id: u32, folder: &str, listed: &[Listed]) -> bool {
    cluster.node_id == node_id
        && cluster.db_root_dir.as_str() == folder
        && are_nodes(cluster.initial_cluster.as_slice(), listed)
}

fn has_limits(config: &RaftNodeConfig, raft: &RaftConfig, max_frame_size: u32) -> bool {
    config.raft == *raft && config.network.max_frame_size == max_frame_size && config.retry == RETRY
}

fn source_of(alloc: Global, text: &[u8]) -> Result<MemSource, Fail> {
    Ok(MemSource::new(text.to_vec(alloc)?))
}

// Why a source is refused, with several voters or with one.
fn refusal<S: Source>(alloc: Global, source: &mut S) -> Option<Error> {
    match read_source(alloc, source) {
        Ok(_) => None,
        Err(error) => Some(error),
    }
}

fn solo_refusal<S: Source>(alloc: Global, source: &mut S) -> Option<Error> {
    match read_solo(alloc, source) {
        Ok(_) => None,
        Err(error) => Some(error),
    }
}

fn is_refused(alloc: Global, text: &[u8], place: ConfigPlace) -> Result<bool, Fail> {
    let mut source = source_of(alloc, text)?;
    Ok(refusal(alloc, &mut source) == Some(Error::Config(place)))
}

#[test]
fn gives_a_value_for_each_key(rt: HostRuntime) -> Result<(), Fail> {
    let mut source = source_of(rt.alloc(), FULL)?;
    let config = read_source(rt.alloc(), &mut source)?;
    assert!(rt; is_cluster(&config.cluster, 2, "data", FULL_NODES));
    assert!(rt; has_limits(&config, &FULL_RAFT, 4_294_967_295));
    Ok(())
}

#[test]
fn gives_the_defaults(rt: HostRuntime) -> Result<(), Fail> {
    let mut source = source_of(rt.alloc(), b"")?;
    let config = read_solo(rt.alloc(), &mut source)?;
    assert!(rt; is_cluster(&config.node().cluster, 1, "", DEFAULT_NODES));
    assert!(rt; has_limits(config.node(), &DEFAULT_RAFT, 16_777_216));
    Ok(())
}

#[test]
fn refuses_a_key(rt: HostRuntime) -> Result<(), Fail> {
    let missing_node = b"[cluster]\nnode_id = 7";
    assert!(rt; is_refused(rt.alloc(), missing_node, ConfigPlace::InitialCluster)?);
    let bad_interval = b"[raft.state_machine.lease]\ncleanup_interval_ms = 0";
    assert!(rt; is_refused(rt.alloc(), bad_interval, ConfigPlace::CleanupInterval)?);
    let key = ConfigPlace::CleanupInterval.key();
    assert!(rt; key == "raft.state_machine.lease.cleanup_interval_ms");
    Ok(())
}

#[test]
fn refuses_a_second_voter(rt: HostRuntime) -> Result<(), Fail> {
    let mut source = source_of(rt.alloc(), FULL)?;
    let refused = solo_refusal(rt.alloc(), &mut source);
    assert!(rt; refused == Some(Error::Config(ConfigPlace::InitialCluster)));
    Ok(())
}

#[test]
fn tells_a_fault(rt: HostRuntime) -> Result<(), Fail> {
    let mut source = source_of(rt.alloc(), b"")?;
    source.fail_after(0);
    assert!(rt; refusal(rt.alloc(), &mut source) == Some(Error::ConfigFault));
    Ok(())
}

// The longest text, of spaces, and one that is longer by a byte.
#[test]
fn reads_the_longest_text(rt: HostRuntime) -> Result<(), Fail> {
    let mut text = Vec::new(rt.alloc());
    text.resize(1_048_576, b' ')?;
    let mut source = source_of(rt.alloc(), &text)?;
    assert!(rt; refusal(rt.alloc(), &mut source) == None);
    text.push(b' ')?;
    assert!(rt; is_refused(rt.alloc(), &text, ConfigPlace::Text)?);
    Ok(())
}
