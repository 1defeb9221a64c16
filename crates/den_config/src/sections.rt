//! The parts of a configuration.
ghost use Rattle.std.specs.Prelude.{◌≡◌, IfOk, IfErr};
ghost use Rattle.toml.specs.View.{view};
ghost use Rattle.den_config.specs.Refusals.{IsRefusal};
ghost use Rattle.den_config.specs.Rows.{cluster_of, cluster_values, lease_of, lease_values, watch_of, watch_values, raft_of, raft_values, config_of, values_of};

use crate::nodes::named_cluster;
use crate::rows::{flag, label_of, natural, word};
use den_codec::{
    BackoffPolicy, ClusterConfig, ConfigPlace, Error, LeaseConfig, NetworkConfig, RaftConfig,
    RaftNodeConfig, WatchConfig,
};
use std::alloc::Global;
use toml::Value;

#[tactic(auto, using(crate::proofs::Steps::and_then_ok, crate::proofs::Steps::and_then_err), unfolding(crate::specs::Rows::cluster_of))]
fn cluster(alloc: Global, root: &Value) -> Result<ClusterConfig, Error>
    ensures given { IfOk result (λ c. cluster_of (view root.now) ≡ Ok (cluster_values c)) }
    ensures refused { IfErr result (IsRefusal (cluster_of (view root.now))) }
{
    let node_id = word(root, ConfigPlace::NodeId, 0, 1)?;
    let mut cluster = named_cluster(alloc, root, node_id)?;
    cluster.db_root_dir = label_of(alloc, root, ConfigPlace::DbRootDir)?;
    Ok(cluster)
}

#[tactic(auto, using(crate::proofs::Steps::and_then_ok, crate::proofs::Steps::and_then_err), unfolding(crate::specs::Rows::lease_of))]
fn lease(root: &Value) -> Result<LeaseConfig, ConfigPlace>
    ensures given { IfOk result (λ c. lease_of (view root.now) ≡ Ok (lease_values c)) }
    ensures refused { IfErr result (λ key. lease_of (view root.now) ≡ Err key) }
{
    let enabled = flag(root, ConfigPlace::LeaseEnabled, false)?;
    let cleanup_interval_ms = natural(root, ConfigPlace::CleanupInterval, 1, 1000)?;
    let max_cleanup_duration_ms = natural(root, ConfigPlace::CleanupDuration, 0, 1)?;
    Ok(LeaseConfig {
        enabled,
        cleanup_interval_ms,
        max_cleanup_duration_ms,
    })
}

#[tactic(auto, using(crate::proofs::Steps::and_then_ok, crate::proofs::Steps::and_then_err), unfolding(crate::specs::Rows::watch_of))]
fn watch(root: &Value) -> Result<WatchConfig, ConfigPlace>
    ensures given { IfOk result (λ c. watch_of (view root.now) ≡ Ok (watch_values c)) }
    ensures refused { IfErr result (λ key. watch_of (view root.now) ≡ Err key) }
{
    let max_watcher_count = word(root, ConfigPlace::MaxWatchers, 0, 1000)?;
    let watcher_buffer_size = word(root, ConfigPlace::WatcherBuffer, 1, 64)?;
    Ok(WatchConfig {
        max_watcher_count,
        watcher_buffer_size,
    })
}

#[tactic(auto, using(crate::proofs::Steps::and_then_ok, crate::proofs::Steps::and_then_err), unfolding(crate::specs::Rows::raft_of))]
fn raft(root: &Value) -> Result<RaftConfig, ConfigPlace>
    ensures given { IfOk result (λ c. raft_of (view root.now) ≡ Ok (raft_values c)) }
    ensures refused { IfErr result (λ key. raft_of (view root.now) ≡ Err key) }
{
    let timeout_ms = natural(root, ConfigPlace::Timeout, 0, 1000)?;
    let lease = lease(root)?;
    let watch = watch(root)?;
    let max_log_entries = natural(root, ConfigPlace::MaxLogEntries, 1, 1000)?;
    let zombie_threshold = word(root, ConfigPlace::Zombie, 0, 3)?;
    Ok(RaftConfig {
        timeout_ms,
        lease,
        watch,
        max_log_entries,
        zombie_threshold,
    })
}

/// The configuration that a table gives.
#[tactic(auto, using(crate::proofs::Steps::and_then_ok, crate::proofs::Steps::and_then_err), unfolding(crate::specs::Rows::config_of))]
pub(crate) fn configured(alloc: Global, root: &Value) -> Result<RaftNodeConfig, Error>
    ensures given { IfOk result (λ c. config_of (view root.now) ≡ Ok (values_of c)) }
    ensures refused { IfErr result (IsRefusal (config_of (view root.now))) }
{
    let cluster = cluster(alloc, root)?;
    let raft = raft(root)?;
    let max_frame_size = word(root, ConfigPlace::MaxFrame, 1, 16_777_216)?;
    Ok(RaftNodeConfig {
        cluster,
        raft,
        network: NetworkConfig { max_frame_size },
        retry: BackoffPolicy {
            max_retries: 3,
            base_delay_ms: 100,
            max_delay_ms: 1000,
        },
    })
}
