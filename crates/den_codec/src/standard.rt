//! The default configuration.
ghost use Rattle.std.specs.Prelude.{◌≡◌, IfOk, IfErr};
ghost use Rattle.den_codec.specs.Standard.{IsStandard};
ghost use Rattle.den_codec.specs.declared.error.Error.TheVariants.{OutOfMemory};

use crate::{
    BackoffPolicy, ClusterConfig, Error, LeaseConfig, NetworkConfig, RaftConfig, RaftNodeConfig,
    WatchConfig,
};
use den_model::{Label, NodeMeta, Rows};
use std::alloc::Global;

impl RaftNodeConfig {
    /// The defaults. Its only refusal is want of memory.
    pub fn standard(alloc: Global) -> Result<RaftNodeConfig, Error>
        ensures standard { IfOk result (λ c. IsStandard c) }
        ensures refused { IfErr result (λ e. e ≡ OutOfMemory) }
    {
        let mut nodes = Vec::new(alloc);
        nodes.push(NodeMeta {
            id: 1,
            address: Label::of(alloc, "127.0.0.1:9081")?,
            role: 0,
            status: 2,
        })?;
        let cluster = ClusterConfig {
            node_id: 1,
            initial_cluster: Rows::of(nodes),
            db_root_dir: Label::of(alloc, "")?,
        };
        Ok(RaftNodeConfig {
            cluster,
            raft: RaftConfig {
                timeout_ms: 1000,
                lease: LeaseConfig {
                    enabled: false,
                    cleanup_interval_ms: 1000,
                    max_cleanup_duration_ms: 1,
                },
                watch: WatchConfig {
                    max_watcher_count: 1000,
                    watcher_buffer_size: 64,
                },
                max_log_entries: 1000,
                zombie_threshold: 3,
            },
            network: NetworkConfig {
                max_frame_size: 16_777_216,
            },
            retry: BackoffPolicy {
                max_retries: 3,
                base_delay_ms: 100,
                max_delay_ms: 1000,
            },
        })
    }
}
