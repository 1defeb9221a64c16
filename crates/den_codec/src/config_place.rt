//! The places of a configuration.
ghost use Rattle.std.specs.Prelude.{◌≡◌};
ghost use Rattle.den_codec.specs.ConfigPlaces.{key};

/// What a configuration is refused for: its text, or the first key whose test fails.
#[derive(Clone, Copy, Debug, PartialEq, Eq)]
pub enum ConfigPlace {
    Text,
    NodeId,
    InitialCluster,
    DbRootDir,
    Timeout,
    LeaseEnabled,
    CleanupInterval,
    CleanupDuration,
    MaxWatchers,
    WatcherBuffer,
    MaxLogEntries,
    Zombie,
    MaxFrame,
}

impl ConfigPlace {
    /// The key as a text spells it, behind those of its tables; `text` is the text itself.
    pub fn key(self) -> &'static str
        ensures { result.now ≡ key self }
    {
        match self {
            ConfigPlace::Text => "text",
            ConfigPlace::NodeId => "cluster.node_id",
            ConfigPlace::InitialCluster => "cluster.initial_cluster",
            ConfigPlace::DbRootDir => "cluster.db_root_dir",
            ConfigPlace::Timeout => "raft.general_raft_timeout_duration_in_ms",
            ConfigPlace::LeaseEnabled => "raft.state_machine.lease.enabled",
            ConfigPlace::CleanupInterval => "raft.state_machine.lease.cleanup_interval_ms",
            ConfigPlace::CleanupDuration => "raft.state_machine.lease.max_cleanup_duration_ms",
            ConfigPlace::MaxWatchers => "raft.watch.max_watcher_count",
            ConfigPlace::WatcherBuffer => "raft.watch.watcher_buffer_size",
            ConfigPlace::MaxLogEntries => "raft.snapshot.max_log_entries_before_snapshot",
            ConfigPlace::Zombie => "raft.membership.zombie.threshold",
            ConfigPlace::MaxFrame => "network.max_frame_size",
        }
    }
}
