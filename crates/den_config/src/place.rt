//! Where a key leads in a table.
ghost use Rattle.std.specs.Prelude.{◌≡◌, codes};
ghost use Rattle.toml.specs.View.{view};
ghost use Rattle.den_config.specs.Places.{standing, below, holds, place};

use den_codec::ConfigPlace;
use toml::Value;

/// What stands where a key leads: nothing, a value, or no table where one is to hold the key.
#[derive(Clone, Copy)]
pub(crate) enum Place<'a> {
    Missing,
    Holds(&'a Value),
    Blocked,
}

/// The place of a key in the table that stands at a place.
pub(crate) fn below<'a>(at: Place<'a>, key: &str) -> Place<'a>
    ensures { standing result ≡ below key.now (standing at.entry) }
{
    match at {
        Place::Missing => Place::Missing,
        Place::Holds(value) => below_value(value, key),
        Place::Blocked => Place::Blocked,
    }
}

fn below_value<'a>(value: &'a Value, key: &str) -> Place<'a>
    ensures { standing result ≡ below key.now (holds (view value.now)) }
{
    match value.get(key) {
        Some(found) => Place::Holds(found),
        None => {
            if value.is_table() {
                Place::Missing
            } else {
                Place::Blocked
            }
        }
    }
}

/// The place of a key of the configuration.
#[tactic(auto, unfolding(crate::specs::Places::place))]
pub(crate) fn place_of(root: &Value, key: ConfigPlace) -> Place<'_>
    ensures { standing result ≡ place key (view root.now) }
{
    let root = Place::Holds(root);
    match key {
        ConfigPlace::Text => root,
        ConfigPlace::NodeId => below(below(root, "cluster"), "node_id"),
        ConfigPlace::InitialCluster => below(below(root, "cluster"), "initial_cluster"),
        ConfigPlace::DbRootDir => below(below(root, "cluster"), "db_root_dir"),
        ConfigPlace::Timeout => below(below(root, "raft"), "general_raft_timeout_duration_in_ms"),
        ConfigPlace::LeaseEnabled => below(lease(root), "enabled"),
        ConfigPlace::CleanupInterval => below(lease(root), "cleanup_interval_ms"),
        ConfigPlace::CleanupDuration => below(lease(root), "max_cleanup_duration_ms"),
        ConfigPlace::MaxWatchers => below(watch(root), "max_watcher_count"),
        ConfigPlace::WatcherBuffer => below(watch(root), "watcher_buffer_size"),
        ConfigPlace::MaxLogEntries => below(
            below(below(root, "raft"), "snapshot"),
            "max_log_entries_before_snapshot",
        ),
        ConfigPlace::Zombie => below(
            below(below(below(root, "raft"), "membership"), "zombie"),
            "threshold",
        ),
        ConfigPlace::MaxFrame => below(below(root, "network"), "max_frame_size"),
    }
}

fn lease(root: Place<'_>) -> Place<'_>
    ensures { standing result ≡ below (codes "lease") (below (codes "state_machine") (below (codes "raft") (standing root.entry))) }
{
    below(below(below(root, "raft"), "state_machine"), "lease")
}

fn watch(root: Place<'_>) -> Place<'_>
    ensures { standing result ≡ below (codes "watch") (below (codes "raft") (standing root.entry)) }
{
    below(below(root, "raft"), "watch")
}
