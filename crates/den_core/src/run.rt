//! The run's part, as an engine holds it.
use den_codec::{ClusterMembership, LeaderHint};
use den_watch::WatchRegistry;

/// What a run has beside its files: who watches and what waits for them, the moment of the last cleanup, the members; the
/// core's role and where it sends callers that it does not serve; whether a lease is configured, and the milliseconds
/// between two cleanups. `running_seen` in specs/Parts.antt says what the definitions see of it.
#[derive(Drop)]
pub struct Run {
    pub(crate) registry: WatchRegistry,
    pub(crate) cleaned: Option<u64>,
    pub(crate) members: ClusterMembership,
    pub(crate) role: i32,
    pub(crate) hint: Option<LeaderHint>,
    pub(crate) lease: bool,
    pub(crate) interval: u64,
}
