//! Who is a member of the cluster, which peers fail, and how a peer is reached.
//!
//! `InnerState` holds the nodes under their ids, in the order of the ids, and the number of the change that made them so. What a
//! change makes of them is a definition that computes, as is each query; the calls name these and add nothing. `RaftMembership`
//! puts the nodes, the failures of the peers and the channels to them together for one node, and tells receivers of the nodes.
//! `task_with_exponential_backoff` tries a task again and again. No call starts a thread; those of `MembershipGuard` and of
//! `Latest` and its receivers, which threads share, may wait for one another, as may the two of `RaftMembership` that send a
//! snapshot and make a receiver. A call that may wait takes the handle `rt` first.
//!
//! Where to find what:
//!
//! - `utils`: majorities, roles by their numbers, addresses, with specs/Numbers.antt and specs/Addresses.antt.
//! - `health`: which peers fail, as a count for each: `failed` and `signal_of` in specs/Health.antt.
//! - `node_status`, `change`: what a node may do, and the changes that there are.
//! - `inner`, `changes`: the nodes, and changes as the log has them: specs/Members.antt and specs/Changes.antt.
//! - `leading`: changes that a leader asks for, each refusal in its order: `leader_answer` and `members_after` in
//!   specs/Leading.antt.
//! - `queries`, `node_filter`: what is asked of the nodes, as filters: specs/Queries.antt.
//! - `connector`, `connection_cache`: how a channel is made, and which are kept: specs/Connecting.antt and specs/Cache.antt.
//! - `snapshot`: who is a member and who learns, as receivers are told: `snapshot_of` in specs/Snapshots.antt.
//! - `membership`: all of this for one node: specs/Raft.antt.
//! - `guard`: the nodes behind a lock, for threads that share them.
//! - `latest`: one value that is sent again and again, and receivers that find the latest.
//! - `backoff`: tries of a task with pauses between them: `Tries` and `pauses_of` in specs/Backoff.antt.
//!
//! What holds of every call:
//!
//! 1. Where it may be refused for want of memory, it is answered as its definition says, or refused so with nothing changed:
//!    `Answers` in specs/Answers.antt. A call that takes no memory has no such answer: `Comes`.
//! 2. On any other `Err` nothing changes, but that a batch of promotions which meets a node that is not held has promoted exactly
//!    those before it: `promoted_all`.
//! 3. A fault of a connector comes only where its count rose in the call.
//! 4. What a lock holds when a call takes it is told by no contract: so it is not said what a receiver finds, or what a guard's
//!    nodes are between two calls. What a closure makes of it is said, at some value.
//!
//! Worked rows are computed from the definitions and compared, in proofs/WorkedMembers.antt.
//!
//!     let mut membership: RaftMembership<u64> = RaftMembership::new(alloc, 1, nodes, &config)?;
//!     membership.add_learner(2, Label::of(alloc, "node-2.test:8080")?, NodeStatus::Promotable)?;
//!     let (channel, signal) = membership.get_peer_channel(&mut connector, 2, ConnectionType::Data, now)?;
#![tactic(auto)]

mod backoff;
mod change;
mod changes;
mod connection_cache;
mod connector;
mod error;
mod guard;
mod health;
mod inner;
mod latest;
mod leading;
mod membership;
mod node_filter;
mod node_status;
mod queries;
mod snapshot;
mod utils;

pub use backoff::task_with_exponential_backoff;
pub use change::{
    ClusterConfChangeRequest, ClusterConfUpdateResponse, ConfOutcome, MembershipChange, NodeChange,
};
pub use connection_cache::ConnectionCache;
pub use connector::{ConnectFault, ConnectionType, Connector, ListConnector};
pub use error::{MemberError, MembershipError};
pub use guard::MembershipGuard;
pub use health::{HealthMonitor, RaftHealthMonitor};
pub use inner::InnerState;
pub use latest::{Latest, LatestReceiver};
pub use membership::RaftMembership;
pub use node_status::NodeStatus;
pub use snapshot::MembershipSnapshot;
pub use utils::{
    address_str, collect_ids, find_nearest_lower_number, is_candidate, is_follower, is_leader,
    is_learner, is_majority, majority_count,
};
