//! An engine that a program embeds: opened over the files of a folder or over stores of one's own, and asked through a client.
//!
//! An `EmbeddedEngine` is a client over a caller, with what was known of the leader and of the members behind the opening. `start`
//! opens the files of a folder under a configuration of one voter, `start_with` reads that configuration from a source first, and
//! `start_custom` takes stores, a state machine and a core of the caller's own. Where one is refused the disk is handed back.
//!
//! 1. An opening is that of `begin_node` of `den_node`, over what the folder's files gave: `OpensFolder` and `FailsFolder` in
//!    specs/Opening.antt.
//! 2. An engine that was started is seen to lead itself where its core does, and its calls begin a history: `leader`, `fresh`,
//!    `lawful` of `start`.
//! 3. `wait_ready`, `leader_info`, `is_leader` and `node_id` answer by the core and the node of the opening: `ready_by` and
//!    `leads_itself` in specs/Answers.antt.
//! 4. `stop` makes one call, and is refused for want of memory alone. Behind one that was answered each call of the history fails, and
//!    so it stays: `HasEnded` in specs/Stopping.antt, and the law `ends_for_good`.
//! 5. What a receiver of the leader or of the members finds is told by no contract.
//!
//!     let mut engine = EmbeddedEngine::start(alloc, disk, clock, config)?;
//!     let leader = engine.wait_ready(1)?;
//!     engine.client().put(b"a", b"b")?;
//!     engine.stop()?;
#![tactic(auto)]

mod engine;
pub mod laws;
mod opening;

pub use engine::EmbeddedEngine;
pub use opening::FolderCaller;
