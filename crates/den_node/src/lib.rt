//! A node: an engine with its disk and its clock, the builder that starts one, and who is told of its leader and members.
//!
//! `NodeBuilder` holds a configuration, and a storage engine and a state machine where they are set. `start` opens an engine
//! over them, as `Engine::begin` of `den_core` does, and keeps it with the disk and the clock as a `Node`; where it is
//! refused it hands the disk back. `Node::run` serves the frames of a link, as `serve` of `den_core` does.
//!
//! 1. Each setter sets its field alone.
//! 2. `NodeStartFailed` names the part that is not set, the state machine first: `missing_part` in specs/Building.antt. No
//!    other refusal of `build` is there, and it takes no memory.
//! 3. What `start` leaves is what `begin` leaves, of the disk that the node or the refusal holds: `Begun` in
//!    specs/Starting.antt.
//! 4. `run` sends a front of what the turns of its input answer, and all of it at Ok: specs/Running.antt.
//! 5. `begin_node` does the same over stores that were opened otherwise, and `Node::into_parts` gives all back, for an engine that is
//!    embedded.
//! 6. What a receiver of the leader or of the members finds is told by no contract.
//!
//! `LeaderNotifier::{send, subscribe}` and the two calls of `Node` that make a receiver may wait for one another, and take the
//! handle `rt` first.
//!
//!     let builder = NodeBuilder::from_node_config(config).storage_engine(storage).state_machine(machine);
//!     let mut node = builder.start(alloc, disk, core, clock)?;
//!     node.run(&mut link)?;
#![tactic(auto)]

mod builder;
mod error;
mod node;
mod notifier;
mod start;

pub use builder::NodeBuilder;
pub use error::{MissingPart, NodeError};
pub use node::{Node, NodeParts, Told};
pub use notifier::LeaderNotifier;
pub use start::{Unstarted, begin_node};
