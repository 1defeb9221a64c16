//! Stores, a state machine and a core of somebody's own, over which `StandaloneEngine::run_custom` serves. All are kept in
//! memory alone, and say nothing of files: what they hold is lost with the process.
//!
//! They show that the traits `LogStore`, `MetaStore`, `StorageEngine`, `StateMachine` and `Core` can be met by bodies that have
//! no part in the project's files, and the tests serve over them.
#![tactic(auto)]

mod entries;
mod log;
mod machine;
mod meta;
mod own_core;
mod storage;
mod sync;

pub use log::OwnLog;
pub use machine::OwnMachine;
pub use meta::OwnMeta;
pub use own_core::OwnCore;
pub use storage::OwnStorage;

#[cfg(test)]
mod embedded;
#[cfg(test)]
mod followed;
#[cfg(test)]
mod served;
