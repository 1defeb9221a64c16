//! Tests of clients, of an embedded engine and of a builder of nodes, by their public calls, over disks and clocks in memory.
//!
//! They stand in a crate of their own, since a crate with tests is proved twice.
#![tactic(auto)]

#[cfg(test)]
mod calls;
#[cfg(test)]
mod embedded;
#[cfg(test)]
mod nodes;
