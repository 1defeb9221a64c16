//! Tests of what serves, by its public calls: runs of the engine over disks, links and clocks in memory.
//!
//! They stand in a crate of their own, since a crate with tests is proved twice, and apart from the tests of the
//! libraries below the engine, which need not wait for the server.
#![tactic(auto)]

#[cfg(test)]
mod configured;
#[cfg(test)]
mod drives;
#[cfg(test)]
mod forty;
#[cfg(test)]
mod leased;
#[cfg(test)]
mod requests;
#[cfg(test)]
mod server;
#[cfg(test)]
mod watch;
