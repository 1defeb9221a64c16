//! Tests of the libraries below the engine by their public calls.
//!
//! They stand in a crate of their own, since a crate with tests is proved twice.
//!
//! What files are compared with is the one part outside tests: the tests of what serves use it too.
#![tactic(auto)]

mod turn;

pub use turn::{IN_A, IN_B, Pieces, Turn, behind, cut, file, holds_turn, is_slot};

#[cfg(test)]
mod config;
#[cfg(test)]
mod disk;
#[cfg(test)]
mod gate;
#[cfg(test)]
mod install;
#[cfg(test)]
mod lease;
#[cfg(test)]
mod member;
#[cfg(test)]
mod one_word;
#[cfg(test)]
mod proto;
#[cfg(test)]
mod snapshot;
#[cfg(test)]
mod state;
#[cfg(test)]
mod store;
#[cfg(test)]
mod watch;
