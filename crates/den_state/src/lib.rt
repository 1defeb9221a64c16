//! The state machine: a map of pairs and expiries over its journal in files, with the mark that is applied and the one that
//! is stored.
//!
//! `StateMachine` is the trait, and `FileStateMachine` its body: a journal (den_journal) of the map with the stored mark
//! (`StoredMap`), and beside it the applied mark, whether a lease is configured, whether it runs, and what was last said of
//! a snapshot. A chunk of entries is one region of their records, a mark one region, a cleanup one region. Where 1,000
//! records follow the last beginning, the call that added the last of them writes the map anew: a checkpoint. A reset writes
//! the journal anew as a beginning with no entry.
//!
//! A snapshot is stored as the one word of the Snapshot family's files (den_snapshot, and `write_one` of den_journal), and
//! from there it is put in the map's place: its map is written as a checkpoint into the slot that is not in use, which takes
//! the old one's place in one step. Another server's snapshot gets there by its files.
//!
//! What any state machine keeps is said by the trait, and what this one keeps in its slots by the clauses of
//! `FileStateMachine` (specs/Regions.antt): one region at each change, and a checkpoint exactly where 1,000 records follow.
//!
//! Invariants:
//!
//! 1. The regions of the State family's slot in use give pairs, expiries and the stored mark in memory: `rests` of
//!    `state_shown` (specs/FileState.antt). The same regions give the count of records behind the last Begin region.
//! 2. The map differs from what its files give in the mark alone, which is never below the stored one: the laws `seen` and
//!    `below`, the ghost field `below` of `FileStateMachine`.
//! 3. A chunk out of order, or with a time to live where no lease is configured, changes nothing: `turned_away`.
//! 4. A crash inside a call leaves the old stored map or the new one: `writes`.
//! 5. Want of memory behind the write of a chunk or a cleanup ends the machine, with the change in its files: `IsLost`
//!    (den_journal).
//! 6. A checkpoint is the stored mark and all pairs with their expiries, in pages (specs/Checkpoint.antt). It is written into
//!    the slot that is not in use; until its commit the other one stands (`IsWriting`, `Steps`), and from then on no record
//!    follows its beginning (`short`).
//! 7. A crash inside a call that stores a snapshot leaves the one that stood there, or the new one: `kept` of `Generates`. A
//!    crash inside one that puts it in the map's place leaves the old map or the new one after its cleanup: `crash` of
//!    `FileStateMachine::apply_snapshot_from_file`. A snapshot that is carried to another server gives the same map there:
//!    `snapshots_are_carried`.
//! 8. The applied mark moves with the map, or not at all: `kept` of `put`.
//!
//!     let mut machine = FileStateMachine::new(alloc, &mut disk, None)?;
//!     let results = machine.apply_chunk(&mut disk, chunk)?;
//!     machine.close(&mut disk)?;
#![tactic(auto)]

mod checkpoint;
mod cleanup;
mod file_machine;
mod laws;
mod machine;
mod snapshots;
mod stored_map;

pub use file_machine::{FileStateMachine, SnapshotMetadata};
pub use laws::snapshots_are_carried;
pub use machine::StateMachine;
