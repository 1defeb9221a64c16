//! Snapshots of the map: all pairs with their expiries under a mark, as one word. No disk.
//!
//! A `Snapshot` is what a server hands to another one, or keeps in a file, in place of the log up to a mark: the place
//! of the last entry that the pairs hold. It is seen as the `Taken` of the definitions. Its invariant is that its keys
//! rise, so a snapshot has one word, and each key stands in it once.
//!
//! - `Snapshot::of_map` takes a snapshot of a map, under a mark that its caller gives.
//! - `Snapshot::to_map` gives the map again, under a mark that its caller gives: the snapshot's own, or another one.
//! - `Word` writes it and reads it (docs/FORMATS.md has the bytes). What is read is refused where its keys do not rise.
//! - `Snapshot::holds_expiry` says beforehand whether its map has a key that expires.
//!
//! Three laws are contracts of functions that do nothing: bytes are read as a snapshot exactly where they are its word
//! (`snapshot_words_are_read`), a snapshot of a map gives the map (`snapshots_give_the_map`), and a snapshot is that of
//! the map which it gives (`maps_give_the_snapshot`).
//!
//!     let mut bytes = Vec::new(alloc);
//!     Snapshot::of_map(alloc, &map, map.mark())?.write(&mut bytes)?;
//!     if let Some(snapshot) = Snapshot::read(alloc, bytes.as_slice())? {
//!         let again = snapshot.to_map(alloc, snapshot.mark())?;
//!     }
#![tactic(auto)]

mod laws;
mod snapshot;

pub use laws::{maps_give_the_snapshot, snapshot_words_are_read, snapshots_give_the_map};
pub use snapshot::Snapshot;
