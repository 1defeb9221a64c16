//! The map in memory with its mark: what entries, records and regions make of it, and the records of a chunk. No disk.
//!
//! `Map` is seen as the state of the definitions: pairs and expiries as tables, and the mark, the place of the last entry
//! that they hold. Its invariant is that each key that expires has a pair and a moment, and stands once among the expiries.
//! Behind the tables stand ordered maps: a look-up and a change cost O(log n), a cleanup O(log n) for each key that is due, a
//! scan the keys that it finds.
//!
//! - `Map::add` folds one more region of a journal, where it is lawful there; `Map::follow` carries out one that is known to be.
//! - `Map::journal` makes the records, the results and the region of a chunk, and leaves the map as it is.
//! - `Map::page` gives the pairs one page after the other, as a checkpoint holds them; `Map::stored_pairs` gives all of
//!   them, and `Map::add_pairs` takes pairs on.
//! - `Map::clean` carries out a cleanup; `Map::has_due` and `Map::due_keys` say beforehand what it removes.
#![tactic(auto)]

mod chunk;
mod fold;
mod map;
mod pages;
mod writes;

pub use chunk::{Journaled, asks_lease, has_ttl, out_of_order};
pub use fold::tail_after;
pub use map::Map;
pub use pages::last_key;
