//! A map keyed by bytes, seen as its table: the pairs in the order of their keys, by the words of tables (`at`, `set`,
//! `unset`). It stands on the ordered map of the standard library, so that a look-up, an insert and a removal cost
//! O(log n), and a walk can begin at any key.
#![tactic(auto)]

mod byte_map;

pub use byte_map::ByteMap;
