//! Who watches, and what is told of a write.
use crate::{Blob, WatchEventType};

/// Who watches: a key, or each key that begins with it.
#[derive(Debug, Drop, PartialEq, Eq)]
pub struct Watcher {
    /// Watchers are numbered from 1 in the order of their registration.
    pub number: u64,
    pub key: Blob,
    pub prefix: bool,
    /// Whether it is told the value that was there before.
    pub prev_kv: bool,
}

/// What an entry did to a key: the index of the entry, what became of the key, its new value, empty where it was deleted,
/// and the one before, if the key was held.
#[derive(Debug, Drop, PartialEq, Eq)]
pub struct Change {
    pub index: u64,
    pub kind: WatchEventType,
    pub key: Blob,
    pub value: Blob,
    pub prev: Option<Blob>,
}
