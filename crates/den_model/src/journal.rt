//! What the journal of the map records.
use crate::{Blob, Positive};

/// What an entry did to the map, or a cleanup at a moment. An expiry of 0 is none.
#[derive(Debug, Drop, PartialEq, Eq)]
pub enum JournalRecord {
    Noop {
        index: Positive,
        term: u64,
    },
    Insert {
        index: Positive,
        term: u64,
        key: Blob,
        value: Blob,
        expiry: u64,
    },
    Delete {
        index: Positive,
        term: u64,
        key: Blob,
    },
    CasFailed {
        index: Positive,
        term: u64,
    },
    Cleanup {
        moment: Positive,
    },
}
