//! The words of values: how each is written as bytes and read from them. Beside them the errors and the configuration.
//! The values are `den_model`'s, and are given on.
//!
//! `Word::write` appends a value's word, and appends nothing on refusal. `Word::read` answers a value exactly where the
//! whole slice is its word: `some`, `none` of `read`. Both are proved once, from what an impl owes:
//!
//! 1. `put` appends the word, which fits its fields: `ok`, `fits`.
//! 2. `take` reads what the reading of `den_model` reads, and gives the bytes behind it.
//! 3. What is read is a word, each word is read, and what is written is a word: the laws `found`, `again`, `written`.
//!
//! docs/FORMATS.md has the bytes. An impl stands in this crate where its type is `den_model`'s, beside the type
//! elsewhere.
//!
//!     let mut bytes = Vec::new(alloc);
//!     entry.write(&mut bytes)?;
//!     let again = Entry::read(alloc, bytes.as_slice())?;
#![tactic(auto)]

mod config;
mod config_place;
mod error;
mod fields;
mod log_words;
mod reads;
mod region_words;
mod reply_words;
mod request_words;
mod standard;
mod state_words;
mod word;

pub use config::{
    BackoffPolicy, ClusterConfig, LeaseConfig, NetworkConfig, RaftConfig, RaftNodeConfig,
    SoloConfig, WatchConfig,
};
pub use config_place::ConfigPlace;
pub use den_model::{
    ApplyResult, Blob, Change, ClientReadRequest, ClientResponse, ClientResponsePayload,
    ClientWriteRequest, ClusterMembership, Command, Entry, ErrorCode, Frame, HardState, Held,
    JournalRecord, KvEntry, Label, LeaderHint, LeaderInfo, LogId, LogRegion, NewEntries, NodeMeta,
    Positive, ReadConsistencyPolicy, Refusal, Replacement, Reply, Request, Rows, ScanResult,
    StateRegion, StoredPair, VotedFor, WatchEvent, WatchEventType, Watcher, WriteOperation,
};
pub use error::Error;
pub use reads::ReadError;
pub use request_words::read_request;
pub use state_words::write_records;
pub use word::{Word, list_size, put_list, take_list};
