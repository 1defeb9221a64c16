//! The messages between clients and servers.
use den_model::{Blob, ClientResponsePayload, Label, Rows};

/// What a write asks for. A time to live is in seconds, 0 for none.
#[derive(Debug, Drop, PartialEq, Eq)]
pub enum Operation {
    Insert {
        key: Blob,
        value: Blob,
        ttl_secs: u64,
    },
    Delete {
        key: Blob,
    },
    CompareAndSwap {
        key: Blob,
        expected_value: Option<Blob>,
        new_value: Blob,
    },
}

/// A write's operation, or none.
#[derive(Debug, Drop, PartialEq, Eq)]
pub struct WriteCommand {
    pub operation: Option<Operation>,
}

/// A write of a client.
#[derive(Debug, Drop, PartialEq, Eq)]
pub struct WriteRequest {
    pub client_id: u32,
    pub command: Option<WriteCommand>,
}

/// A read of keys. The policy is a number: 1 for a linearizable read, 2 for one by a lease, 3 for one that may be old.
#[derive(Debug, Drop, PartialEq, Eq)]
pub struct ReadRequest {
    pub client_id: u32,
    pub keys: Rows<Blob>,
    pub consistency_policy: Option<i32>,
}

/// What an answer tells beside its code: a wait in milliseconds, the leader's id in decimal and its address, and a
/// text for whoever looks into messages.
#[derive(Debug, Drop, PartialEq, Eq)]
pub struct ErrorMetadata {
    pub retry_after_ms: Option<u64>,
    pub leader_id: Option<Label>,
    pub leader_address: Option<Label>,
    pub debug_message: Option<Label>,
}

/// An answer: the number of its code, and what it brought.
#[derive(Debug, Drop, PartialEq, Eq)]
pub struct Response {
    pub error: i32,
    pub metadata: Option<ErrorMetadata>,
    pub success_result: Option<ClientResponsePayload>,
}

/// The code of an answer, in the order of the numbers, from 0.
#[derive(Clone, Copy, Debug, PartialEq, Eq)]
pub enum ErrorCode {
    Success,
    ConnectionTimeout,
    InvalidAddress,
    LeaderChanged,
    JoinError,
    InvalidResponse,
    VersionMismatch,
    DiskFull,
    DataCorruption,
    StorageIoError,
    StoragePermissionDenied,
    KeyNotExist,
    NotLeader,
    StaleOperation,
    InvalidRequest,
    RateLimited,
    ClusterUnavailable,
    ProposeFailed,
    TermOutdated,
    RetryRequired,
    WatchBufferOverflow,
    General,
    Uncategorized,
}
