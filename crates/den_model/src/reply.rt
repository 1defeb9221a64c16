//! What a client is answered.
use crate::{Blob, Label, Rows};

/// The code of an answer to a client, Success where it was carried out. `code_number` in specs/Spelling.antt gives each its
/// number.
#[derive(Clone, Copy, Debug, PartialEq, Eq)]
pub enum ErrorCode {
    Success,
    ConnectionTimeout,
    InvalidAddress,
    LeaderChanged,
    JoinError,
    InvalidResponse,
    VersionMismatch,
    DiskFull,
    DataCorruption,
    StorageIoError,
    StoragePermissionDenied,
    KeyNotExist,
    NotLeader,
    StaleOperation,
    InvalidRequest,
    RateLimited,
    ClusterUnavailable,
    ProposeFailed,
    TermOutdated,
    RetryRequired,
    WatchBufferOverflow,
    General,
    Uncategorized,
}

/// Why a request that is no write or read was refused.
#[derive(Clone, Copy, Debug, PartialEq, Eq)]
pub enum Refusal {
    InvalidPrefix,
    LimitExceeded,
    FeatureNotEnabled,
}

/// The node that leads, and the address at which clients reach it.
#[derive(Debug, Drop, PartialEq, Eq)]
pub struct LeaderHint {
    pub leader_id: u32,
    pub address: Label,
}

/// The node that leads, and the term in which it does.
#[derive(Clone, Copy, Debug, PartialEq, Eq)]
pub struct LeaderInfo {
    pub leader_id: u32,
    pub term: u64,
}

/// A key and its value.
#[derive(Debug, Drop, PartialEq, Eq)]
pub struct KvEntry {
    pub key: Blob,
    pub value: Blob,
}

/// What a write or a read brought: whether the write succeeded, which a swap may not, or the keys that were found with
/// their values.
#[derive(Debug, Drop, PartialEq, Eq)]
pub enum ClientResponsePayload {
    Write { succeeded: bool },
    Read { entries: Rows<KvEntry> },
}

/// The answer to a write or a read. A wait is in milliseconds; a hint stands where another node leads.
#[derive(Debug, Drop, PartialEq, Eq)]
pub struct ClientResponse {
    pub error: ErrorCode,
    pub leader_hint: Option<LeaderHint>,
    pub retry_after_ms: Option<u64>,
    pub result: Option<ClientResponsePayload>,
}

/// A member of the cluster. Role and status are numbers of the cluster's configuration.
#[derive(Debug, Drop, PartialEq, Eq)]
pub struct NodeMeta {
    pub id: u32,
    pub address: Label,
    pub role: i32,
    pub status: i32,
}

/// The members of the cluster, the number of the change that made them so, and who leads.
#[derive(Debug, Drop, PartialEq, Eq)]
pub struct ClusterMembership {
    pub version: u64,
    pub nodes: Rows<NodeMeta>,
    pub current_leader_id: Option<u32>,
}

/// The pairs of a scan, sorted by the bytes of their keys, and the index of the last entry that the map had applied
/// then.
#[derive(Debug, Drop, PartialEq, Eq)]
pub struct ScanResult {
    pub entries: Rows<KvEntry>,
    pub revision: u64,
}

/// What a request is answered.
#[derive(Debug, Drop, PartialEq, Eq)]
pub enum Reply {
    Response(ClientResponse),
    Scan(ScanResult),
    Watching { number: u64 },
    Members(ClusterMembership),
    Refused(Refusal),
}

/// What became of a watched key.
#[derive(Clone, Copy, Debug, PartialEq, Eq)]
pub enum WatchEventType {
    Put,
    Delete,
}

/// What a watcher is told of a key: which watcher, the index of the entry, the new value, empty where the key was
/// deleted, and the old one where the watcher asked for it, else empty.
#[derive(Debug, Drop, PartialEq, Eq)]
pub struct WatchEvent {
    pub watcher: u64,
    pub revision: u64,
    pub kind: WatchEventType,
    pub key: Blob,
    pub value: Blob,
    pub prev_value: Blob,
}
