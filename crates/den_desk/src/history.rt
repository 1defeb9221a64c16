//! Calls, what they are answered, and finished calls.
use den_codec::{Frame, Reply, Rows, WatchEvent};
use den_watch::WatcherHandle;

/// What a caller asks of a desk.
#[derive(Debug, Drop)]
pub enum Call {
    /// Makes the turn of a frame.
    Serve(Frame),
    /// Takes what waits for a watcher.
    Take(WatcherHandle),
    /// Ends a watch, with what waits for it.
    Unregister(WatcherHandle),
    /// Shows at most `most` finished calls, from the place `from` on.
    Look { from: u64, most: u64 },
    /// Ends the desk: each later call fails.
    Stop,
}

/// What a finished call was answered.
#[derive(Debug, Drop)]
pub enum Answer {
    Reply(Reply),
    /// What waited for the watcher.
    Events(Rows<WatchEvent>),
    /// The watcher has ended, since an event found no room, and nothing waits for it.
    Overflow,
    /// Nobody watches under this number.
    NotRegistered,
    /// Whether the watch stood.
    Unregistered(bool),
    /// So many finished calls stand there.
    Looked { from: u64, count: u64 },
    /// The desk has ended.
    Stopped,
}

/// Why a finished call failed. A full disk has the bytes that a file needed, and the most that it may have.
#[derive(Clone, Copy, Debug, PartialEq, Eq)]
pub enum FailKind {
    StorageIoError,
    DiskFull { needed: u64, limit: u64 },
    OutOfMemory,
    Stopped,
}

/// A call with what it came to, as a history keeps it. The moment is in milliseconds.
#[derive(Debug, Drop)]
pub struct Finished {
    pub caller: u64,
    pub call: Call,
    pub moment: u64,
    pub outcome: Result<Answer, FailKind>,
}

/// An answer, with the place of its entry, and the entries that a look asked for.
#[derive(Debug, Drop)]
pub struct Answered {
    pub place: u64,
    pub answer: Answer,
    pub looked: Rows<Finished>,
}

/// Why a call is not answered.
#[derive(Clone, Copy, Debug, PartialEq, Eq)]
pub enum CallError {
    /// The history ended at this place, by a failed step or a stop.
    Failed { place: u64, kind: FailKind },
    /// Without a place the call is not in the history, and all is as it was.
    OutOfMemory { place: Option<u64> },
}

/// Where a history ended, and why.
#[derive(Clone, Copy, Debug, PartialEq, Eq)]
pub struct End {
    pub place: u64,
    pub kind: FailKind,
}
