//! Why a call of a registry is refused.
ghost use Rattle.std.specs.Prelude.{◌≡◌};
ghost use Rattle.den_watch.specs.declared.error.WatchError.TheVariants.{OutOfMemory};

use std::alloc::{AllocError, AllocFailed};
use thiserror::Error;

/// Why a call of a registry is refused, one variant a cause.
#[derive(Clone, Copy, Debug, PartialEq, Eq, Error)]
pub enum WatchError {
    #[error("out of memory")]
    OutOfMemory,
    /// A prefix begins and ends with `/`.
    #[error("prefix must start and end with '/'")]
    InvalidPrefix,
    /// There are as many watchers as there may be, or no number is left.
    #[error("watcher limit exceeded")]
    LimitExceeded,
    #[error("watcher not registered")]
    NotRegistered,
    /// An event found no room, and all that waited was taken.
    #[error("watch buffer overflow")]
    WatchBufferOverflow,
}

impl From<AllocError> for WatchError {
    ghost from_gives = { λ _ e. e ≡ OutOfMemory };

    fn from(_: AllocError) -> Self {
        WatchError::OutOfMemory
    }
}

impl<T: Drop> From<AllocFailed<T>> for WatchError {
    ghost from_gives = { λ _ e. e ≡ OutOfMemory };

    fn from(_: AllocFailed<T>) -> Self {
        WatchError::OutOfMemory
    }
}
