//! Why a call ends early.
ghost use Rattle.std.specs.Prelude.{◌≡◌};
ghost use Rattle.den_codec.specs.declared.error.Error.TheVariants.{OutOfMemory, StorageIoError, LinkFault, Config, ConfigFault};

use crate::ConfigPlace;
use std::alloc::{AllocError, AllocFailed};
use thiserror::Error;

/// Why a call ends early, one variant a cause.
#[derive(Clone, Copy, Debug, PartialEq, Eq, Error)]
pub enum Error {
    #[error("out of memory")]
    OutOfMemory,
    #[error("storage fault")]
    StorageIoError,
    /// A file would need so many bytes, and may have no more than the limit.
    #[error("disk limit reached")]
    DiskFull { needed: u64, limit: u64 },
    #[error("link fault")]
    LinkFault,
    /// The file of this number is corrupt at this byte.
    #[error("data corruption in file {place} at {offset}")]
    DataCorruption { place: u8, offset: u64 },
    #[error("lease is not enabled")]
    FeatureNotEnabled,
    #[error("term or index exhausted")]
    ProposeFailed,
    /// The entry of this index does not stand above the one before it.
    #[error("entry {index} is out of order")]
    UnorderedChunk { index: u64 },
    /// The configuration is not valid at this place.
    #[error("bad configuration at {}", .0.key())]
    Config(ConfigPlace),
    #[error("configuration cannot be read")]
    ConfigFault,
    /// The bytes are no word of a state machine's part.
    #[error("state machine error")]
    StateMachineError,
}

impl From<AllocError> for Error {
    ghost from_gives = { λ _ e. e ≡ OutOfMemory };

    fn from(_: AllocError) -> Self {
        Error::OutOfMemory
    }
}

impl<T: Drop> From<AllocFailed<T>> for Error {
    ghost from_gives = { λ _ e. e ≡ OutOfMemory };

    fn from(_: AllocFailed<T>) -> Self {
        Error::OutOfMemory
    }
}

impl From<den_disk::LinkFault> for Error {
    ghost from_gives = { λ _ e. e ≡ LinkFault };

    fn from(_: den_disk::LinkFault) -> Self {
        Error::LinkFault
    }
}

impl From<den_disk::DiskFault> for Error {
    ghost from_gives = { λ _ e. e ≡ StorageIoError };

    fn from(_: den_disk::DiskFault) -> Self {
        Error::StorageIoError
    }
}

impl From<den_disk::SourceFault> for Error {
    ghost from_gives = { λ _ e. e ≡ ConfigFault };

    fn from(_: den_disk::SourceFault) -> Self {
        Error::ConfigFault
    }
}

impl From<ConfigPlace> for Error {
    ghost from_gives = { λ place e. e ≡ Config place };

    fn from(place: ConfigPlace) -> Self {
        Error::Config(place)
    }
}
