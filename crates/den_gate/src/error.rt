//! Why a call of a gate file is refused.
ghost use Rattle.std.specs.Prelude.{◌≡◌};
ghost use Rattle.den_gate.specs.declared.error.GateError.TheVariants.{OutOfMemory, StorageIoError};

use den_disk::{DiskFault, Part};
use std::alloc::{AllocError, AllocFailed};

/// Why a call of a gate file is refused, one variant a cause.
#[derive(Clone, Copy, Debug, PartialEq, Eq)]
pub enum GateError {
    OutOfMemory,
    /// The disk failed in this call.
    StorageIoError,
    /// The slot would need so many bytes, and a file has no more than the limit.
    Full { needed: u64, limit: u64 },
    /// An open region runs past the end of this file of the family. The offset is its gate's.
    DataCorruption { part: Part, offset: u64 },
}

impl From<DiskFault> for GateError {
    ghost from_gives = { λ _ e. e ≡ StorageIoError };

    fn from(_: DiskFault) -> Self {
        GateError::StorageIoError
    }
}

impl From<AllocError> for GateError {
    ghost from_gives = { λ _ e. e ≡ OutOfMemory };

    fn from(_: AllocError) -> Self {
        GateError::OutOfMemory
    }
}

impl<T: Drop> From<AllocFailed<T>> for GateError {
    ghost from_gives = { λ _ e. e ≡ OutOfMemory };

    fn from(_: AllocFailed<T>) -> Self {
        GateError::OutOfMemory
    }
}
