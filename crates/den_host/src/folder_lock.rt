//! The lock that keeps a folder to one server.
use std::fs::{File, TryLockError};
use std::io;

/// A lock on an open folder, which one handle at a time can have, in this process or another. It goes with its handle, also
/// where the process is killed.
pub trait FolderLock {
    /// Takes the lock. Answers false where another handle has it.
    fn take_lock(&self) -> io::Result<bool>;
}

impl FolderLock for File {
    fn take_lock(&self) -> io::Result<bool> {
        match self.try_lock() {
            Ok(()) => Ok(true),
            Err(TryLockError::WouldBlock) => Ok(false),
            Err(TryLockError::Error(error)) => Err(error),
        }
    }
}
