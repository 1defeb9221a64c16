//! What a watcher is asked by.
/// A watcher that was registered, by its number. It is no copy of another: who has it may take its events.
#[derive(Debug, Drop, PartialEq, Eq)]
pub struct WatcherHandle {
    pub id: u64,
}
