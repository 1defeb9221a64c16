//! Who watches, and what each watcher is told.
//!
//! A watcher watches a key, or each key that begins with a prefix. A change of a key gives one event for each watcher that
//! sees it, in the order of their registration: `events_of`. An owner that sends them at once needs no more. Else `deliver`
//! puts them where each watcher's wait until they are taken: `take`. So many events may wait for a watcher and no more: at
//! one more the event is dropped and the watcher ends, gets no further event, and says so once what waits was taken.
//!
//! Invariants, and where each stands:
//!
//! 1. Numbers rise in the order of registration and are never given twice: `registering` in specs/Registry.antt, which
//!    counts all registrations, also those that ended. A registry keeps that they rise: `RiseUpTo` in specs/Queues.antt.
//! 2. What waits for a watcher are the events that name it, in their order: `kept` in specs/Registry.antt. A registry keeps
//!    that they are no more than may wait: `AllFit` in specs/Queues.antt.
//! 3. What the takes of a watcher gave, with what waits for it, is what it saw since its registration, before the first
//!    event that found no room: `successive` of `take`, over specs/Takes.antt.
//! 4. A refusal changes nothing. To tell of a change, a first walk notes for each watcher what the change is to it, with a
//!    place for its event, and may be refused; a second does what was noted and takes no memory: `staged` and `settled` in
//!    specs/Queues.antt.
//!
//!     let mut registry = WatchRegistry::new(alloc, 64, 1000);
//!     let watcher = registry.register_prefix(Blob::of(alloc, b"/jobs/")?, false)?;
//!     registry.deliver(&change)?;
//!     let events = registry.take(&watcher)?;
#![tactic(auto)]

mod error;
mod handle;
mod queue;
mod queues;
mod registry;

pub use error::WatchError;
pub use handle::WatcherHandle;
pub use registry::WatchRegistry;
