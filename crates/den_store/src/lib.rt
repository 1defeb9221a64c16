//! The log store and the store of the hard state: traits, and bodies of both over journals.
//!
//! A `LogStore` has a boundary, up to which entries were purged, and entries by index, all above it. A `MetaStore` has the
//! last hard state that was saved. A writing call appends one region to the store's journal, and a purge and a hard state
//! have the journal written anew, in the family's other slot. So a crash inside leaves the old log or hard state, or the
//! new one. A `StorageEngine` has both, and what is done to the one leaves the other.
//!
//! Invariants:
//!
//! 1. The entries of a log rise, and stand above its boundary: the ghost field `order` of `HeldLog`, the law `in_order`.
//! 2. The regions of a family's slot in use give the log or the hard state in memory: `rests` of `Shown` (den_journal), and
//!    the law `lies` of both traits: only the family's own files count, and a crash of files at rest gives it.
//! 3. Memory is taken before a region is written, so that want of memory changes nothing: `lost` of `log_change`,
//!    `purge_change` and `state_change` (specs/Changes.antt) is empty.
//! 4. Each entry that is held fits its word, so that the log can be written anew: the ghost field `fits` of `HeldLog`.
//! 5. After a refusal of the disk a store is of no more use, and is opened anew: `failed` of `IsRefused` (den_journal).
//! 6. A store in files says what a call leaves of the family's slots, which the traits do not speak of: `region` and
//!    `regions` of its calls, by `AddsRegion` and `WritesAnew` (specs/Regions.antt).
//!
//!     let mut log = FileLogStore::new(alloc, &mut disk)?;
//!     log.persist_entries(&mut disk, entries.as_slice())?;
//!     let held = log.get_entries(1, 9)?;
#![tactic(auto)]

mod copies;
mod engine;
mod held_log;
mod last_state;
mod log_store;
mod meta_store;
mod stores;

pub use engine::{FileStorageEngine, StorageEngine};
pub use log_store::FileLogStore;
pub use meta_store::FileMetaStore;
pub use stores::{LogStore, MetaStore};
