//! A log in memory alone.
ghost use Rattle.std.specs.Prelude.{◌≡◌, true, IfErr, OnOk};
ghost use Rattle.den_codec.specs.declared.error.Error.TheVariants.{OutOfMemory};
ghost use Rattle.den_model.specs.Entries.{begin_from, rise_above};
ghost use Rattle.den_model.specs.Log.{empty_log, floor, replaced};
ghost use Rattle.den_store.specs.Order.{IsInOrder};

use crate::entries::{cut_from, cut_to, first_index, found, joined, picked};
use crate::sync::sync;
use den_codec::{Entry, Error, LogId, Rows};
use den_disk::Disk;
use den_store::LogStore;
use std::alloc::Global;

/// A boundary, and the entries above it in the order of their indices.
#[derive(Drop)]
pub struct OwnLog {
    alloc: Global,
    boundary: Option<LogId>,
    entries: Vec<Entry>,
    // A sync of the disk failed.
    failed: bool,
    ghost order: { IsInOrder (record { boundary = boundary; entries = entries.items }) },
}

impl OwnLog {
    ghost use Rattle.den_own.specs.Logs.{log_of, log_shown};

    /// A log without an entry.
    pub fn new(alloc: Global) -> OwnLog
        ensures log { log_of result ≡ empty_log }
        ensures ready { (log_shown result).ready }
    {
        OwnLog {
            alloc,
            boundary: None,
            entries: Vec::new(alloc),
            failed: false,
        }
    }

    // The boundary's index, or 0.
    fn floor(&self) -> u64
        ensures { result ≡ floor (log_of self.now) }
    {
        match self.boundary {
            Some(boundary) => boundary.index,
            None => 0,
        }
    }

    // Puts entries in place of those from an index on.
    fn replace(&mut self, from: u64, entries: &[Entry]) -> Result<(), Error>
        requires rise { rise_above (floor (log_of self.old)) entries.now ≡ true }
        requires begin { begin_from from entries.now ≡ true }
        ensures log { OnOk result (log_of self.new ≡ replaced (log_of self.old) from entries.now) }
        ensures refused { IfErr result (λ e. (e ≡ OutOfMemory) × (log_of self.new ≡ log_of self.old)) }
        ensures failed { self.new.failed ≡ self.old.failed }
    {
        self.entries = joined(self.alloc, self.entries.as_slice(), from, entries)?;
        Ok(())
    }
}

impl<D: Disk> LogStore<D> for OwnLog {
    ghost use Rattle.den_own.specs.Logs.{log_shown, log_light, log_lies};
    ghost use Rattle.den_own.specs.Memory.{nothing_told};

    ghost shown = { log_shown };

    ghost holds = { nothing_told };

    ghost place = { λ s. 0 };

    ghost in_order = { λ s. s.order };

    ghost light = { log_light };

    ghost lies = { log_lies };

    fn persist_entries(&mut self, _disk: &mut D, entries: &[Entry]) -> Result<(), Error> {
        match first_index(entries) {
            Some(from) => self.replace(from, entries),
            None => Ok(()),
        }
    }

    fn purge(&mut self, _disk: &mut D, cutoff: LogId) -> Result<(), Error> {
        if self.floor() < cutoff.index {
            cut_to(&mut self.entries, cutoff.index);
            self.boundary = Some(cutoff);
        }
        Ok(())
    }

    fn truncate(&mut self, _disk: &mut D, from_index: u64) -> Result<(), Error> {
        cut_from(&mut self.entries, from_index);
        Ok(())
    }

    fn replace_range(
        &mut self,
        _disk: &mut D,
        from_index: u64,
        new_entries: &[Entry],
    ) -> Result<(), Error> {
        let _first = first_index(new_entries);
        self.replace(from_index, new_entries)
    }

    fn reset(&mut self, _disk: &mut D) -> Result<(), Error> {
        self.entries.clear();
        self.boundary = None;
        Ok(())
    }

    /// Syncs the disk, of which it has no file: a flush answers for all of them.
    fn flush(&mut self, disk: &mut D) -> Result<(), Error> {
        let synced = sync(disk);
        self.failed = synced.is_err();
        synced
    }

    fn close(mut self, disk: &mut D) -> Result<(), Error> {
        self.flush(disk)
    }

    fn is_failed(&self) -> bool {
        self.failed
    }

    fn last_index(&self) -> u64 {
        match self.entries.last() {
            Some(entry) => entry.index(),
            None => self.floor(),
        }
    }

    fn entry(&self, index: u64) -> Result<Option<Entry>, Error> {
        match found(self.entries.as_slice(), index) {
            Some(entry) => Ok(Some(entry.copy()?)),
            None => Ok(None),
        }
    }

    fn get_entries(&self, first: u64, last: u64) -> Result<Rows<Entry>, Error> {
        let entries = picked(self.alloc, self.entries.as_slice(), first, last)?;
        Ok(Rows::of(entries))
    }

    fn load_purge_boundary(&self) -> Option<LogId> {
        self.boundary
    }

    fn place(&self) -> u8 {
        0
    }

    fn is_write_durable(&self) -> bool {
        true
    }
}
