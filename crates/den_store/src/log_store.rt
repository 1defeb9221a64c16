//! The log store over a journal.
ghost use Rattle.std.specs.Prelude.{◌≡◌, ◌≤◌, ◌<◌, ◌+◌, true, length, [], IsTrue, IfSome, IsOk, IfOk, IfErr, OnOk};
ghost use Rattle.den_disk.specs.declared.place.Family.TheVariants.{Log as log_family};
ghost use Rattle.den_disk.specs.Place.{place_number};
ghost use Rattle.den_model.specs.Entries.{rise_from};
ghost use Rattle.den_model.specs.Image.{slot_of, log_in};
ghost use Rattle.den_model.specs.Log.{floor};
ghost use Rattle.den_model.specs.Sizes.{entries_size, family_size};
ghost use Rattle.den_model.specs.Spelling.{log_region_word};
ghost use Rattle.den_model.specs.Words.{FitsLogRegion};
ghost use Rattle.den_model.specs.declared.region.LogRegion.TheVariants.{Append, Purge, Replace, Reset, Truncate};
ghost use Rattle.den_journal.specs.Causes.{IsOfDisk};
ghost use Rattle.den_journal.specs.Writes.{Opens, StoreStands, Writes};
ghost use Rattle.den_store.specs.Changes.{log_change, purge_change, purge_words};
ghost use Rattle.den_store.specs.FileLog.{log_shown, file_place, log_held, log_light, log_lies};
ghost use Rattle.den_store.specs.Held.{log_of};
ghost use Rattle.den_store.specs.Regions.{AddsRegion, WritesAnew};

use crate::LogStore;
use crate::copies::copied;
use crate::held_log::HeldLog;
use den_codec::{Entry, Error, LogId, LogRegion, Rows};
use den_disk::{Disk, Family, Place};
use den_journal::Journal;
use den_model::{NewEntries, Positive, Replacement};
use std::alloc::Global;

/// A log in memory, and in a file of the changes that made it.
#[derive(Drop)]
pub struct FileLogStore {
    alloc: Global,
    journal: Journal<HeldLog>,
}

impl FileLogStore {
    /// Opens the log's files, whatever they are, after a sync of all files. `DataCorruption` names the slot in use, and
    /// the gate of the first region that runs past the end, or else of the first that is no lawful word.
    pub fn new<D: Disk>(alloc: Global, disk: &mut D) -> Result<FileLogStore, Error>
        ensures opens { Opens D.Disk log_shown log_family log_in disk.old disk.new result }
        ensures entries { IsTrue (D.kind disk.old).tells → IfOk result (λ s. entries_size (log_shown s).value.entries ≤ family_size log_family (D.content disk.old).reading) }
        ensures place { IsTrue (D.kind disk.old).tells → IfOk result (λ s. file_place s ≡ place_number (slot_of log_family (D.content disk.old).reading)) }
    {
        match Journal::open(alloc, disk) {
            Ok(journal) => Ok(FileLogStore { alloc, journal }),
            Err(error) => Err(error),
        }
    }
}

// The region that purges a log up to an index.
fn purge_of(index: u64, term: u64) -> LogRegion
    requires { 1 ≤ index }
    ensures is { result ≡ Purge index term }
    ensures fits { FitsLogRegion (Purge index term) }
{
    let index = Positive::of(index);
    LogRegion::Purge { index, term }
}

impl<D: Disk> LogStore<D> for FileLogStore {
    ghost shown = { log_shown };

    ghost holds = { log_held };

    ghost place = { file_place };

    ghost in_order = { λ s. s.journal.held.order };

    ghost light = { log_light };

    ghost lies = { log_lies };

    /// Adds one Append region to the slot in use, where there are entries.
    fn persist_entries(&mut self, disk: &mut D, entries: &[Entry]) -> Result<(), Error>
        requires stands { StoreStands D.Disk (log_shown self.old) disk.old }
        requires rise { rise_from (floor (log_shown self.old).value + 1) entries.now ≡ true }
        ensures writes { Writes D.Disk (log_shown self.old) (log_shown self.new) disk.old disk.new log_family log_held
            (log_change (log_shown self.old).value (Append entries.now)) result }
        ensures same { IfErr result (λ e. IsOfDisk e → (log_shown self.new).value ≡ (log_shown self.old).value) }
        ensures nothing { entries.now ≡ [] → (disk.new ≡ disk.old) × IsOk result }
        ensures region { 1 ≤ length entries.now → OnOk result (AddsRegion D.Disk self.old.journal.gate self.new.journal.gate disk.old disk.new
            (log_region_word (Append entries.now))) }
    {
        if entries.is_empty() {
            return Ok(());
        }
        let copies = copied(self.alloc, entries)?;
        match NewEntries::of(Rows::of(copies)) {
            Some(entries) => self.journal.change(disk, LogRegion::Append { entries }),
            None => unreachable!(),
        }
    }

    /// Writes the log anew in the other slot, which is in use then: one Purge region and, where entries are left, one Append
    /// region.
    fn purge(&mut self, disk: &mut D, cutoff: LogId) -> Result<(), Error>
        requires stands { StoreStands D.Disk (log_shown self.old) disk.old }
        ensures writes { Writes D.Disk (log_shown self.old) (log_shown self.new) disk.old disk.new log_family log_held
            (purge_change (log_shown self.old).value cutoff) result }
        ensures same { IfErr result (λ e. IsOfDisk e → (log_shown self.new).value ≡ (log_shown self.old).value) }
        ensures nothing { cutoff.index ≤ floor (log_shown self.old).value → (disk.new ≡ disk.old) × IsOk result }
        ensures regions { floor (log_shown self.old).value < cutoff.index
            → OnOk result (WritesAnew D.Disk self.old.journal.gate self.new.journal.gate disk.old disk.new (purge_words (log_shown self.old).value cutoff)) }
    {
        if cutoff.index <= self.journal.held().floor() {
            return Ok(());
        }
        let rest = self.journal.held().rest(self.alloc, cutoff.index)?;
        let region = purge_of(cutoff.index, cutoff.term);
        self.journal.rewrite(disk, region, rest)
    }

    /// Adds one Truncate region to the slot in use.
    fn truncate(&mut self, disk: &mut D, from_index: u64) -> Result<(), Error>
        requires stands { StoreStands D.Disk (log_shown self.old) disk.old }
        ensures writes { Writes D.Disk (log_shown self.old) (log_shown self.new) disk.old disk.new log_family log_held
            (log_change (log_shown self.old).value (Truncate from_index)) result }
        ensures same { IfErr result (λ e. IsOfDisk e → (log_shown self.new).value ≡ (log_shown self.old).value) }
        ensures region { OnOk result (AddsRegion D.Disk self.old.journal.gate self.new.journal.gate disk.old disk.new
            (log_region_word (Truncate from_index))) }
    {
        self.journal
            .change(disk, LogRegion::Truncate { from: from_index })
    }

    /// Adds one Replace region to the slot in use, also where there are no entries.
    fn replace_range(
        &mut self,
        disk: &mut D,
        from_index: u64,
        new_entries: &[Entry],
    ) -> Result<(), Error>
        requires stands { StoreStands D.Disk (log_shown self.old) disk.old }
        requires above { IfSome (log_shown self.old).value.boundary (λ b. b.index < from_index) }
        requires rise { rise_from from_index new_entries.now ≡ true }
        ensures writes { Writes D.Disk (log_shown self.old) (log_shown self.new) disk.old disk.new log_family log_held
            (log_change (log_shown self.old).value (Replace (record { from = from_index; entries = new_entries.now }))) result }
        ensures same { IfErr result (λ e. IsOfDisk e → (log_shown self.new).value ≡ (log_shown self.old).value) }
        ensures region { OnOk result (AddsRegion D.Disk self.old.journal.gate self.new.journal.gate disk.old disk.new
            (log_region_word (Replace (record { from = from_index; entries = new_entries.now })))) }
    {
        let copies = copied(self.alloc, new_entries)?;
        match Replacement::of(from_index, Rows::of(copies)) {
            Some(replacement) => self
                .journal
                .change(disk, LogRegion::Replace { replacement }),
            None => unreachable!(),
        }
    }

    /// Adds one Reset region to the slot in use.
    fn reset(&mut self, disk: &mut D) -> Result<(), Error>
        requires stands { StoreStands D.Disk (log_shown self.old) disk.old }
        ensures writes { Writes D.Disk (log_shown self.old) (log_shown self.new) disk.old disk.new log_family log_held
            (log_change (log_shown self.old).value Reset) result }
        ensures same { IfErr result (λ e. IsOfDisk e → (log_shown self.new).value ≡ (log_shown self.old).value) }
        ensures region { OnOk result (AddsRegion D.Disk self.old.journal.gate self.new.journal.gate disk.old disk.new
            (log_region_word Reset)) }
    {
        self.journal.change(disk, LogRegion::Reset)
    }

    fn flush(&mut self, disk: &mut D) -> Result<(), Error> {
        self.journal.flush(disk)
    }

    fn close(mut self, disk: &mut D) -> Result<(), Error> {
        self.flush(disk)
    }

    fn is_failed(&self) -> bool {
        self.journal.is_failed()
    }

    fn entry(&self, index: u64) -> Result<Option<Entry>, Error> {
        Ok(self.journal.held().entry(index)?)
    }

    fn get_entries(&self, first: u64, last: u64) -> Result<Rows<Entry>, Error> {
        Ok(self.journal.held().range(self.alloc, first, last)?)
    }

    fn load_purge_boundary(&self) -> Option<LogId> {
        self.journal.held().boundary()
    }

    fn place(&self) -> u8 {
        Place {
            family: Family::Log,
            part: self.journal.part(),
        }
        .number() as u8
    }

    fn is_write_durable(&self) -> bool {
        true
    }

    fn last_index(&self) -> u64 {
        self.journal.held().last_index()
    }
}
