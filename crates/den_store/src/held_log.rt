// A log in memory: a boundary, and the entries above it in the order of their indices.
ghost use Rattle.std.specs.Prelude.{◌≡◌, ◌+◌, ◌≤◌, true, length, take, drop, filter, nat_le, vec_len, vec_capacity, OnOk, IfOk, IfSome};
ghost use Rattle.std.specs.List.{AllByRecursion};
ghost use Rattle.den_model.specs.Entries.{rise_above, begin_from};
ghost use Rattle.den_model.specs.Log.{empty_log, floor, below, above, between, replaced, changed, is_lawful, last_index};
ghost use Rattle.den_model.specs.Words.{FitsEntry, FitsLogRegion};
ghost use Rattle.den_model.specs.declared.region.LogRegion.TheVariants.{Truncate, Purge, Reset};
ghost use Rattle.den_store.specs.Fits.{fits_prop};
ghost use Rattle.den_store.specs.Lookup.{entry_of, entries_of, rest_region};
ghost use Rattle.den_store.specs.Order.{IsInOrder};

use crate::copies::copied;
use den_codec::{Entry, LogId, LogRegion, Rows, Word};
use den_disk::Family;
use den_journal::Folded;
use den_model::NewEntries;
use std::alloc::{AllocError, Global};

#[derive(Drop)]
pub(crate) struct HeldLog {
    boundary: Option<LogId>,
    entries: Vec<Entry>,
    ghost order: { IsInOrder (record { boundary = boundary; entries = entries.items }) },
    ghost fits: { AllByRecursion FitsEntry entries.items } by { fits_prop entries.items },
}

impl HeldLog {
    ghost use Rattle.den_store.specs.Held.{log_of};

    // The boundary's index, or 0.
    pub(crate) fn floor(&self) -> u64
        ensures { result ≡ floor (log_of self.now) }
    {
        match self.boundary {
            None => 0,
            Some(boundary) => boundary.index,
        }
    }

    pub(crate) fn boundary(&self) -> Option<LogId>
        ensures { result ≡ (log_of self.now).boundary }
    {
        self.boundary
    }

    pub(crate) fn last_index(&self) -> u64
        ensures { result ≡ last_index (log_of self.now) }
    {
        match self.entries.last() {
            None => self.floor(),
            Some(entry) => entry.index(),
        }
    }

    // Whether a region may stand here.
    pub(crate) fn admits(&self, region: &LogRegion) -> bool
        ensures { result ≡ is_lawful (log_of self.now) region.now }
    {
        match region {
            LogRegion::Append { entries } => entries.as_slice()[0].index() > self.floor(),
            LogRegion::Replace { replacement } => {
                self.boundary.is_none() || self.floor() < replacement.from()
            }
            LogRegion::Truncate { .. } | LogRegion::Purge { .. } | LogRegion::Reset => true,
        }
    }

    // Makes room for so many entries more.
    fn reserve(&mut self, count: usize) -> Result<(), AllocError>
        ensures log { log_of self.new ≡ log_of self.old }
        ensures room { OnOk result (vec_len self.new.entries + count ≤ vec_capacity self.new.entries) }
    {
        self.entries.reserve(count)
    }

    // The held entry of an index.
    pub(crate) fn entry(&self, index: u64) -> Result<Option<Entry>, AllocError>
        ensures { IfOk result (λ found. found ≡ entry_of index (log_of self.now).entries) }
    {
        let entries = self.entries.as_slice();
        let before = count_below(entries, index);
        let Some(entry) = entries.get(before) else {
            return Ok(None);
        };
        if entry.index() != index {
            return Ok(None);
        }
        Ok(Some(entry.copy()?))
    }

    // The held entries from one index up to another.
    pub(crate) fn range(
        &self,
        alloc: Global,
        first: u64,
        last: u64,
    ) -> Result<Rows<Entry>, AllocError>
        ensures { IfOk result (λ entries. entries ≡ between first last (log_of self.now).entries) }
    {
        let entries = self.entries.as_slice();
        let to = count_to(entries, last);
        let entries = &entries[..to];
        let from = count_below(entries, first);
        Ok(Rows::of(copied(alloc, &entries[from..])?))
    }

    // The region of the held entries above an index, if there are any.
    pub(crate) fn rest(&self, alloc: Global, index: u64) -> Result<Option<LogRegion>, AllocError>
        ensures rest { IfOk result (λ rest. rest ≡ rest_region (above index (log_of self.now).entries)) }
        ensures fits { IfOk result (λ rest. IfSome rest FitsLogRegion) }
    {
        let entries = self.entries.as_slice();
        let purged = count_to(entries, index);
        let kept = copied(alloc, &entries[purged..])?;
        match NewEntries::of(Rows::of(kept)) {
            Some(entries) => Ok(Some(LogRegion::Append { entries })),
            None => Ok(None),
        }
    }

    // The entries from an index on give way to these. Takes no memory.
    fn replace(&mut self, from: u64, mut entries: Vec<Entry>)
        requires rise { rise_above (floor (log_of self.old)) entries.items ≡ true }
        requires begin { begin_from from entries.items ≡ true }
        requires fits { AllByRecursion FitsEntry entries.items }
        requires room { vec_len self.old.entries + vec_len entries ≤ vec_capacity self.old.entries }
        ensures { log_of self.new ≡ replaced (log_of self.old) from entries.items }
    {
        self.truncate(from);
        let appended = self.entries.append(&mut entries);
        prove!(appended.is_ok());
    }

    fn truncate(&mut self, from: u64)
        ensures log { log_of self.new ≡ changed (log_of self.old) (Truncate from) }
        ensures fewer { vec_len self.new.entries ≤ vec_len self.old.entries }
        ensures room { vec_capacity self.new.entries ≡ vec_capacity self.old.entries }
    {
        let kept = count_below(self.entries.as_slice(), from);
        self.entries.truncate(kept);
    }

    fn purge(&mut self, index: u64, term: u64)
        ensures { log_of self.new ≡ changed (log_of self.old) (Purge index term) }
    {
        if self.floor() < index {
            let gone = count_to(self.entries.as_slice(), index);
            self.entries.drain(..gone);
            self.boundary = Some(LogId { index, term });
        }
    }

    fn reset(&mut self)
        ensures { log_of self.new ≡ changed (log_of self.old) Reset }
    {
        self.entries.clear();
        self.boundary = None;
    }
}

impl Folded for HeldLog {
    ghost use Rattle.std.specs.Prelude.{ℕ, refl};
    ghost use Rattle.den_disk.specs.declared.place.Family.TheVariants.{Log as log_family};
    ghost use Rattle.den_model.specs.Log.{Log, log_from, log_after_payload};
    ghost use Rattle.den_model.specs.Sizes.{entries_size, store_rise};
    ghost use Rattle.den_store.specs.Held.{log_of};
    ghost use Rattle.den_store.specs.Folds.{changed_size, logs_fold, log_again, log_rises};

    type Region = LogRegion;

    ghost FAMILY = { log_family };

    const FAMILY: Family = Family::Log;

    ghost Value = { Log };

    ghost value = { log_of };

    ghost empty = { empty_log };

    ghost after = { log_after_payload };

    ghost from = { log_from };

    ghost lawful = { λ l r. is_lawful l r ≡ true };

    ghost changed = { changed };

    ghost roomy = { λ h r. vec_len h.entries + length (entries_of r) ≤ vec_capacity h.entries };

    ghost rise = { λ r. store_rise (entries_size (entries_of r)) };

    ghost lost = { λ r. ⊥ };

    ghost size = { λ l. entries_size l.entries };

    ghost renewed = { λ l. l };

    ghost folds = { logs_fold };

    ghost again = { log_again };

    ghost rises = { log_rises };

    ghost none = { refl };

    ghost sized = { λ l r lawful fits. changed_size l r };

    ghost anew = { λ l. refl };

    fn empty(alloc: Global) -> HeldLog {
        HeldLog {
            boundary: None,
            entries: Vec::new(alloc),
        }
    }

    fn take(&mut self, alloc: Global, payload: &[u8]) -> Result<bool, AllocError> {
        let Some(region) = LogRegion::read(alloc, payload)? else {
            return Ok(false);
        };
        if !self.admits(&region) {
            return Ok(false);
        }
        self.make_room(&region)?;
        self.settle(region)?;
        Ok(true)
    }

    // Makes room for the entries that a region adds.
    fn make_room(&mut self, region: &LogRegion) -> Result<(), AllocError> {
        match region {
            LogRegion::Append { entries } => self.reserve(entries.as_slice().len()),
            LogRegion::Replace { replacement } => self.reserve(replacement.as_slice().len()),
            LogRegion::Truncate { .. } | LogRegion::Purge { .. } | LogRegion::Reset => Ok(()),
        }
    }

    fn settle(&mut self, region: LogRegion) -> Result<(), AllocError> {
        match region {
            LogRegion::Append { entries } => {
                let from = entries.as_slice()[0].index();
                self.replace(from, entries.into_items());
            }
            LogRegion::Truncate { from } => self.truncate(from),
            LogRegion::Purge { index, term } => self.purge(index.get(), term),
            LogRegion::Replace { replacement } => {
                let from = replacement.from();
                self.replace(from, replacement.into_items());
            }
            LogRegion::Reset => self.reset(),
        }
        Ok(())
    }

    fn renew(&mut self) {}
}

// How many of these entries, which rise, have an index below this one.
fn count_below(entries: &[Entry], index: u64) -> usize
    requires { rise_above 0 entries.now ≡ true }
    ensures bound { result ≤ length entries.now }
    ensures front { take result entries.now ≡ below index entries.now }
    ensures rest { drop result entries.now ≡ filter (λ e. nat_le index e.index) entries.now }
{
    entries.partition_point(|entry| entry.index() < index)
}

// How many of these entries, which rise, have an index up to this one.
fn count_to(entries: &[Entry], index: u64) -> usize
    requires { rise_above 0 entries.now ≡ true }
    ensures bound { result ≤ length entries.now }
    ensures front { take result entries.now ≡ filter (λ e. nat_le e.index index) entries.now }
    ensures rest { drop result entries.now ≡ above index entries.now }
{
    entries.partition_point(|entry| entry.index() <= index)
}
