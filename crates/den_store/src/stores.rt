//! What a log store and a store of the hard state are.
ghost use Rattle.std.specs.Prelude.{◌≡◌, ◌≤◌, ◌<◌, ◌↔◌, ◌+◌, ℕ, true, false, IsTrue, List, [], Option, Some, IfSome, OnOk, IfOk, IfErr, IsOk, length};
ghost use Rattle.den_codec.specs.declared.error.Error.TheVariants.{OutOfMemory, StorageIoError};
ghost use Rattle.den_disk.specs.declared.place.Family.TheVariants.{Log as log_family, Meta as meta_family};
ghost use Rattle.den_disk.specs.Goes.{Rose, DiskGoesOn};
ghost use Rattle.den_model.specs.Entries.{rise_from};
ghost use Rattle.den_model.specs.Log.{Log, between, floor, last_index};
ghost use Rattle.den_model.specs.declared.region.LogRegion.TheVariants.{Append, Replace, Reset, Truncate};
ghost use Rattle.den_model.specs.declared.log_id.HardState.{HardState};
ghost use Rattle.den_model.specs.declared.log_id.LogId.{LogId};
ghost use Rattle.den_journal.specs.Causes.{IsOfDisk};
ghost use Rattle.den_journal.specs.Lies.{Lies};
ghost use Rattle.den_journal.specs.Shown.{Held, Shown};
ghost use Rattle.den_journal.specs.Writes.{Ends, StoreStands, Syncs, Writes};
ghost use Rattle.den_store.specs.Changes.{log_change, purge_change, state_change};
ghost use Rattle.den_store.specs.Lookup.{entry_of};
ghost use Rattle.den_store.specs.Order.{IsInOrder};

use den_codec::{Entry, Error, HardState, LogId, Rows};
use den_disk::Disk;

/// A log: a boundary, up to which entries were purged, and entries by index, all above it.
pub trait LogStore<D: Disk>: Drop {
    /// Its boundary and its entries, and what else is seen of a store.
    ghost shown: { Self → Shown Log };

    /// What files give of a log, and whether it is told.
    ghost holds: { Held Log };

    /// The number of the file in which it lies.
    ghost place: { Self → ℕ };

    /// Adds entries, in place of those held from the first one's index on. A crash inside leaves the old log or the new
    /// one.
    fn persist_entries(&mut self, disk: &mut D, entries: &[Entry]) -> Result<(), Error>
        requires stands { StoreStands D.Disk (shown self.old) disk.old }
        requires rise { rise_from (floor (shown self.old).value + 1) entries.now ≡ true }
        ensures writes { Writes D.Disk (shown self.old) (shown self.new) disk.old disk.new log_family holds
            (log_change (shown self.old).value (Append entries.now)) result }
        ensures same { IfErr result (λ e. IsOfDisk e → (shown self.new).value ≡ (shown self.old).value) }
        ensures nothing { entries.now ≡ [] → (disk.new ≡ disk.old) × IsOk result };

    /// Takes out the entries up to a cutoff, which becomes the boundary, where its index is above the boundary's: the
    /// boundary and the entries above it are written anew. A crash inside leaves the old log or the new one.
    fn purge(&mut self, disk: &mut D, cutoff: LogId) -> Result<(), Error>
        requires stands { StoreStands D.Disk (shown self.old) disk.old }
        ensures writes { Writes D.Disk (shown self.old) (shown self.new) disk.old disk.new log_family holds
            (purge_change (shown self.old).value cutoff) result }
        ensures same { IfErr result (λ e. IsOfDisk e → (shown self.new).value ≡ (shown self.old).value) }
        ensures nothing { cutoff.index ≤ floor (shown self.old).value → (disk.new ≡ disk.old) × IsOk result };

    /// Takes out the entries from an index on. A crash inside leaves the old log or the new one.
    fn truncate(&mut self, disk: &mut D, from_index: u64) -> Result<(), Error>
        requires stands { StoreStands D.Disk (shown self.old) disk.old }
        ensures writes { Writes D.Disk (shown self.old) (shown self.new) disk.old disk.new log_family holds
            (log_change (shown self.old).value (Truncate from_index)) result }
        ensures same { IfErr result (λ e. IsOfDisk e → (shown self.new).value ≡ (shown self.old).value) };

    /// Puts entries in place of those from an index on, as one change. A crash inside leaves the old log or the new one.
    fn replace_range(
        &mut self,
        disk: &mut D,
        from_index: u64,
        new_entries: &[Entry],
    ) -> Result<(), Error>
        requires stands { StoreStands D.Disk (shown self.old) disk.old }
        requires above { IfSome (shown self.old).value.boundary (λ b. b.index < from_index) }
        requires rise { rise_from from_index new_entries.now ≡ true }
        ensures writes { Writes D.Disk (shown self.old) (shown self.new) disk.old disk.new log_family holds
            (log_change (shown self.old).value (Replace (record { from = from_index; entries = new_entries.now }))) result }
        ensures same { IfErr result (λ e. IsOfDisk e → (shown self.new).value ≡ (shown self.old).value) };

    /// Takes out all entries and the boundary. A crash inside leaves the old log or the empty one.
    fn reset(&mut self, disk: &mut D) -> Result<(), Error>
        requires stands { StoreStands D.Disk (shown self.old) disk.old }
        ensures writes { Writes D.Disk (shown self.old) (shown self.new) disk.old disk.new log_family holds
            (log_change (shown self.old).value Reset) result }
        ensures same { IfErr result (λ e. IsOfDisk e → (shown self.new).value ≡ (shown self.old).value) };

    /// Puts all files on the disk. It takes no memory.
    fn flush(&mut self, disk: &mut D) -> Result<(), Error>
        requires stands { StoreStands D.Disk (shown self.old) disk.old }
        ensures syncs { Syncs D.Disk (shown self.old) (shown self.new) disk.old disk.new log_family holds result };

    /// The last call: a flush.
    fn close(self, disk: &mut D) -> Result<(), Error>
        requires stands { StoreStands D.Disk (shown self) disk.old }
        ensures ends { Ends D.Disk (shown self) disk.old disk.new log_family holds result };

    /// Whether a refusal of the disk left it of no more use. It is opened anew then.
    fn is_failed(&self) -> bool
        ensures { (result ≡ false) ↔ (shown self.now).ready };

    /// The greatest index that is held, or the boundary's, or 0.
    fn last_index(&self) -> u64
        ensures { result ≡ last_index (shown self.now).value };

    /// The entry of an index, if it is held.
    fn entry(&self, index: u64) -> Result<Option<Entry>, Error>
        ensures entry { IfOk result (λ found. found ≡ entry_of index (shown self.now).value.entries) }
        ensures refused { IfErr result (λ e. e ≡ OutOfMemory) };

    /// The entries from a first index up to a last one.
    fn get_entries(&self, first: u64, last: u64) -> Result<Rows<Entry>, Error>
        ensures entries { IfOk result (λ entries. entries ≡ between first last (shown self.now).value.entries) }
        ensures refused { IfErr result (λ e. e ≡ OutOfMemory) };

    /// The boundary, if there is one.
    fn load_purge_boundary(&self) -> Option<LogId>
        ensures { result ≡ (shown self.now).value.boundary };

    /// The number of the file in which it lies.
    fn place(&self) -> u8
        ensures { result ≡ place self.now };

    /// Whether what a call wrote is on the disk when it answers Ok, which it always is.
    fn is_write_durable(&self) -> bool
        ensures { result ≡ true };

    /// Its entries rise above its boundary.
    ghost in_order: { (s : Self) → IsInOrder (shown s).value };

    /// No payload that a purge writes is larger than the store's weight.
    ghost light: { (s : Self) (cutoff : LogId) (n : ℕ) → (purge_change (shown s).value cutoff).drafts n → n ≤ (shown s).weight };

    /// Only its own files count, and they give its log, where it tells what they give, whatever a crash does to what is
    /// pending.
    ghost lies: { Lies log_family holds shown };
}

/// The last hard state that was saved.
pub trait MetaStore<D: Disk>: Drop {
    /// The last hard state, if one was saved, and what else is seen of a store.
    ghost shown: { Self → Shown (Option HardState) };

    /// What files give of hard states, and whether it is told.
    ghost holds: { Held (Option HardState) };

    /// Saves a hard state: it is written anew, in place of the one before. A crash inside leaves the old one or the new
    /// one.
    fn save_hard_state(&mut self, disk: &mut D, state: &HardState) -> Result<(), Error>
        requires stands { StoreStands D.Disk (shown self.old) disk.old }
        ensures writes { Writes D.Disk (shown self.old) (shown self.new) disk.old disk.new meta_family holds
            (state_change state.now) result }
        ensures same { IfErr result (λ e. IsOfDisk e → (shown self.new).value ≡ (shown self.old).value) };

    /// Puts all files on the disk. It takes no memory.
    fn flush(&mut self, disk: &mut D) -> Result<(), Error>
        requires stands { StoreStands D.Disk (shown self.old) disk.old }
        ensures syncs { Syncs D.Disk (shown self.old) (shown self.new) disk.old disk.new meta_family holds result };

    /// Whether a refusal of the disk left it of no more use. It is opened anew then.
    fn is_failed(&self) -> bool
        ensures { (result ≡ false) ↔ (shown self.now).ready };

    /// The last hard state that was saved.
    fn load_hard_state(&self) -> Option<HardState>
        ensures { result ≡ (shown self.now).value };

    /// Only its own files count, and they give its hard state, where it tells what they give, whatever a crash does to
    /// what is pending.
    ghost lies: { Lies meta_family holds shown };
}
