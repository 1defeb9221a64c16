//! The state machine in files.
ghost use Rattle.std.specs.Prelude.{◌≡◌, ◌≤◌, ◌<◌, ◌⊎◌};

use crate::StateMachine;
use crate::checkpoint::write_anew;
use crate::cleanup::prepare;
use crate::snapshots::{installed, word_of};
use crate::stored_map::StoredMap;
use den_codec::{ApplyResult, Blob, Entry, Error, LogId, Positive, Rows, ScanResult, StateRegion};
use den_disk::{Disk, Family};
use den_journal::{Journal, write_one};
use den_lease::DefaultLease;
use den_map::{asks_lease, out_of_order};
use std::alloc::Global;

// So many records behind the last beginning ask for a checkpoint.
const LONG_TAIL: u64 = 1000;

// No checksum of a snapshot is made.
const NO_CHECKSUM: [u8; 32] = [0; 32];

/// A map in memory, whose journal is the gate file of the State family.
#[derive(Drop)]
pub struct FileStateMachine {
    pub(crate) alloc: Global,
    /// The map with the mark that the files hold.
    pub(crate) journal: Journal<StoredMap>,
    /// The applied mark, which may not be stored.
    pub(crate) applied: LogId,
    pub(crate) leased: bool,
    running: bool,
    metadata: Option<SnapshotMetadata>,
    ghost below: { journal.held.map.mark.index ≤ applied.index },
}

/// What was last said of a snapshot: the last entry that it holds, where that was told, and a checksum.
#[derive(Clone, Copy, Debug, PartialEq, Eq)]
pub struct SnapshotMetadata {
    pub last_included: Option<LogId>,
    pub checksum: [u8; 32],
}

// The later of two marks, and the first where they stand at one index.
fn later(one: LogId, other: LogId) -> LogId
    ensures above { other.index ≤ result.index }
    ensures first { other.index ≤ one.index → result ≡ one }
{
    if one.index < other.index { other } else { one }
}

impl FileStateMachine {
    ghost use Rattle.std.specs.Prelude.{◌&&◌, ◌+◌, ◌-◌, ◌^◌, [], ◌∷◌, false, true, None, IfSome, is_some, IfOk, IfErr, OnOk, length, min};
    ghost use Rattle.den_disk.specs.declared.place.Family.TheVariants.{State as state_family};
    ghost use Rattle.den_model.specs.Image.{map_in};
    ghost use Rattle.den_model.specs.MapState.{map_applied_all, results_of};
    ghost use Rattle.den_lease.specs.Due.{has_due};
    ghost use Rattle.den_map.specs.Order.{out_of_order};
    ghost use Rattle.den_journal.specs.Causes.{IsOfDisk};
    ghost use Rattle.den_journal.specs.Writes.{Opens, StoreStands, Writes};
    ghost use Rattle.den_state.specs.Changes.{chunk_change, cleanup_change};
    ghost use Rattle.den_state.specs.Cleanup.{cleaned_where, removed_where};
    ghost use Rattle.std.specs.List.Sorted.{IsStrictlySortedBy};
    ghost use Rattle.den_model.specs.Table.{by_bytes};
    ghost use Rattle.den_model.specs.declared.journal.JournalRecord.TheVariants.{Cleanup};
    ghost use Rattle.den_state.specs.Checkpoint.{renew_change};
    ghost use Rattle.den_state.specs.FileState.{HasShortTail, map_held, state_map, state_settings, state_shown};
    ghost use Rattle.den_state.specs.Regions.{Adds, AddsOrRenews, HoldsCheckpoint};
    ghost use Rattle.den_model.specs.declared.region.StateRegion.TheVariants.{Records};
    ghost use Rattle.den_model.specs.Spelling.{state_region_word};
    ghost use Rattle.den_map.specs.Journal.{all_recorded};

    /// The map that the files give, whatever they are, after a sync of all files, with a lease or without one. Expiries in
    /// the files are kept also without a lease. `DataCorruption` names the slot in use, and the gate of the first region
    /// that runs past the end, or else of the first that is not lawful.
    pub fn new<D: Disk>(
        alloc: Global,
        disk: &mut D,
        lease: Option<DefaultLease>,
    ) -> Result<FileStateMachine, Error>
        requires { IfSome lease (λ l. l.map ≡ []) }
        ensures opens { Opens D.Disk state_shown state_family map_in disk.old disk.new result }
        ensures stored { IfOk result (λ s. (state_shown s).value ≡ state_map s) }
        ensures settings { IfOk result (λ s. state_settings s ≡ record { leased = is_some lease; running = true; metadata = None }) }
    {
        let leased = lease.is_some();
        match Journal::<StoredMap>::open(alloc, disk) {
            Ok(journal) => {
                let applied = journal.held().map.mark();
                Ok(FileStateMachine {
                    alloc,
                    journal,
                    applied,
                    leased,
                    running: true,
                    metadata: None,
                })
            }
            Err(error) => Err(error),
        }
    }

    // Applies entries that are in order and may live as long as they ask: one region of records.
    fn commit<D: Disk>(&mut self, disk: &mut D, chunk: &[Entry]) -> Result<Rows<ApplyResult>, Error>
        requires stands { StoreStands D.Disk (state_shown self.old) disk.old }
        requires in_order { out_of_order (state_map self.old).mark.index chunk.now ≡ None }
        requires some { 1 ≤ length chunk.now }
        ensures writes { Writes D.Disk (state_shown self.old) (state_shown self.new) disk.old disk.new state_family map_held (chunk_change (state_shown self.old).value chunk.now) result }
        ensures applied { OnOk result (state_map self.new ≡ map_applied_all (state_map self.old) chunk.now) }
        ensures results { IfOk result (λ results. results ≡ results_of (state_map self.old) chunk.now) }
        ensures stored { OnOk result ((state_shown self.new).value ≡ state_map self.new) }
        ensures same { IfErr result (λ e. (state_shown self.new).ready → state_map self.new ≡ state_map self.old) }
        ensures kept { IfErr result (λ e. IsOfDisk e → state_map self.new ≡ state_map self.old) }
        ensures region { OnOk result (Adds D.Disk self.old.journal.gate.slot disk.old disk.new
            (state_region_word (Records (all_recorded (state_shown self.old).value chunk.now)))) }
        ensures slot { self.new.journal.gate.slot ≡ self.old.journal.gate.slot }
        ensures tail { OnOk result (self.new.journal.held.tail ≡ min (self.old.journal.held.tail + length chunk.now) (2 ^ 64 - 1)) }
        ensures short_kept { IfErr result (λ e. (state_shown self.new).ready → HasShortTail self.old → HasShortTail self.new) }
        ensures settings { state_settings self.new ≡ state_settings self.old }
    {
        let journaled = self.journal.held().map.journal(self.alloc, chunk)?;
        let records = Rows::of(journaled.records);
        match self.journal.change(disk, StateRegion::Records { records }) {
            Ok(()) => {
                self.applied = self.journal.held().map.mark();
                Ok(Rows::of(journaled.results))
            }
            Err(error) => {
                self.applied = later(self.applied, self.journal.held().map.mark());
                Err(error)
            }
        }
    }

    /// Writes the map anew with the stored mark: as its beginning and pages of its pairs, without a record. A crash inside
    /// leaves the map. A refusal ends its use.
    pub fn checkpoint<D: Disk>(&mut self, disk: &mut D) -> Result<(), Error>
        requires stands { StoreStands D.Disk (state_shown self.old) disk.old }
        ensures writes { Writes D.Disk (state_shown self.old) (state_shown self.new) disk.old disk.new state_family map_held (renew_change (state_shown self.old).value) result }
        ensures map { state_map self.new ≡ state_map self.old }
        ensures value { (state_shown self.new).value ≡ (state_shown self.old).value }
        ensures short { OnOk result (HasShortTail self.new) }
        ensures short_kept { IfErr result (λ e. HasShortTail self.old → HasShortTail self.new) }
        ensures checkpoint { OnOk result (HoldsCheckpoint D.Disk self.new.journal.gate.slot disk.old disk.new (state_shown self.old).value) }
        ensures failed { IfErr result (λ e. (state_shown self.new).ready → ⊥) }
        ensures settings { state_settings self.new ≡ state_settings self.old }
    {
        write_anew(self.alloc, &mut self.journal, disk)
    }

    // The same where many records follow the last beginning.
    fn shorten<D: Disk>(&mut self, disk: &mut D) -> Result<(), Error>
        requires stands { StoreStands D.Disk (state_shown self.old) disk.old }
        ensures writes { Writes D.Disk (state_shown self.old) (state_shown self.new) disk.old disk.new state_family map_held (renew_change (state_shown self.old).value) result }
        ensures map { state_map self.new ≡ state_map self.old }
        ensures value { (state_shown self.new).value ≡ (state_shown self.old).value }
        ensures short { OnOk result (HasShortTail self.new) }
        ensures few { HasShortTail self.old → (self.new ≡ self.old) × (disk.new ≡ disk.old) }
        ensures many { OnOk result (1000 ≤ self.old.journal.held.tail
            → HoldsCheckpoint D.Disk self.new.journal.gate.slot disk.old disk.new (state_shown self.old).value) }
        ensures failed { IfErr result (λ e. (state_shown self.new).ready → ⊥) }
        ensures settings { state_settings self.new ≡ state_settings self.old }
    {
        if self.journal.held().tail < LONG_TAIL {
            return Ok(());
        }
        self.checkpoint(disk)
    }

    // Applies entries, with a checkpoint behind them where many records follow the last one.
    fn apply<D: Disk>(&mut self, disk: &mut D, chunk: &[Entry]) -> Result<Rows<ApplyResult>, Error>
        requires stands { StoreStands D.Disk (state_shown self.old) disk.old }
        requires in_order { out_of_order (state_map self.old).mark.index chunk.now ≡ None }
        requires some { 1 ≤ length chunk.now }
        ensures writes { Writes D.Disk (state_shown self.old) (state_shown self.new) disk.old disk.new state_family map_held (chunk_change (state_shown self.old).value chunk.now) result }
        ensures applied { OnOk result (state_map self.new ≡ map_applied_all (state_map self.old) chunk.now) }
        ensures results { IfOk result (λ results. results ≡ results_of (state_map self.old) chunk.now) }
        ensures stored { OnOk result ((state_shown self.new).value ≡ state_map self.new) }
        ensures same { IfErr result (λ e. (state_shown self.new).ready → state_map self.new ≡ state_map self.old) }
        ensures kept { IfErr result (λ e. IsOfDisk e → (state_map self.new ≡ state_map self.old) ⊎ (state_map self.new ≡ map_applied_all (state_map self.old) chunk.now)) }
        ensures short { OnOk result (HasShortTail self.new) }
        ensures short_kept { IfErr result (λ e. (state_shown self.new).ready → HasShortTail self.old → HasShortTail self.new) }
        ensures region { OnOk result (AddsOrRenews D.Disk self.old.journal self.new.journal disk.old disk.new (length chunk.now)
            (state_region_word (Records (all_recorded (state_shown self.old).value chunk.now))) (state_shown self.new).value) }
        ensures settings { state_settings self.new ≡ state_settings self.old }
    {
        match self.commit(disk, chunk) {
            Ok(results) => match self.shorten(disk) {
                Ok(()) => Ok(results),
                Err(error) => Err(error),
            },
            Err(error) => Err(error),
        }
    }

    // Removes what has expired, where something has: one region of a record.
    fn remove<D: Disk>(&mut self, disk: &mut D, moment: Positive) -> Result<Rows<Blob>, Error>
        requires stands { StoreStands D.Disk (state_shown self.old) disk.old }
        requires due { ((state_settings self.old).leased && has_due moment (state_map self.old).expiries) ≡ true }
        ensures writes { Writes D.Disk (state_shown self.old) (state_shown self.new) disk.old disk.new state_family map_held
            (cleanup_change (state_settings self.old).leased moment (state_shown self.old).value) result }
        ensures cleaned { OnOk result (state_map self.new ≡ cleaned_where (state_settings self.old).leased moment (state_map self.old)) }
        ensures same { IfErr result (λ e. state_map self.new ≡ state_map self.old) }
        ensures keys { IfOk result (λ keys. keys ≡ removed_where (state_settings self.old).leased moment (state_map self.old)) }
        ensures sorted { IfOk result (λ keys. IsStrictlySortedBy by_bytes keys) }
        ensures region { OnOk result (Adds D.Disk self.old.journal.gate.slot disk.old disk.new (state_region_word (Records (Cleanup moment ∷ [])))) }
        ensures slot { self.new.journal.gate.slot ≡ self.old.journal.gate.slot }
        ensures tail { OnOk result (self.new.journal.held.tail ≡ min (self.old.journal.held.tail + 1) (2 ^ 64 - 1)) }
        ensures short_kept { IfErr result (λ e. HasShortTail self.old → HasShortTail self.new) }
        ensures settings { state_settings self.new ≡ state_settings self.old }
    {
        let due = prepare(self.alloc, &self.journal.held().map, moment)?;
        match self.journal.change(disk, due.region) {
            Ok(()) => Ok(due.keys),
            Err(error) => Err(error),
        }
    }

    // The same, with a checkpoint behind it where many records follow the last one.
    fn clean<D: Disk>(&mut self, disk: &mut D, moment: Positive) -> Result<Rows<Blob>, Error>
        requires stands { StoreStands D.Disk (state_shown self.old) disk.old }
        requires due { ((state_settings self.old).leased && has_due moment (state_map self.old).expiries) ≡ true }
        ensures writes { Writes D.Disk (state_shown self.old) (state_shown self.new) disk.old disk.new state_family map_held
            (cleanup_change (state_settings self.old).leased moment (state_shown self.old).value) result }
        ensures cleaned { OnOk result (state_map self.new ≡ cleaned_where (state_settings self.old).leased moment (state_map self.old)) }
        ensures same { IfErr result (λ e. (state_shown self.new).ready → state_map self.new ≡ state_map self.old) }
        ensures kept { IfErr result (λ e. (state_map self.new ≡ state_map self.old)
            ⊎ (state_map self.new ≡ cleaned_where (state_settings self.old).leased moment (state_map self.old))) }
        ensures keys { IfOk result (λ keys. keys ≡ removed_where (state_settings self.old).leased moment (state_map self.old)) }
        ensures sorted { IfOk result (λ keys. IsStrictlySortedBy by_bytes keys) }
        ensures short { OnOk result (HasShortTail self.new) }
        ensures short_kept { IfErr result (λ e. (state_shown self.new).ready → HasShortTail self.old → HasShortTail self.new) }
        ensures region { OnOk result (AddsOrRenews D.Disk self.old.journal self.new.journal disk.old disk.new 1
            (state_region_word (Records (Cleanup moment ∷ []))) (state_shown self.new).value) }
        ensures settings { state_settings self.new ≡ state_settings self.old }
    {
        match self.remove(disk, moment) {
            Ok(keys) => match self.shorten(disk) {
                Ok(()) => Ok(keys),
                Err(error) => Err(error),
            },
            Err(error) => Err(error),
        }
    }

    // Whether a cleanup at the moment removes something.
    fn is_due(&self, moment: u64) -> bool
        ensures { result ≡ (self.now.leased && has_due moment (state_map self.now).expiries) }
    {
        self.leased && self.journal.held().map.has_due(moment)
    }

    /// Configures a lease. The one given has no key, and is not kept: the state machine has the expiries itself.
    pub fn set_lease(&mut self, _lease: DefaultLease)
        requires { _lease.map ≡ [] }
        ensures { self.new ≡ record self.old { leased = true } }
    {
        self.leased = true;
    }

    /// Changes nothing: the expiries are in the state machine's files.
    pub fn load_lease_data(&mut self)
        ensures { self.new ≡ self.old }
    {}
}

impl<D: Disk> StateMachine<D> for FileStateMachine {
    ghost use Rattle.std.specs.Prelude.{◌&&◌, [], ◌∷◌, false, true, None, Some, Err, IfSome, IfOk, IfErr, IsOk, OnOk, length, max, replicate, unwrap_or, refl};
    ghost use Rattle.std.specs.List.Sorted.{IsStrictlySortedBy};
    ghost use Rattle.den_disk.specs.declared.place.Family.TheVariants.{State as state_family};
    ghost use Rattle.den_model.specs.declared.journal.JournalRecord.TheVariants.{Cleanup};
    ghost use Rattle.den_model.specs.declared.region.StateRegion.TheVariants.{Mark, Records};
    ghost use Rattle.den_model.specs.MapState.{empty_map, map_applied_all, results_of};
    ghost use Rattle.den_model.specs.Spelling.{state_region_word};
    ghost use Rattle.den_model.specs.Table.{by_bytes};
    ghost use Rattle.den_lease.specs.Due.{has_due};
    ghost use Rattle.den_map.specs.Journal.{all_recorded};
    ghost use Rattle.den_journal.specs.Causes.{IsOfDisk};
    ghost use Rattle.den_journal.specs.Writes.{DiskTells, Moves, StoreStands, Writes};
    ghost use Rattle.den_state.specs.Changes.{chunk_change, cleanup_change, mark_change, reset_change};
    ghost use Rattle.den_state.specs.Snapshots.{Generates, Installs, installed_value, snapshot_of};
    ghost use Rattle.den_state.specs.Checkpoint.{renew_change};
    ghost use Rattle.den_state.specs.Chunk.{refusal_of_chunk};
    ghost use Rattle.den_state.specs.Cleanup.{cleaned_where, removed_where};
    ghost use Rattle.den_state.specs.FileState.{HasShortTail, map_held, state_lies, state_map, state_settings, state_shown};
    ghost use Rattle.den_state.specs.Light.{weight_light};
    ghost use Rattle.den_state.specs.Machine.{Closes};
    ghost use Rattle.den_state.specs.Regions.{Adds, AddsOrRenews, HoldsCheckpoint};
    ghost use Rattle.den_snapshot.specs.Snapshots.{taken_of};

    ghost shown = { state_shown };

    ghost holds = { map_held };

    ghost map = { state_map };

    ghost settings = { state_settings };

    /// Fewer than 1,000 records follow the last Begin region.
    ghost short = { HasShortTail };

    ghost lies = { state_lies };

    ghost seen = { λ s. refl };

    ghost below = { λ s. s.below };

    ghost light = { λ s chunk n is. weight_light s.journal.gate.end s.journal.held.map chunk n is };

    /// A chunk that is refused for its order or for want of a lease leaves all as it was, as does one without entries.
    /// Any other adds one region to the journal, or writes the map anew behind it.
    fn apply_chunk(&mut self, disk: &mut D, chunk: &[Entry]) -> Result<Rows<ApplyResult>, Error>
        requires stands { StoreStands D.Disk (state_shown self.old) disk.old }
        ensures turned_away { IfSome (refusal_of_chunk (state_settings self.old).leased (state_map self.old).mark.index chunk.now)
            (λ e. (result ≡ Err e) × (self.new ≡ self.old) × (disk.new ≡ disk.old)) }
        ensures writes { refusal_of_chunk (state_settings self.old).leased (state_map self.old).mark.index chunk.now ≡ None
            → Writes D.Disk (state_shown self.old) (state_shown self.new) disk.old disk.new state_family map_held (chunk_change (state_shown self.old).value chunk.now) result }
        ensures applied { OnOk result (state_map self.new ≡ map_applied_all (state_map self.old) chunk.now) }
        ensures results { IfOk result (λ results. results ≡ results_of (state_map self.old) chunk.now) }
        ensures stored { OnOk result (1 ≤ length chunk.now → (state_shown self.new).value ≡ state_map self.new) }
        ensures same { IfErr result (λ e. (state_shown self.new).ready → state_map self.new ≡ state_map self.old) }
        ensures kept { IfErr result (λ e. IsOfDisk e → (state_map self.new ≡ state_map self.old) ⊎ (state_map self.new ≡ map_applied_all (state_map self.old) chunk.now)) }
        ensures nothing { chunk.now ≡ [] → (self.new ≡ self.old) × (disk.new ≡ disk.old) × IsOk result }
        ensures short { OnOk result (1 ≤ length chunk.now → HasShortTail self.new) }
        ensures short_kept { IfErr result (λ e. (state_shown self.new).ready → HasShortTail self.old → HasShortTail self.new) }
        ensures settings { state_settings self.new ≡ state_settings self.old }
        ensures region { OnOk result (1 ≤ length chunk.now → AddsOrRenews D.Disk self.old.journal self.new.journal disk.old disk.new (length chunk.now)
            (state_region_word (Records (all_recorded (state_shown self.old).value chunk.now))) (state_shown self.new).value) }
    {
        if let Some(index) = out_of_order(self.applied.index, chunk) {
            return Err(Error::UnorderedChunk { index });
        }
        if !self.leased && asks_lease(chunk) {
            return Err(Error::FeatureNotEnabled);
        }
        if chunk.is_empty() {
            return Ok(Rows::of(Vec::new(self.alloc)));
        }
        self.apply(disk, chunk)
    }

    fn update_last_applied(&mut self, last_applied: LogId) {
        self.applied = last_applied;
    }

    /// Adds one region of the mark to the journal.
    fn persist_last_applied(&mut self, disk: &mut D, last_applied: LogId) -> Result<(), Error>
        requires stands { StoreStands D.Disk (state_shown self.old) disk.old }
        requires above { (state_map self.old).mark.index ≤ last_applied.index }
        ensures writes { Writes D.Disk (state_shown self.old) (state_shown self.new) disk.old disk.new state_family map_held (mark_change (state_shown self.old).value last_applied) result }
        ensures map { OnOk result (state_map self.new ≡ record (state_map self.old) { mark = last_applied }) }
        ensures same { IfErr result (λ e. state_map self.new ≡ state_map self.old) }
        ensures settings { state_settings self.new ≡ state_settings self.old }
        ensures short { HasShortTail self.old → HasShortTail self.new }
        ensures region { OnOk result (Adds D.Disk self.old.journal.gate.slot disk.old disk.new (state_region_word (Mark last_applied.index last_applied.term))) }
        ensures slot { self.new.journal.gate.slot ≡ self.old.journal.gate.slot }
    {
        let region = StateRegion::Mark {
            index: last_applied.index,
            term: last_applied.term,
        };
        match self.journal.change(disk, region) {
            Ok(()) => {
                self.applied = last_applied;
                Ok(())
            }
            Err(error) => Err(error),
        }
    }

    /// Adds one region of the mark to the journal, where it is not the stored one.
    fn save_hard_state(&mut self, disk: &mut D) -> Result<(), Error>
        requires stands { StoreStands D.Disk (state_shown self.old) disk.old }
        ensures writes { Writes D.Disk (state_shown self.old) (state_shown self.new) disk.old disk.new state_family map_held (mark_change (state_shown self.old).value (state_map self.old).mark) result }
        ensures map { state_map self.new ≡ state_map self.old }
        ensures nothing { (state_shown self.old).value.mark ≡ (state_map self.old).mark → (self.new ≡ self.old) × (disk.new ≡ disk.old) × IsOk result }
        ensures settings { state_settings self.new ≡ state_settings self.old }
        ensures short { HasShortTail self.old → HasShortTail self.new }
        ensures region { OnOk result (((state_shown self.old).value.mark ≡ (state_map self.old).mark → ⊥) → Adds D.Disk self.old.journal.gate.slot disk.old disk.new
            (state_region_word (Mark (state_map self.old).mark.index (state_map self.old).mark.term))) }
        ensures slot { self.new.journal.gate.slot ≡ self.old.journal.gate.slot }
    {
        let stored = self.journal.held().map.mark();
        let mark = self.applied;
        if stored.index == mark.index && stored.term == mark.term {
            return Ok(());
        }
        self.persist_last_applied(disk, mark)
    }

    /// Adds one region of the mark to the journal, where it is not the stored one.
    fn close(mut self, disk: &mut D) -> Result<(), Error>
        requires stands { StoreStands D.Disk (state_shown self) disk.old }
        ensures closes { Closes D.Disk (state_shown self) disk.old disk.new state_family map_held (mark_change (state_shown self).value (state_map self).mark) result }
        ensures nothing { (state_shown self).value.mark ≡ (state_map self).mark → (disk.new ≡ disk.old) × IsOk result }
        ensures region { OnOk result (((state_shown self).value.mark ≡ (state_map self).mark → ⊥) → Adds D.Disk self.journal.gate.slot disk.old disk.new
            (state_region_word (Mark (state_map self).mark.index (state_map self).mark.term))) }
    {
        self.save_hard_state(disk)
    }

    /// Adds one region of the cleanup to the journal, where a key has expired, or writes the map anew behind it.
    fn lease_background_cleanup(&mut self, disk: &mut D, now: u64) -> Result<Rows<Blob>, Error>
        requires stands { StoreStands D.Disk (state_shown self.old) disk.old }
        ensures writes { Writes D.Disk (state_shown self.old) (state_shown self.new) disk.old disk.new state_family map_held
            (cleanup_change (state_settings self.old).leased (max now 1) (state_shown self.old).value) result }
        ensures cleaned { OnOk result (state_map self.new ≡ cleaned_where (state_settings self.old).leased (max now 1) (state_map self.old)) }
        ensures same { IfErr result (λ e. (state_shown self.new).ready → state_map self.new ≡ state_map self.old) }
        ensures kept { IfErr result (λ e. (state_map self.new ≡ state_map self.old) ⊎ (state_map self.new ≡ cleaned_where (state_settings self.old).leased (max now 1) (state_map self.old))) }
        ensures keys { IfOk result (λ keys. keys ≡ removed_where (state_settings self.old).leased (max now 1) (state_map self.old)) }
        ensures sorted { IfOk result (λ keys. IsStrictlySortedBy by_bytes keys) }
        ensures nothing { ((state_settings self.old).leased && has_due (max now 1) (state_map self.old).expiries) ≡ false → (self.new ≡ self.old) × (disk.new ≡ disk.old) × IsOk result }
        ensures short { OnOk result (((state_settings self.old).leased && has_due (max now 1) (state_map self.old).expiries) ≡ true → HasShortTail self.new) }
        ensures short_kept { IfErr result (λ e. (state_shown self.new).ready → HasShortTail self.old → HasShortTail self.new) }
        ensures settings { state_settings self.new ≡ state_settings self.old }
        ensures region { OnOk result (((state_settings self.old).leased && has_due (max now 1) (state_map self.old).expiries) ≡ true
            → AddsOrRenews D.Disk self.old.journal self.new.journal disk.old disk.new 1 (state_region_word (Records (Cleanup (max now 1) ∷ []))) (state_shown self.new).value) }
    {
        let moment = Positive::of(now.max(1));
        if !self.is_due(moment.get()) {
            return Ok(Rows::of(Vec::new(self.alloc)));
        }
        self.clean(disk, moment)
    }

    /// Whether a write was refused, by a fault of the disk or a full one, or memory was wanting behind a write. It is
    /// opened anew then.
    fn is_failed(&self) -> bool {
        self.journal.is_failed()
    }

    fn flush(&mut self, disk: &mut D) -> Result<(), Error>
        requires stands { StoreStands D.Disk (state_shown self.old) disk.old }
        ensures writes { Writes D.Disk (state_shown self.old) (state_shown self.new) disk.old disk.new state_family map_held (renew_change (state_shown self.old).value) result }
        ensures map { state_map self.new ≡ state_map self.old }
        ensures value { (state_shown self.new).value ≡ (state_shown self.old).value }
        ensures short { OnOk result (HasShortTail self.new) }
        ensures short_kept { IfErr result (λ e. HasShortTail self.old → HasShortTail self.new) }
        ensures failed { IfErr result (λ e. (state_shown self.new).ready → ⊥) }
        ensures settings { state_settings self.new ≡ state_settings self.old }
        ensures checkpoint { OnOk result (HoldsCheckpoint D.Disk self.new.journal.gate.slot disk.old disk.new (state_shown self.old).value) }
    {
        self.checkpoint(disk)
    }

    /// Writes the journal anew as one region, which begins with no entry.
    fn reset(&mut self, disk: &mut D) -> Result<(), Error>
        requires stands { StoreStands D.Disk (state_shown self.old) disk.old }
        ensures writes { Writes D.Disk (state_shown self.old) (state_shown self.new) disk.old disk.new state_family map_held reset_change result }
        ensures map { OnOk result (state_map self.new ≡ empty_map) }
        ensures same { IfErr result (λ e. state_map self.new ≡ state_map self.old) }
        ensures short { OnOk result (HasShortTail self.new) }
        ensures settings { OnOk result (state_settings self.new ≡ record (state_settings self.old) { metadata = None }) }
        ensures settings_kept { IfErr result (λ e. state_settings self.new ≡ state_settings self.old) }
        ensures short_kept { IfErr result (λ e. HasShortTail self.old → HasShortTail self.new) }
        ensures checkpoint { OnOk result (HoldsCheckpoint D.Disk self.new.journal.gate.slot disk.old disk.new empty_map) }
    {
        let region = StateRegion::Begin { index: 0, term: 0 };
        match self.journal.rewrite(disk, region, None) {
            Ok(()) => {
                self.applied = LogId { index: 0, term: 0 };
                self.metadata = None;
                Ok(())
            }
            Err(error) => Err(error),
        }
    }

    /// Writes the snapshot's word as the one region of the Snapshot family's files.
    fn generate_snapshot_data(&mut self, disk: &mut D, last_included: LogId) -> Result<Blob, Error>
        requires stands { StoreStands D.Disk (state_shown self.old) disk.old }
        ensures generates { Generates D.Disk (state_shown self.old) (state_shown self.new) disk.old disk.new (taken_of last_included (state_map self.old)) result }
        ensures map { state_map self.new ≡ state_map self.old }
        ensures checksum { IfOk result (λ checksum. checksum ≡ replicate 32 0) }
        ensures settings { OnOk result (state_settings self.new ≡ record (state_settings self.old) { metadata = Some (record { last_included = Some last_included; checksum = replicate 32 0 }) }) }
        ensures settings_kept { IfErr result (λ e. state_settings self.new ≡ state_settings self.old) }
        ensures short { HasShortTail self.old → HasShortTail self.new }
        ensures slot { self.new.journal.gate.slot ≡ self.old.journal.gate.slot }
    {
        let checksum = Blob::of(self.alloc, &NO_CHECKSUM)?;
        let word = word_of(self.alloc, &self.journal.held().map, last_included)?;
        match write_one(disk, Family::Snapshot, word) {
            Ok(()) => {
                self.metadata = Some(SnapshotMetadata {
                    last_included: Some(last_included),
                    checksum: NO_CHECKSUM,
                });
                Ok(checksum)
            }
            Err(error) => {
                self.journal.give_up();
                Err(error)
            }
        }
    }

    /// Writes the journal anew as a checkpoint of the snapshot's map after its cleanup, so that a crash leaves the old map or
    /// that one.
    fn apply_snapshot_from_file(
        &mut self,
        disk: &mut D,
        metadata: &SnapshotMetadata,
        now: u64,
    ) -> Result<(), Error>
        requires stands { StoreStands D.Disk (state_shown self.old) disk.old }
        ensures installs { Installs D.Disk (state_settings self.old).leased (max now 1) metadata.now.last_included (state_shown self.old) (state_shown self.new)
            (state_map self.old) (state_map self.new) disk.old disk.new map_held result }
        ensures settings { OnOk result (state_settings self.new ≡ record (state_settings self.old) { metadata = Some metadata.now }) }
        ensures settings_kept { IfErr result (λ e. state_settings self.new ≡ state_settings self.old) }
        ensures short { OnOk result (HasShortTail self.new) }
        ensures short_kept { IfErr result (λ e. HasShortTail self.old → HasShortTail self.new) }
        ensures crash { DiskTells D.Disk disk.old → Moves D.Disk state_family map_held ((state_shown self.old).value ∷ installed_value (state_settings self.old).leased (max now 1)
            (unwrap_or metadata.now.last_included (state_shown self.old).value.mark) (snapshot_of (D.content disk.old).reading)) disk.old disk.new }
        ensures checkpoint { OnOk result (HoldsCheckpoint D.Disk self.new.journal.gate.slot disk.old disk.new (state_shown self.new).value) }
    {
        let snapshot = match self.find_snapshot(disk) {
            Ok(snapshot) => snapshot,
            Err(error) => return Err(error),
        };
        let moment = Positive::of(now.max(1));
        let stored = metadata
            .last_included
            .unwrap_or(self.journal.held().map.mark());
        let applied = metadata.last_included.unwrap_or(self.applied);
        let held = installed(self.alloc, &snapshot, stored, self.leased, moment)?;
        match self.put(disk, held, applied) {
            Ok(()) => {
                self.metadata = Some(*metadata);
                Ok(())
            }
            Err(error) => Err(error),
        }
    }

    fn has_lease(&self) -> bool {
        self.leased
    }

    fn holds_expiry(&self) -> bool {
        0 < self.journal.held().map.expiry_count()
    }

    fn get(&self, key: &[u8]) -> Option<&Blob> {
        self.journal.held().map.get(key)
    }

    fn start(&mut self) {
        self.running = true;
    }

    fn stop(&mut self) {
        self.running = false;
    }

    fn is_running(&self) -> bool {
        self.running
    }

    fn snapshot_metadata(&self) -> Option<SnapshotMetadata> {
        self.metadata
    }

    fn update_last_snapshot_metadata(&mut self, snapshot_metadata: SnapshotMetadata) {
        self.metadata = Some(snapshot_metadata);
    }

    fn persist_last_snapshot_metadata(&mut self, snapshot_metadata: SnapshotMetadata) {
        self.metadata = Some(snapshot_metadata);
    }

    fn len(&self) -> usize {
        self.journal.held().map.len()
    }

    fn is_empty(&self) -> bool {
        self.journal.held().map.len() == 0
    }

    fn scan_prefix(&self, prefix: &[u8]) -> Result<ScanResult, Error> {
        Ok(ScanResult {
            entries: self.journal.held().map.pairs_under(self.alloc, prefix)?,
            revision: self.applied.index,
        })
    }

    fn entry_term(&self, _entry_id: u64) -> Option<u64> {
        None
    }

    fn last_applied(&self) -> LogId {
        self.applied
    }
}
