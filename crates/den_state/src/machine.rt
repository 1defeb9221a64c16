//! What a state machine is.
ghost use Rattle.std.specs.Prelude.{◌≡◌, ◌==◌, ◌≤◌, ◌+◌, ◌↔◌, ◌⊎◌, ◌&&◌, ℕ, true, false, List, [], ◌∷◌, max, length, Option, Some, None, IfSome, IsOk, OnOk, IfOk, IfErr, option_map, replicate, Err};
ghost use Rattle.den_disk.specs.declared.place.Family.TheVariants.{State as state_family};
ghost use Rattle.den_model.specs.Entries.{LogEntry};
ghost use Rattle.den_model.specs.MapState.{MapState, empty_map, map_applied_all, results_of, part_of};
ghost use Rattle.den_model.specs.Sizes.{entries_size, store_rise};
ghost use Rattle.den_model.specs.Apply.{value_at};
ghost use Rattle.std.specs.List.Sorted.{IsStrictlySortedBy};
ghost use Rattle.den_codec.specs.declared.error.Error.TheVariants.{OutOfMemory};
ghost use Rattle.den_model.specs.Step.{pairs_under};
ghost use Rattle.den_model.specs.Table.{by_bytes};
ghost use Rattle.den_lease.specs.Due.{has_due};
ghost use Rattle.den_map.specs.Leases.{has_expiry};
ghost use Rattle.den_map.specs.Scan.{keys_in};
ghost use Rattle.den_snapshot.specs.Snapshots.{taken_of};
ghost use Rattle.den_journal.specs.Causes.{IsOfDisk};
ghost use Rattle.den_journal.specs.Lies.{Lies};
ghost use Rattle.den_journal.specs.Shown.{Held, Shown};
ghost use Rattle.den_journal.specs.Writes.{StoreStands, Writes};
ghost use Rattle.den_state.specs.Changes.{chunk_change, cleanup_change, mark_change, reset_change};
ghost use Rattle.den_state.specs.Checkpoint.{IsCheckpointSize, renew_change};
ghost use Rattle.den_state.specs.Chunk.{refusal_of_chunk};
ghost use Rattle.den_state.specs.Cleanup.{cleaned_where, removed_where};
ghost use Rattle.den_state.specs.Machine.{Closes, Settings, StaysAs};
ghost use Rattle.den_state.specs.Snapshots.{Generates, Installs};

use crate::SnapshotMetadata;
use den_codec::{ApplyResult, Blob, Entry, Error, LogId, Rows, ScanResult};
use den_disk::Disk;

/// A map of pairs and expiries with its mark: index and term of the last entry that was applied. A mark may be applied and
/// not stored: its files give the map with the older, stored mark then.
pub trait StateMachine<D: Disk>: Drop {
    /// Pairs, expiries and the stored mark, which its files give, and what else is seen of a store.
    ghost shown: { Self → Shown MapState };

    /// What files give of a map, and whether it is told.
    ghost holds: { Held MapState };

    /// Pairs, expiries and the applied mark.
    ghost map: { Self → MapState };

    /// Whether a lease is configured, whether it runs, which it does once it is opened, and what was last said of a
    /// snapshot.
    ghost settings: { Self → Settings };

    /// Its files ask for no checkpoint: few records follow the last checkpoint.
    ghost short: { Self → Type 0 };

    /// Applies entries in order, each swap seeing the writes before it, and answers whether each succeeded. A chunk out
    /// of order, or with a time to live where no lease is configured, is refused with nothing changed; a fault of the
    /// disk or a full one ends its use; want of memory leaves all as it was, or ends its use. A chunk without entries
    /// changes nothing. A crash inside leaves the old map with the old stored mark, or the new map. Its files ask for no
    /// checkpoint then.
    fn apply_chunk(&mut self, disk: &mut D, chunk: &[Entry]) -> Result<Rows<ApplyResult>, Error>
        requires stands { StoreStands D.Disk (shown self.old) disk.old }
        ensures turned_away { IfSome (refusal_of_chunk (settings self.old).leased (map self.old).mark.index chunk.now)
            (λ e. (result ≡ Err e) × (self.new ≡ self.old) × (disk.new ≡ disk.old)) }
        ensures writes { refusal_of_chunk (settings self.old).leased (map self.old).mark.index chunk.now ≡ None
            → Writes D.Disk (shown self.old) (shown self.new) disk.old disk.new state_family holds (chunk_change (shown self.old).value chunk.now) result }
        ensures applied { OnOk result (map self.new ≡ map_applied_all (map self.old) chunk.now) }
        ensures results { IfOk result (λ results. results ≡ results_of (map self.old) chunk.now) }
        ensures stored { OnOk result (1 ≤ length chunk.now → (shown self.new).value ≡ map self.new) }
        ensures same { IfErr result (λ e. (shown self.new).ready → map self.new ≡ map self.old) }
        ensures kept { IfErr result (λ e. IsOfDisk e → (map self.new ≡ map self.old) ⊎ (map self.new ≡ map_applied_all (map self.old) chunk.now)) }
        ensures nothing { chunk.now ≡ [] → (self.new ≡ self.old) × (disk.new ≡ disk.old) × IsOk result }
        ensures short { OnOk result (1 ≤ length chunk.now → short self.new) }
        ensures short_kept { IfErr result (λ e. (shown self.new).ready → short self.old → short self.new) }
        ensures settings { settings self.new ≡ settings self.old };

    /// Moves the applied mark, in memory alone.
    fn update_last_applied(&mut self, last_applied: LogId)
        requires above { (map self.old).mark.index ≤ last_applied.index }
        ensures map { map self.new ≡ record (map self.old) { mark = last_applied } }
        ensures settings { settings self.new ≡ settings self.old }
        ensures same { StaysAs shown short self.old self.new };

    /// Moves the applied mark and the stored one. A crash inside leaves the old map with the old stored mark, or the
    /// map with the new one.
    fn persist_last_applied(&mut self, disk: &mut D, last_applied: LogId) -> Result<(), Error>
        requires stands { StoreStands D.Disk (shown self.old) disk.old }
        requires above { (map self.old).mark.index ≤ last_applied.index }
        ensures writes { Writes D.Disk (shown self.old) (shown self.new) disk.old disk.new state_family holds (mark_change (shown self.old).value last_applied) result }
        ensures map { OnOk result (map self.new ≡ record (map self.old) { mark = last_applied }) }
        ensures same { IfErr result (λ e. map self.new ≡ map self.old) }
        ensures settings { settings self.new ≡ settings self.old }
        ensures short { short self.old → short self.new };

    /// Stores the applied mark. Where it is stored it writes nothing.
    fn save_hard_state(&mut self, disk: &mut D) -> Result<(), Error>
        requires stands { StoreStands D.Disk (shown self.old) disk.old }
        ensures writes { Writes D.Disk (shown self.old) (shown self.new) disk.old disk.new state_family holds (mark_change (shown self.old).value (map self.old).mark) result }
        ensures map { map self.new ≡ map self.old }
        ensures nothing { (shown self.old).value.mark ≡ (map self.old).mark → (self.new ≡ self.old) × (disk.new ≡ disk.old) × IsOk result }
        ensures settings { settings self.new ≡ settings self.old }
        ensures short { short self.old → short self.new };

    /// Stores the applied mark, and lets the state machine go. Where it is stored it writes nothing.
    fn close(self, disk: &mut D) -> Result<(), Error>
        requires stands { StoreStands D.Disk (shown self) disk.old }
        ensures closes { Closes D.Disk (shown self) disk.old disk.new state_family holds (mark_change (shown self).value (map self).mark) result }
        ensures nothing { (shown self).value.mark ≡ (map self).mark → (disk.new ≡ disk.old) × IsOk result };

    /// Removes each key whose expiry is at most the moment, which counts as 1 where it is 0, with its expiry. Answers
    /// the removed keys, sorted. Without a lease, or where none has expired, it writes nothing. Once it has written, its
    /// files ask for no checkpoint.
    fn lease_background_cleanup(&mut self, disk: &mut D, now: u64) -> Result<Rows<Blob>, Error>
        requires stands { StoreStands D.Disk (shown self.old) disk.old }
        ensures writes { Writes D.Disk (shown self.old) (shown self.new) disk.old disk.new state_family holds
            (cleanup_change (settings self.old).leased (max now 1) (shown self.old).value) result }
        ensures cleaned { OnOk result (map self.new ≡ cleaned_where (settings self.old).leased (max now 1) (map self.old)) }
        ensures same { IfErr result (λ e. (shown self.new).ready → map self.new ≡ map self.old) }
        ensures kept { IfErr result (λ e. (map self.new ≡ map self.old) ⊎ (map self.new ≡ cleaned_where (settings self.old).leased (max now 1) (map self.old))) }
        ensures keys { IfOk result (λ keys. keys ≡ removed_where (settings self.old).leased (max now 1) (map self.old)) }
        ensures sorted { IfOk result (λ keys. IsStrictlySortedBy by_bytes keys) }
        ensures nothing { ((settings self.old).leased && has_due (max now 1) (map self.old).expiries) ≡ false → (self.new ≡ self.old) × (disk.new ≡ disk.old) × IsOk result }
        ensures short { OnOk result (((settings self.old).leased && has_due (max now 1) (map self.old).expiries) ≡ true → short self.new) }
        ensures short_kept { IfErr result (λ e. (shown self.new).ready → short self.old → short self.new) }
        ensures settings { settings self.new ≡ settings self.old };

    /// Writes its files anew: the map with the stored mark, without a record. The map stays. A crash inside leaves it, and a
    /// refusal ends its use.
    fn flush(&mut self, disk: &mut D) -> Result<(), Error>
        requires stands { StoreStands D.Disk (shown self.old) disk.old }
        ensures writes { Writes D.Disk (shown self.old) (shown self.new) disk.old disk.new state_family holds (renew_change (shown self.old).value) result }
        ensures map { map self.new ≡ map self.old }
        ensures value { (shown self.new).value ≡ (shown self.old).value }
        ensures short { OnOk result (short self.new) }
        ensures short_kept { IfErr result (λ e. short self.old → short self.new) }
        ensures failed { IfErr result (λ e. (shown self.new).ready → ⊥) }
        ensures settings { settings self.new ≡ settings self.old };

    /// Removes all pairs and expiries, both marks and what was last said of a snapshot, and writes its files anew: no entry
    /// is applied then. A crash inside leaves the old map with the old stored mark, or the empty one; want of memory leaves
    /// all as it was, and a refusal of the disk ends its use.
    fn reset(&mut self, disk: &mut D) -> Result<(), Error>
        requires stands { StoreStands D.Disk (shown self.old) disk.old }
        ensures writes { Writes D.Disk (shown self.old) (shown self.new) disk.old disk.new state_family holds reset_change result }
        ensures map { OnOk result (map self.new ≡ empty_map) }
        ensures same { IfErr result (λ e. map self.new ≡ map self.old) }
        ensures short { OnOk result (short self.new) }
        ensures settings { OnOk result (settings self.new ≡ record (settings self.old) { metadata = None }) }
        ensures settings_kept { IfErr result (λ e. settings self.new ≡ settings self.old) }
        ensures short_kept { IfErr result (λ e. short self.old → short self.new) };

    /// Stores a snapshot: pairs and expiries under this mark, as the one word of the Snapshot family's files. Answers its
    /// checksum, 32 zeros: none is made. What was last said of a snapshot is this mark and checksum then. The map and its
    /// own files stay. A crash inside leaves the snapshot that stood there, or this one; files of the Snapshot family that
    /// cannot be read are emptied first. Want of memory leaves all as it was, and a refusal of the disk ends its use.
    fn generate_snapshot_data(&mut self, disk: &mut D, last_included: LogId) -> Result<Blob, Error>
        requires stands { StoreStands D.Disk (shown self.old) disk.old }
        ensures generates { Generates D.Disk (shown self.old) (shown self.new) disk.old disk.new (taken_of last_included (map self.old)) result }
        ensures map { map self.new ≡ map self.old }
        ensures checksum { IfOk result (λ checksum. checksum ≡ replicate 32 0) }
        ensures settings { OnOk result (settings self.new ≡ record (settings self.old) { metadata = Some (record { last_included = Some last_included; checksum = replicate 32 0 }) }) }
        ensures settings_kept { IfErr result (λ e. settings self.new ≡ settings self.old) }
        ensures short { short self.old → short self.new };

    /// Puts the snapshot in the Snapshot family's files in the map's place: pairs and expiries are the snapshot's then, both
    /// marks are the metadata's last entry where it names one, and stay where it does not, and the metadata is what was last
    /// said of a snapshot. Then each key goes whose expiry is at most the moment, which counts as 1 where it is 0, where a
    /// lease is configured. `DataCorruption` comes exactly where the Snapshot family's files are not one region that is a
    /// snapshot's word, and names the slot in use and offset 0; `FeatureNotEnabled` comes exactly where the snapshot has a
    /// key that expires and no lease is configured: nothing changes then. A crash inside leaves the old map, the new one, or
    /// the snapshot's before its cleanup. Want of memory leaves all as it was, or ends its use, and a refusal of the disk
    /// ends it.
    fn apply_snapshot_from_file(
        &mut self,
        disk: &mut D,
        metadata: &SnapshotMetadata,
        now: u64,
    ) -> Result<(), Error>
        requires stands { StoreStands D.Disk (shown self.old) disk.old }
        ensures installs { Installs D.Disk (settings self.old).leased (max now 1) metadata.now.last_included (shown self.old) (shown self.new)
            (map self.old) (map self.new) disk.old disk.new holds result }
        ensures settings { OnOk result (settings self.new ≡ record (settings self.old) { metadata = Some metadata.now }) }
        ensures settings_kept { IfErr result (λ e. settings self.new ≡ settings self.old) }
        ensures short { OnOk result (short self.new) }
        ensures short_kept { IfErr result (λ e. short self.old → short self.new) };

    /// Whether a refusal left it of no more use. It is opened anew then.
    fn is_failed(&self) -> bool
        ensures { (result ≡ false) ↔ (shown self.now).ready };

    /// Whether a lease is configured.
    fn has_lease(&self) -> bool
        ensures { result ≡ (settings self.now).leased };

    /// Whether a key has an expiry.
    fn holds_expiry(&self) -> bool
        ensures { result ≡ has_expiry (map self.now) };

    /// The value at a key.
    fn get(&self, key: &[u8]) -> Option<&Blob>
        ensures { option_map (λ b. b.now) result ≡ value_at (part_of (map self.now) 0) key.now };

    /// Marks it as running, in memory.
    fn start(&mut self)
        ensures settings { settings self.new ≡ record (settings self.old) { running = true } }
        ensures map { map self.new ≡ map self.old }
        ensures same { StaysAs shown short self.old self.new };

    /// Marks it as stopped, in memory. Its other calls are as before.
    fn stop(&mut self)
        ensures settings { settings self.new ≡ record (settings self.old) { running = false } }
        ensures map { map self.new ≡ map self.old }
        ensures same { StaysAs shown short self.old self.new };

    /// Whether it runs: once it is opened, and after a start until a stop.
    fn is_running(&self) -> bool
        ensures { result ≡ (settings self.now).running };

    /// What was last said of a snapshot.
    fn snapshot_metadata(&self) -> Option<SnapshotMetadata>
        ensures { result ≡ (settings self.now).metadata };

    /// Says something of a snapshot, in memory.
    fn update_last_snapshot_metadata(&mut self, snapshot_metadata: SnapshotMetadata)
        ensures settings { settings self.new ≡ record (settings self.old) { metadata = Some snapshot_metadata } }
        ensures map { map self.new ≡ map self.old }
        ensures same { StaysAs shown short self.old self.new };

    /// The same: nothing of it is written.
    fn persist_last_snapshot_metadata(&mut self, snapshot_metadata: SnapshotMetadata)
        ensures settings { settings self.new ≡ record (settings self.old) { metadata = Some snapshot_metadata } }
        ensures map { map self.new ≡ map self.old }
        ensures same { StaysAs shown short self.old self.new };

    /// How many pairs the map has.
    fn len(&self) -> usize
        ensures { result ≡ length (map self.now).pairs };

    /// Whether it has none.
    fn is_empty(&self) -> bool
        ensures { result ≡ (length (map self.now).pairs == 0) };

    /// The pairs whose keys begin with the prefix, sorted, and the applied index of the same map.
    fn scan_prefix(&self, prefix: &[u8]) -> Result<ScanResult, Error>
        ensures pairs { IfOk result (λ scan. scan ≡ record { entries = pairs_under (map self.now).pairs prefix.now; revision = (map self.now).mark.index }) }
        ensures sorted { IfOk result (λ scan. IsStrictlySortedBy by_bytes (keys_in scan.entries)) }
        ensures refused { IfErr result (λ e. e ≡ OutOfMemory) };

    /// The term of an entry: the map keeps none.
    fn entry_term(&self, entry_id: u64) -> Option<u64>
        ensures { result ≡ None };

    /// Index and term of the last entry that was applied.
    fn last_applied(&self) -> LogId
        ensures { result ≡ (map self.now).mark };

    /// Only its own files count, and they give its map with the stored mark, where it tells what they give, whatever a
    /// crash does to what is pending.
    ghost lies: { Lies state_family holds shown };

    /// The stored map is the map, but for its mark.
    ghost seen: { (s : Self) → (shown s).value ≡ record (map s) { mark = (shown s).value.mark } };

    /// The stored mark is not above the applied one, which may have moved on since.
    ghost below: { (s : Self) → (shown s).value.mark.index ≤ (map s).mark.index };

    /// No payload of a checkpoint that a chunk may ask for is larger than the weight with the chunk's rise.
    ghost light: { (s : Self) (chunk : List LogEntry) (n : ℕ) → IsCheckpointSize (map_applied_all (shown s).value chunk) n
        → n ≤ (shown s).weight + store_rise (entries_size chunk) };
}
