//! Snapshots: what is stored in the Snapshot family's files, and what is put in the map's place.
ghost use Rattle.std.specs.Prelude.{◌≡◌, ◌≤◌, ◌⊎◌, ℕ, [], ◌∷◌, false, Option, IfOk, IfErr, OnOk};
ghost use Rattle.den_disk.specs.declared.place.Family.TheVariants.{State as state_family};
ghost use Rattle.den_model.specs.declared.log_id.LogId.{LogId};
ghost use Rattle.den_snapshot.specs.Snapshots.{taken_of};
ghost use Rattle.den_snapshot.specs.Words.{snapshot_word, FitsSnapshot};
ghost use Rattle.den_journal.specs.Writes.{DiskTells, GoesOn, Moves, StoreStands};
ghost use Rattle.den_state.specs.Checkpoint.{Replaces};
ghost use Rattle.den_state.specs.FileState.{map_held, state_map, state_settings, state_shown};
ghost use Rattle.den_state.specs.Snapshots.{installed, is_fault, wants_lease, IsFound, IsLeft, IsUninstalled};

use crate::FileStateMachine;
use crate::checkpoint::commit_map;
use crate::stored_map::StoredMap;
use den_codec::{Blob, Error, LogId, Positive, Word};
use den_disk::{Disk, Family};
use den_journal::{Folded, read_one};
use den_map::Map;
use den_snapshot::Snapshot;
use std::alloc::{AllocError, Global};

/// The word of a snapshot of the map, under this mark.
pub(crate) fn word_of(alloc: Global, map: &Map, mark: LogId) -> Result<Blob, AllocError>
    ensures word { IfOk result (λ word. word ≡ snapshot_word (taken_of mark map.now)) }
    ensures fits { OnOk result (FitsSnapshot (taken_of mark map.now)) }
{
    let mut word = Vec::new(alloc);
    Snapshot::of_map(alloc, map, mark)?.write(&mut word)?;
    Blob::of(alloc, word.as_slice())
}

/// The map that a snapshot gives under this mark, once its expired keys are gone where a lease is configured, with no record
/// behind its beginning.
pub(crate) fn installed(
    alloc: Global,
    snapshot: &Snapshot,
    mark: LogId,
    leased: bool,
    moment: Positive,
) -> Result<StoredMap, AllocError>
    ensures map { IfOk result (λ held. held.map ≡ installed leased moment mark snapshot.now) }
    ensures tail { IfOk result (λ held. held.tail ≡ 0) }
{
    let mut map = snapshot.to_map(alloc, mark)?;
    if leased {
        map.clean(moment);
    }
    Ok(StoredMap {
        alloc,
        map,
        tail: 0,
    })
}

// Whether a snapshot has a key that expires, where no lease is configured.
fn wants_lease(leased: bool, snapshot: &Snapshot) -> bool
    ensures { result ≡ wants_lease leased snapshot.now }
{
    snapshot.holds_expiry() && !leased
}

// Whether the disk failed.
fn is_fault(error: &Error) -> bool
    ensures { result ≡ is_fault error.now }
{
    match error {
        Error::StorageIoError => true,
        Error::OutOfMemory
        | Error::DiskFull { .. }
        | Error::LinkFault
        | Error::DataCorruption { .. }
        | Error::FeatureNotEnabled
        | Error::ProposeFailed
        | Error::UnorderedChunk { .. }
        | Error::Config { .. }
        | Error::ConfigFault
        | Error::StateMachineError => false,
    }
}

impl FileStateMachine {
    // The snapshot that the files hold, where the lease allows it. A fault of the disk ends the machine's use.
    pub(crate) fn find_snapshot<D: Disk>(&mut self, disk: &mut D) -> Result<Snapshot, Error>
        requires stands { StoreStands D.Disk (state_shown self.old) disk.old }
        ensures goes_on { GoesOn D.Disk disk.old disk.new }
        ensures moves { DiskTells D.Disk disk.old → Moves D.Disk state_family map_held ((state_shown self.old).value ∷ []) disk.old disk.new }
        ensures found { IfOk result (λ taken. IsFound D.Disk self.old.leased disk.old taken false) }
        ensures same { OnOk result (self.new ≡ self.old) }
        ensures rests { OnOk result (DiskTells D.Disk disk.old → (state_shown self.new).rests (D.content disk.new)) }
        ensures left { OnOk result (IsLeft D.Disk (state_shown self.old) (state_shown self.new) (state_map self.old) (state_map self.new) disk.old disk.new) }
        ensures refused { (moment : ℕ) (last : Option LogId) → IfErr result (IsUninstalled D.Disk self.old.leased moment last
            (state_shown self.old) (state_shown self.new) (state_map self.old) (state_map self.new) disk.old disk.new map_held.told) }
        ensures value { (state_shown self.new).value ≡ (state_shown self.old).value }
        ensures held { self.new.journal.held ≡ self.old.journal.held }
        ensures map { state_map self.new ≡ state_map self.old }
        ensures settings { state_settings self.new ≡ state_settings self.old }
    {
        match read_one::<Snapshot, D>(self.alloc, disk, Family::Snapshot) {
            Ok(snapshot) => {
                if wants_lease(self.leased, &snapshot) {
                    return Err(Error::FeatureNotEnabled);
                }
                Ok(snapshot)
            }
            Err(error) => {
                if is_fault(&error) {
                    self.journal.give_up();
                    return Err(error);
                }
                Err(error)
            }
        }
    }

    // Puts a map in the map's place, and a mark in the applied one's: as a checkpoint in the slot that is not in use, which is the
    // one in use then. A refusal ends the machine's use, and leaves both or neither.
    pub(crate) fn put<D: Disk>(
        &mut self,
        disk: &mut D,
        held: StoredMap,
        applied: LogId,
    ) -> Result<(), Error>
        requires stands { StoreStands D.Disk (state_shown self.old) disk.old }
        requires below { held.map.mark.index ≤ applied.index }
        ensures replaces { Replaces ⟦<StoredMap as Folded>⟧ D.Disk held self.old.journal self.new.journal disk.old disk.new result }
        ensures applied { OnOk result (self.new.applied ≡ applied) }
        ensures kept { IfErr result (λ e. ((self.new.journal.held ≡ self.old.journal.held) × (self.new.applied ≡ self.old.applied))
            ⊎ ((self.new.journal.held ≡ held) × (self.new.applied ≡ applied))) }
        ensures settings { state_settings self.new ≡ state_settings self.old }
    {
        match self.journal.draft_begin(disk) {
            Ok(()) => {
                self.journal.draft_turn_to(held);
                self.applied = applied;
                commit_map(self.alloc, &mut self.journal, disk)
            }
            Err(error) => Err(error),
        }
    }
}
