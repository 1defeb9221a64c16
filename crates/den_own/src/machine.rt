//! A state machine in memory alone.
ghost use Rattle.std.specs.Prelude.{◌≡◌, ◌≤◌, ◌⊎◌, ◌&&◌, true, false, None, OnOk, IfOk, IfErr};
ghost use Rattle.den_codec.specs.declared.error.Error.TheVariants.{OutOfMemory};
ghost use Rattle.den_lease.specs.Due.{has_due};
ghost use Rattle.den_map.specs.Order.{out_of_order};
ghost use Rattle.den_model.specs.MapState.{empty_map, map_applied_all, results_of};

use den_codec::{ApplyResult, Blob, Entry, Error, LogId, Positive, Rows, ScanResult, StateRegion};
use den_disk::Disk;
use den_map::{Map, asks_lease, out_of_order};
use den_state::{SnapshotMetadata, StateMachine};
use std::alloc::Global;

/// A map in memory with the applied mark, and the mark that counts as stored.
#[derive(Drop)]
pub struct OwnMachine {
    alloc: Global,
    map: Map,
    stored: LogId,
    leased: bool,
    running: bool,
    metadata: Option<SnapshotMetadata>,
    // Memory was wanting in the midst of a chunk.
    failed: bool,
    ghost below: { stored.index ≤ map.mark.index },
}

impl OwnMachine {
    ghost use Rattle.den_own.specs.Machines.{machine_settings, machine_shown};

    /// An empty map, with leases or without.
    pub fn new(alloc: Global, leased: bool) -> OwnMachine
        ensures map { result.map ≡ empty_map }
        ensures stored { (machine_shown result).value ≡ empty_map }
        ensures ready { (machine_shown result).ready }
        ensures leased { result.leased ≡ leased }
    {
        let mark = LogId { index: 0, term: 0 };
        OwnMachine {
            alloc,
            map: Map::at(alloc, mark),
            stored: mark,
            leased,
            running: true,
            metadata: None,
            failed: false,
        }
    }

    // Applies entries that are in order. Where memory is wanting in the midst of them, it has failed.
    fn apply(&mut self, chunk: &[Entry]) -> Result<Rows<ApplyResult>, Error>
        requires ready { self.old.failed ≡ false }
        requires in_order { out_of_order self.old.map.mark.index chunk.now ≡ None }
        ensures applied { OnOk result (self.new.map ≡ map_applied_all self.old.map chunk.now) }
        ensures results { IfOk result (λ results. results ≡ results_of self.old.map chunk.now) }
        ensures stored { OnOk result (self.new.stored ≡ self.new.map.mark) }
        ensures going { OnOk result (self.new.failed ≡ false) }
        ensures refused { IfErr result (λ e. (e ≡ OutOfMemory) × ((self.new ≡ self.old) ⊎ (self.new.failed ≡ true))) }
        ensures settings { machine_settings self.new ≡ machine_settings self.old }
    {
        let journaled = self.map.journal(self.alloc, chunk)?;
        let records = Rows::of(journaled.records);
        let region = StateRegion::Records { records };
        match self.map.follow(self.alloc, &region) {
            Ok(()) => {
                self.stored = self.map.mark();
                Ok(Rows::of(journaled.results))
            }
            Err(_) => {
                self.stored = self.map.mark();
                self.failed = true;
                Err(Error::OutOfMemory)
            }
        }
    }

    // Whether a cleanup at the moment removes something.
    fn is_due(&self, moment: u64) -> bool
        ensures { result ≡ (self.now.leased && has_due moment self.now.map.expiries) }
    {
        self.leased && self.map.has_due(moment)
    }
}

impl<D: Disk> StateMachine<D> for OwnMachine {
    ghost use Rattle.std.specs.Prelude.{refl};
    ghost use Rattle.den_own.specs.Machines.{machine_lies, machine_light, machine_settings, machine_shown};
    ghost use Rattle.den_own.specs.Memory.{nothing_told};

    ghost shown = { machine_shown };

    ghost holds = { nothing_told };

    ghost map = { λ s. s.map };

    ghost settings = { machine_settings };

    ghost short = { λ s. Unit {0} };

    ghost lies = { machine_lies };

    ghost seen = { λ s. refl };

    ghost below = { λ s. s.below };

    ghost light = { machine_light };

    fn apply_chunk(&mut self, _disk: &mut D, chunk: &[Entry]) -> Result<Rows<ApplyResult>, Error> {
        if let Some(index) = out_of_order(self.map.mark().index, chunk) {
            return Err(Error::UnorderedChunk { index });
        }
        if !self.leased && asks_lease(chunk) {
            return Err(Error::FeatureNotEnabled);
        }
        if chunk.is_empty() {
            return Ok(Rows::of(Vec::new(self.alloc)));
        }
        self.apply(chunk)
    }

    fn update_last_applied(&mut self, last_applied: LogId) {
        self.map.set_mark(last_applied);
    }

    fn persist_last_applied(&mut self, _disk: &mut D, last_applied: LogId) -> Result<(), Error> {
        self.map.set_mark(last_applied);
        self.stored = last_applied;
        Ok(())
    }

    fn save_hard_state(&mut self, _disk: &mut D) -> Result<(), Error> {
        self.stored = self.map.mark();
        Ok(())
    }

    fn close(self, _disk: &mut D) -> Result<(), Error> {
        Ok(())
    }

    fn lease_background_cleanup(&mut self, _disk: &mut D, now: u64) -> Result<Rows<Blob>, Error> {
        let moment = Positive::of(now.max(1));
        if !self.is_due(moment.get()) {
            return Ok(Rows::of(Vec::new(self.alloc)));
        }
        let keys = self.map.due_keys(self.alloc, moment.get())?;
        self.map.clean(moment);
        Ok(keys)
    }

    fn flush(&mut self, _disk: &mut D) -> Result<(), Error> {
        Ok(())
    }

    fn reset(&mut self, _disk: &mut D) -> Result<(), Error> {
        let mark = LogId { index: 0, term: 0 };
        self.map = Map::at(self.alloc, mark);
        self.stored = mark;
        self.metadata = None;
        Ok(())
    }

    /// It has no memory for snapshots.
    fn generate_snapshot_data(
        &mut self,
        _disk: &mut D,
        _last_included: LogId,
    ) -> Result<Blob, Error> {
        Err(Error::OutOfMemory)
    }

    /// The same.
    fn apply_snapshot_from_file(
        &mut self,
        _disk: &mut D,
        _metadata: &SnapshotMetadata,
        _now: u64,
    ) -> Result<(), Error> {
        Err(Error::OutOfMemory)
    }

    fn is_failed(&self) -> bool {
        self.failed
    }

    fn has_lease(&self) -> bool {
        self.leased
    }

    fn holds_expiry(&self) -> bool {
        0 < self.map.expiry_count()
    }

    fn get(&self, key: &[u8]) -> Option<&Blob> {
        self.map.get(key)
    }

    fn start(&mut self) {
        self.running = true;
    }

    fn stop(&mut self) {
        self.running = false;
    }

    fn is_running(&self) -> bool {
        self.running
    }

    fn snapshot_metadata(&self) -> Option<SnapshotMetadata> {
        self.metadata
    }

    fn update_last_snapshot_metadata(&mut self, snapshot_metadata: SnapshotMetadata) {
        self.metadata = Some(snapshot_metadata);
    }

    fn persist_last_snapshot_metadata(&mut self, snapshot_metadata: SnapshotMetadata) {
        self.metadata = Some(snapshot_metadata);
    }

    fn len(&self) -> usize {
        self.map.len()
    }

    fn is_empty(&self) -> bool {
        self.map.len() == 0
    }

    fn scan_prefix(&self, prefix: &[u8]) -> Result<ScanResult, Error> {
        Ok(ScanResult {
            entries: self.map.pairs_under(self.alloc, prefix)?,
            revision: self.map.mark().index,
        })
    }

    fn entry_term(&self, _entry_id: u64) -> Option<u64> {
        None
    }

    fn last_applied(&self) -> LogId {
        self.map.mark()
    }
}
