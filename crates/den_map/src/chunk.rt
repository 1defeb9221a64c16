//! A chunk of entries: its order, whether it asks for a lease, its records over the map, and what the map takes on.
ghost use Rattle.std.specs.Prelude.{◌≡◌, ◌<◌, ◌≤◌, None, Some, IsTrue, IfOk, OnOk, length};
ghost use Rattle.den_model.specs.MapState.{MapState, map_applied, map_applied_all, map_after_record, map_after_records, results_of};
ghost use Rattle.den_model.specs.Step.{has_ttl};
ghost use Rattle.den_map.specs.Journal.{recorded, all_recorded, tells_success};
ghost use Rattle.den_map.specs.Leases.{asks_lease};
ghost use Rattle.den_map.specs.Order.{out_of_order};
ghost use Rattle.den_map.specs.Written.{IsOver};

use crate::fold::place_of;
use crate::map::Map;
use crate::writes::Writes;
use den_codec::{ApplyResult, Command, Entry, JournalRecord};
use std::alloc::{AllocError, Global};

/// What entries leave: the records of their outcomes, and a result for each.
#[derive(Drop)]
pub struct Journaled {
    pub records: Vec<JournalRecord>,
    pub results: Vec<ApplyResult>,
}

/// The first index that is not above the one before it, or above the mark where it is the first.
pub fn out_of_order(mark: u64, chunk: &[Entry]) -> Option<u64>
    ensures { result ≡ out_of_order mark chunk.now }
{
    let mut last = mark;
    for entry in chunk {
        if entry.index() <= last {
            return Some(entry.index());
        }
        last = entry.index();
    }
    None
}

/// Whether a command sets a time to live.
pub fn has_ttl(command: &Command) -> bool
    ensures { result ≡ has_ttl command.now }
{
    match command {
        Command::Insert { ttl_secs, .. } => ttl_secs.is_some(),
        _ => false,
    }
}

/// Whether an entry has a time to live.
pub fn asks_lease(chunk: &[Entry]) -> bool
    ensures { result ≡ asks_lease chunk.now }
{
    for entry in chunk {
        if has_ttl(entry.command()) {
            return true;
        }
    }
    false
}

// Whether the entry of this record succeeded.
fn tells_success(journaled: &JournalRecord) -> bool
    ensures { result ≡ tells_success journaled.now }
{
    match journaled {
        JournalRecord::CasFailed { .. } => false,
        _ => true,
    }
}

impl Map {
    // The record of the next entry after the writes, to which it is added where more entries follow.
    fn record_next(
        &self,
        alloc: Global,
        writes: &mut Writes,
        entry: &Entry,
        more: bool,
    ) -> Result<JournalRecord, AllocError>
        ensures is { IfOk result (λ r. (s : MapState) → IsOver writes.old self.now s → r ≡ recorded s entry.now) }
        ensures over { OnOk result (IsTrue more → (s : MapState) → IsOver writes.old self.now s → IsOver writes.new self.now (map_applied s entry.now)) }
        ensures lawful { IfOk result (λ r. (s : MapState) → s.mark.index < entry.now.index → r ≡ recorded s entry.now → map_after_record s r ≡ Some (map_applied s entry.now)) }
    {
        let journaled = self.record_of(writes, entry)?;
        if more {
            writes.note(alloc, &journaled)?;
        }
        let moment = entry.moment();
        prove!(1 <= moment);
        Ok(journaled)
    }

    /// The records and the results of entries in order. The records give what the entries make of the map. The map stays
    /// as it is.
    pub fn journal(&self, alloc: Global, chunk: &[Entry]) -> Result<Journaled, AllocError>
        requires { out_of_order self.now.mark.index chunk.now ≡ None }
        ensures records { IfOk result (λ journaled. journaled.records.items ≡ all_recorded self.now chunk.now) }
        ensures lawful { IfOk result (λ journaled. map_after_records self.now journaled.records.items ≡ Some (map_applied_all self.now chunk.now)) }
        ensures results { IfOk result (λ journaled. journaled.results.items ≡ results_of self.now chunk.now) }
    {
        let mut writes = self.unwritten(alloc);
        let mut records = Vec::with_capacity(alloc, chunk.len())?;
        let mut results = Vec::with_capacity(alloc, chunk.len())?;
        for (i, entry) in chunk.iter().enumerate() {
            let journaled = self.record_next(alloc, &mut writes, entry, i + 1 < chunk.len())?;
            results.push(ApplyResult {
                index: entry.index(),
                succeeded: tells_success(&journaled),
            })?;
            records.push(journaled)?;
        }
        Ok(Journaled { records, results })
    }
}
