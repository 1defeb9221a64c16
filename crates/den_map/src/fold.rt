//! The fold over the journal: what records and regions make of the map.
ghost use Rattle.std.specs.Prelude.{◌≡◌, ◌+◌, ◌≤◌, length, Some, None, IsTrue, IfOk, OnOk, if◌then◌else◌};
ghost use Rattle.den_model.specs.MapState.{with_pairs, map_after_record, map_after_records, map_after, map_after_payload};
ghost use Rattle.den_map.specs.declared.fold.FoldError.TheVariants.{Memory};
ghost use Rattle.den_map.specs.Fold.{Folds, place_of};
ghost use Rattle.den_map.specs.Sizes.{pairs_size};
ghost use Rattle.den_map.specs.Tail.{tail_after, tail_after_payload};

use crate::map::Map;
use den_codec::{Held, JournalRecord, LogId, StateRegion, StoredPair, Word};
use std::alloc::{AllocError, Global};

// Want of memory, or what is not lawful.
#[derive(Debug, Drop)]
pub(crate) enum FoldError {
    Memory,
    Unlawful,
}

impl From<AllocError> for FoldError {
    ghost from_gives = { λ _ e. e ≡ Memory };

    fn from(_: AllocError) -> Self {
        FoldError::Memory
    }
}

// The place of the entry that a record is of; none for a cleanup.
pub(crate) fn place_of(journaled: &JournalRecord) -> Option<LogId>
    ensures { result ≡ place_of journaled.now }
{
    match journaled {
        JournalRecord::Noop { index, term }
        | JournalRecord::Insert { index, term, .. }
        | JournalRecord::Delete { index, term, .. }
        | JournalRecord::CasFailed { index, term } => Some(LogId {
            index: index.get(),
            term: *term,
        }),
        JournalRecord::Cleanup { .. } => None,
    }
}

/// How many records follow the last Begin region behind this one, where so many do before it.
pub fn tail_after(tail: u64, region: &StateRegion) -> u64
    ensures { result ≡ tail_after tail region.now }
{
    match region {
        StateRegion::Begin { .. } => 0,
        StateRegion::Records { records } => tail.saturating_add(records.as_slice().len() as u64),
        StateRegion::Pairs { .. } | StateRegion::Mark { .. } => tail,
    }
}

impl Map {
    // Takes on a record.
    fn add_record(&mut self, alloc: Global, journaled: &JournalRecord) -> Result<(), FoldError>
        ensures { Folds result (map_after_record self.old journaled.now) self.new }
    {
        match place_of(journaled) {
            None => self.carry_out(alloc, journaled)?,
            Some(place) => {
                if place.index <= self.mark().index {
                    return Err(FoldError::Unlawful);
                }
                self.carry_out(alloc, journaled)?;
                self.set_mark(place);
            }
        }
        Ok(())
    }

    // Takes on records in order.
    fn add_records(&mut self, alloc: Global, records: &[JournalRecord]) -> Result<(), FoldError>
        ensures { Folds result (map_after_records self.old records.now) self.new }
    {
        for journaled in records {
            self.add_record(alloc, journaled)?;
        }
        Ok(())
    }

    /// Takes on pairs in order, each in place of what its key has. Where memory is wanting it may have taken on some of
    /// them.
    pub fn add_pairs(&mut self, alloc: Global, pairs: &[StoredPair]) -> Result<(), AllocError>
        ensures { OnOk result (self.new ≡ with_pairs self.old pairs.now) }
    {
        for pair in pairs {
            let held = Held {
                value: pair.value.copy()?,
                term: pair.term,
            };
            self.set_pair(alloc, &pair.key, held, pair.expiry)?;
        }
        Ok(())
    }

    // Takes on a region.
    #[tactic(auto, unfolding(den_model::specs::MapState::map_after))]
    fn add_region(&mut self, alloc: Global, region: &StateRegion) -> Result<(), FoldError>
        ensures { Folds result (map_after self.old region.now) self.new }
    {
        match region {
            StateRegion::Begin { index, term } => {
                *self = Map::at(
                    alloc,
                    LogId {
                        index: *index,
                        term: *term,
                    },
                );
                Ok(())
            }
            StateRegion::Pairs { pairs } => Ok(self.add_pairs(alloc, pairs.as_slice())?),
            StateRegion::Records { records } => self.add_records(alloc, records.as_slice()),
            StateRegion::Mark { index, term } => {
                if *index < self.mark().index {
                    return Err(FoldError::Unlawful);
                }
                self.set_mark(LogId {
                    index: *index,
                    term: *term,
                });
                Ok(())
            }
        }
    }

    // Takes on the region whose word the payload is, and counts the records that follow the last Begin region then.
    #[tactic(auto, unfolding(den_model::specs::MapState::map_after_payload, den_model::specs::Reading::state_region_in, crate::specs::Tail::tail_after_payload))]
    fn add_payload(
        &mut self,
        alloc: Global,
        payload: &[u8],
        tail: &mut u64,
    ) -> Result<(), FoldError>
        ensures map { Folds result (map_after_payload self.old payload.now) self.new }
        ensures tail { OnOk result (tail.new ≡ tail_after_payload tail.old payload.now) }
        ensures size { OnOk result (pairs_size self.new.pairs ≤ pairs_size self.old.pairs + length payload.now) }
    {
        match StateRegion::read(alloc, payload)? {
            None => Err(FoldError::Unlawful),
            Some(region) => {
                *tail = tail_after(*tail, &region);
                self.add_region(alloc, &region)
            }
        }
    }

    /// Takes on the region whose word the payload is, and counts the records that follow the last Begin region then. False
    /// where the payload is no lawful region, of which the map may have taken on some.
    pub fn add(&mut self, alloc: Global, payload: &[u8], tail: &mut u64) -> Result<bool, AllocError>
        ensures map { IfOk result (λ lawful. map_after_payload self.old payload.now ≡ (if lawful then Some self.new else None)) }
        ensures tail { IfOk result (λ lawful. IsTrue lawful → tail.new ≡ tail_after_payload tail.old payload.now) }
        ensures size { IfOk result (λ lawful. IsTrue lawful → pairs_size self.new.pairs ≤ pairs_size self.old.pairs + length payload.now) }
    {
        match self.add_payload(alloc, payload, tail) {
            Ok(()) => Ok(true),
            Err(FoldError::Unlawful) => Ok(false),
            Err(FoldError::Memory) => Err(AllocError),
        }
    }

    /// Takes on a region that is lawful. Where memory is wanting it may have taken on some of it.
    pub fn follow(&mut self, alloc: Global, region: &StateRegion) -> Result<(), AllocError>
        requires lawful { map_after self.old region.now ≡ None → ⊥ }
        ensures { OnOk result (map_after self.old region.now ≡ Some self.new) }
    {
        match self.add_region(alloc, region) {
            Ok(()) => Ok(()),
            Err(FoldError::Unlawful) => unreachable!(),
            Err(FoldError::Memory) => Err(AllocError),
        }
    }
}
