// The map with its stored mark, as the regions of its journal give it.
ghost use Rattle.std.specs.Prelude.{◌≡◌, ◌+◌, ◌*◌};
ghost use Rattle.den_state.specs.Stored.{cleanup_of};

use den_codec::{JournalRecord, LogId, Positive, StateRegion, Word};
use den_disk::Family;
use den_journal::Folded;
use den_map::{Map, tail_after};
use std::alloc::{AllocError, Global};

#[derive(Drop)]
pub(crate) struct StoredMap {
    pub(crate) alloc: Global,
    pub(crate) map: Map,
    // How many records follow the last Begin region, at most 2^64 - 1.
    pub(crate) tail: u64,
}

// The moment of records that are one cleanup's.
fn cleanup_of(records: &[JournalRecord]) -> Option<Positive>
    ensures { result ≡ cleanup_of records.now }
{
    match records {
        [JournalRecord::Cleanup { moment }] => Some(*moment),
        _ => None,
    }
}

impl Folded for StoredMap {
    ghost use Rattle.std.specs.Prelude.{ℕ, length, refl};
    ghost use Rattle.den_disk.specs.declared.place.Family.TheVariants.{State as state_family};
    ghost use Rattle.den_model.specs.Spelling.{state_region_word};
    ghost use Rattle.den_map.specs.Sizes.{pairs_size};
    ghost use Rattle.den_state.specs.Stored.{Stored, nothing_stored, stored_after, stored_from, stored_by, IsLawful, MayWant};
    ghost use Rattle.den_state.specs.Folds.{stored_fold, stored_again, stored_rises, stored_sized};

    type Region = StateRegion;

    ghost FAMILY = { state_family };

    const FAMILY: Family = Family::State;

    ghost Value = { Stored };

    ghost value = { λ s. record { map = s.map; tail = s.tail } };

    ghost empty = { nothing_stored };

    ghost after = { stored_after };

    ghost from = { stored_from };

    ghost lawful = { IsLawful };

    ghost changed = { stored_by };

    ghost roomy = { λ s r. Unit {0} };

    ghost rise = { λ r. 9 + 2 * length (state_region_word r) };

    ghost lost = { MayWant };

    ghost size = { λ s. pairs_size s.map.pairs };

    ghost renewed = { λ s. record s { tail = 0 } };

    ghost folds = { stored_fold };

    ghost again = { stored_again };

    ghost rises = { stored_rises };

    ghost none = { refl };

    ghost sized = { λ s r lawful fits. stored_sized s r lawful };

    ghost anew = { λ s. refl };

    fn empty(alloc: Global) -> StoredMap {
        StoredMap {
            alloc,
            map: Map::at(alloc, LogId { index: 0, term: 0 }),
            tail: 0,
        }
    }

    fn take(&mut self, alloc: Global, payload: &[u8]) -> Result<bool, AllocError> {
        self.map.add(alloc, payload, &mut self.tail)
    }

    fn make_room(&mut self, _region: &StateRegion) -> Result<(), AllocError> {
        Ok(())
    }

    // A beginning, a mark and a cleanup take no memory.
    fn settle(&mut self, region: StateRegion) -> Result<(), AllocError> {
        self.tail = tail_after(self.tail, &region);
        match &region {
            StateRegion::Begin { index, term } => {
                let (index, term) = (*index, *term);
                self.map = Map::at(self.alloc, LogId { index, term });
                Ok(())
            }
            StateRegion::Mark { index, term } => {
                self.map.set_mark(LogId {
                    index: *index,
                    term: *term,
                });
                Ok(())
            }
            StateRegion::Records { records } => match cleanup_of(records.as_slice()) {
                Some(moment) => {
                    self.map.clean(moment);
                    Ok(())
                }
                None => self.map.follow(self.alloc, &region),
            },
            StateRegion::Pairs { .. } => self.map.follow(self.alloc, &region),
        }
    }
    // What follows the last Begin region is counted anew.
    fn renew(&mut self) {
        self.tail = 0;
    }
}
