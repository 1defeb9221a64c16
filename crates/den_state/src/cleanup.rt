//! The cleanup of expired keys.
ghost use Rattle.std.specs.Prelude.{◌≡◌, [], ◌∷◌, IfOk};
ghost use Rattle.std.specs.List.Sorted.{IsStrictlySortedBy};
ghost use Rattle.den_model.specs.declared.journal.JournalRecord.TheVariants.{Cleanup};
ghost use Rattle.den_model.specs.declared.region.StateRegion.TheVariants.{Records};
ghost use Rattle.den_model.specs.Table.{by_bytes};
ghost use Rattle.den_lease.specs.Due.{due_keys};

use den_codec::{Blob, JournalRecord, Positive, Rows, StateRegion};
use den_map::Map;
use std::alloc::{AllocError, Global};

/// What a cleanup removes, and its region.
#[derive(Drop)]
pub struct Due {
    pub keys: Rows<Blob>,
    pub region: StateRegion,
}

// A region of one cleanup.
fn cleanup_region(alloc: Global, moment: Positive) -> Result<StateRegion, AllocError>
    ensures { IfOk result (λ r. r ≡ Records (Cleanup moment ∷ [])) }
{
    let mut records = Vec::new(alloc);
    records.push(JournalRecord::Cleanup { moment })?;
    Ok(StateRegion::Records {
        records: Rows::of(records),
    })
}

/// Prepares a cleanup at the moment.
pub fn prepare(alloc: Global, map: &Map, moment: Positive) -> Result<Due, AllocError>
    ensures keys { IfOk result (λ due. due.keys ≡ due_keys moment map.now.expiries) }
    ensures sorted { IfOk result (λ due. IsStrictlySortedBy by_bytes due.keys) }
    ensures region { IfOk result (λ due. due.region ≡ Records (Cleanup moment ∷ [])) }
{
    Ok(Due {
        keys: map.due_keys(alloc, moment.get())?,
        region: cleanup_region(alloc, moment)?,
    })
}
