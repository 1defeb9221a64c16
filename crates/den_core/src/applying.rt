//! A chunk on a state machine whose files give its map.
ghost use Rattle.std.specs.Prelude.{◌≡◌, ◌+◌, ◌≤◌, IsTrue, OnOk, IfOk, IfErr, length};
ghost use Rattle.den_core.specs.Full.{IsFullBy, IsSlotTooShort};
ghost use Rattle.den_core.specs.PayloadSizes.{chunk_sizes};
ghost use Rattle.den_disk.specs.declared.place.Family.TheVariants.{State as state_family};
ghost use Rattle.den_disk.specs.Families.{OldOrNew, SparesImages, SparesOthers};
ghost use Rattle.den_disk.specs.Goes.{Rose, DiskGoesOn};
ghost use Rattle.den_model.specs.MapState.{map_applied_all, results_of};
ghost use Rattle.den_model.specs.Sizes.{entries_size, store_rise};
ghost use Rattle.den_state.specs.Chunk.{IsChunkRefusal};
ghost use Rattle.den_state.specs.Machine.{AtRest};

use den_codec::{ApplyResult, Entry, Error, Rows};
use den_disk::Disk;
use den_state::StateMachine;

/// Applies entries. A crash inside leaves the old map or the new one, and the files give the new one then.
pub(crate) fn apply_at_rest<D: Disk, M: StateMachine<D>>(
    state: &mut M,
    disk: &mut D,
    chunk: &[Entry],
) -> Result<Rows<ApplyResult>, Error>
    requires ready { (M.shown state.old).ready }
    requires rests { IsTrue (D.kind disk.old).tells → AtRest (M.shown state.old) (M.map state.old) (D.content disk.old) }
    requires some { 1 ≤ length chunk.now }
    ensures disk { DiskGoesOn D.kind D.moment D.images D.faults disk.old disk.new }
    ensures own { IsTrue (D.kind disk.old).tells → M.holds.told → OldOrNew M.holds.of (D.images disk.new) (D.moment disk.old) (D.moment disk.new) (M.map state.old) (map_applied_all (M.map state.old) chunk.now) }
    ensures others { IsTrue (D.kind disk.old).tells → SparesImages state_family (D.images disk.old) (D.images disk.new) (D.moment disk.old) (D.moment disk.new) }
    ensures spares { IsTrue (D.kind disk.old).tells → SparesOthers state_family (D.content disk.old) (D.content disk.new) }
    ensures applied { OnOk result (M.map state.new ≡ map_applied_all (M.map state.old) chunk.now) }
    ensures results { IfOk result (λ results. results ≡ results_of (M.map state.old) chunk.now) }
    ensures short { OnOk result (M.short state.new) }
    ensures settings { M.settings state.new ≡ M.settings state.old }
    ensures ready { OnOk result (M.shown state.new).ready }
    ensures rests { OnOk result (IsTrue (D.kind disk.old).tells → AtRest (M.shown state.new) (M.map state.new) (D.content disk.new)) }
    ensures weight { OnOk result ((M.shown state.new).weight ≤ (M.shown state.old).weight + store_rise (entries_size chunk.now)) }
    ensures refused { IfErr result (λ e. IsChunkRefusal (M.settings state.old).leased (Rose (D.faults disk.old) (D.faults disk.new)) (D.kind disk.old).limit (M.map state.old).mark.index chunk.now e) }
    ensures full { IfErr result (IsFullBy (IsTrue (D.kind disk.old).tells × M.holds.told)
        (λ needed. IsSlotTooShort (chunk_sizes (M.map state.old) chunk.now) ((M.shown state.old).weight + store_rise (entries_size chunk.now)) needed (D.content disk.new).reading)
        (D.kind disk.old).limit ((M.shown state.old).weight + store_rise (entries_size chunk.now))) }
{
    state.apply_chunk(disk, chunk)
}
