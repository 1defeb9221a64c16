// Room in a slot.
ghost use Rattle.std.specs.Prelude.{◌≡◌, ◌+◌, ◌-◌, ◌≤◌, ◌<◌, ◌^◌, ℕ, List, min, IsTrue, IfErr, OnOk, length};
ghost use Rattle.den_disk.specs.Crash.{Stays};
ghost use Rattle.den_disk.specs.Goes.{Rose};
ghost use Rattle.den_gate.specs.Causes.{Because};
ghost use Rattle.den_gate.specs.Slot.{SlotGrows, Holds, IsShort, room_for, whole_chunks};
ghost use Rattle.den_gate.specs.Steps.{IsOpen, RunKeeps, RunSpares};

use crate::GateError;
use den_disk::{Disk, Place};

const CHUNK: u64 = 65_536;

// Makes room for a region of this size behind the end, and for the gate behind it.
pub fn make_room<D: Disk>(disk: &mut D, slot: Place, end: u64, size: u64) -> Result<(), GateError>
    requires { end ≤ 2 ^ 62 }
    ensures kind { D.kind disk.new ≡ D.kind disk.old }
    ensures later { D.faults disk.old ≤ D.faults disk.new }
    ensures end { OnOk result (end + 10 + size ≤ 2 ^ 62) }
    ensures open { IsTrue (D.kind disk.old).tells → (list : List (List ℕ)) → IsOpen slot list end (D.content disk.old) → OnOk result (
        IsOpen slot list end (D.content disk.new)) }
    ensures room { IsTrue (D.kind disk.old).tells → OnOk result (end + 10 + size ≤ length ((D.content disk.new).reading slot)) }
    ensures grows { IsTrue (D.kind disk.old).tells → OnOk result (SlotGrows ((D.content disk.old).reading slot) ((D.content disk.new).reading slot) end size) }
    ensures run { IsTrue (D.kind disk.old).tells → (list : List (List ℕ)) → IsOpen slot list end (D.content disk.old)
        → RunKeeps D.content D.moment D.images slot list disk.old disk.new }
    ensures holds { IsTrue (D.kind disk.old).tells → (list : List (List ℕ)) → Holds list end ((D.content disk.old).reading slot) → OnOk result (
        Holds list end ((D.content disk.new).reading slot)) }
    ensures alone { IsTrue (D.kind disk.old).tells → RunSpares D.content D.moment D.images slot disk.old disk.new }
    ensures refused { IfErr result (Because ⊥ (Rose (D.faults disk.old) (D.faults disk.new)) (λ needed limit.
        (needed ≡ room_for end size) × (limit ≡ (D.kind disk.old).limit) × (limit < needed) × (2 ^ 43 ≤ limit)
        × (IsTrue (D.kind disk.old).tells → IsShort ((D.content disk.old).reading slot) end size × Stays D.content D.moment D.images disk.old disk.new))
        (λ part offset. ⊥)) }
    ensures not_full { IsTrue (D.kind disk.old).tells → OnOk result (IsShort ((D.content disk.old).reading slot) end size → room_for end size ≤ (D.kind disk.old).limit) }
{
    let limit = disk.limit();
    let wanted = (end + 10).saturating_add(size);
    let len = disk.len(slot)?;
    if wanted <= len {
        return Ok(());
    }
    let needed = in_chunks(wanted);
    if needed > limit {
        return Err(GateError::Full { needed, limit });
    }
    disk.resize(slot, needed)?;
    Ok(())
}

// The least whole number of chunks that holds so many bytes, or the greatest number where there is none.
fn in_chunks(bytes: u64) -> u64
    ensures { result ≡ min (whole_chunks bytes) (2 ^ 64 - 1) }
{
    match bytes.checked_add(CHUNK - 1) {
        Some(most) => most / CHUNK * CHUNK,
        None => u64::MAX,
    }
}
