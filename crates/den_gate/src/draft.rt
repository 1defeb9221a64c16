// A slot that the head does not name: it is emptied, and regions are put into it one behind the other.
ghost use Rattle.std.specs.Prelude.{◌≡◌, ◌⊎◌, ◌+◌, ◌≤◌, ◌<◌, ◌^◌, ℕ, List, [], ◌∷◌, ◌++◌, IsTrue, IsErr, IfErr, IfOk, OnOk, length};
ghost use Rattle.den_disk.specs.Crash.{Stays};
ghost use Rattle.den_disk.specs.Goes.{HasCause, Rose};
ghost use Rattle.den_model.specs.Regions.{open_regions};
ghost use Rattle.den_gate.specs.Causes.{Because};
ghost use Rattle.den_gate.specs.Draft.{PassesLimit};
ghost use Rattle.den_gate.specs.Slot.{SlotGrows, Holds, IsFilled, IsShort, room_for, whole_chunks};
ghost use Rattle.den_gate.specs.Steps.{RunSpares};

use crate::GateError;
use crate::room::make_room;
use den_disk::{Disk, DiskFault, Place};
use den_model::Blob;

// Takes all bytes of a slot, so that those that come are new ones.
pub fn clear<D: Disk>(disk: &mut D, slot: Place) -> Result<(), GateError>
    ensures kind { D.kind disk.new ≡ D.kind disk.old }
    ensures later { D.faults disk.old ≤ D.faults disk.new }
    ensures holds { IsTrue (D.kind disk.old).tells → OnOk result (Holds [] 0 ((D.content disk.new).reading slot)) }
    ensures cleared { IsTrue (D.kind disk.old).tells → OnOk result ((D.content disk.new).reading slot ≡ []) }
    ensures run { IsTrue (D.kind disk.old).tells → RunSpares D.content D.moment D.images slot disk.old disk.new }
    ensures refused { IfErr result (Because ⊥ (Rose (D.faults disk.old) (D.faults disk.new)) (λ needed limit. ⊥) (λ part offset. ⊥)) }
{
    disk.resize(slot, 0)?;
    Ok(())
}

// Adds an open region to those that end there, with a closed gate behind it. Nothing of it need be on the disk.
pub fn push<D: Disk>(disk: &mut D, slot: Place, end: u64, payload: &[u8]) -> Result<(), GateError>
    requires end { end ≤ 2 ^ 62 }
    ensures kind { D.kind disk.new ≡ D.kind disk.old }
    ensures later { D.faults disk.old ≤ D.faults disk.new }
    ensures end { OnOk result (end + (9 + length payload.now) ≤ 2 ^ 62) }
    ensures holds { IsTrue (D.kind disk.old).tells → (list : List (List ℕ)) → Holds list end ((D.content disk.old).reading slot) → OnOk result (
        Holds (list ++ payload.now ∷ []) (end + (9 + length payload.now)) ((D.content disk.new).reading slot)) }
    ensures grows { IsTrue (D.kind disk.old).tells → OnOk result (SlotGrows ((D.content disk.old).reading slot) ((D.content disk.new).reading slot) end (length payload.now)) }
    ensures run { IsTrue (D.kind disk.old).tells → RunSpares D.content D.moment D.images slot disk.old disk.new }
    ensures refused { IfErr result (Because ⊥ (Rose (D.faults disk.old) (D.faults disk.new)) (λ needed limit.
        (needed ≡ room_for end (length payload.now)) × (limit ≡ (D.kind disk.old).limit) × (limit < needed) × (2 ^ 43 ≤ limit)
        × (IsTrue (D.kind disk.old).tells → IsShort ((D.content disk.old).reading slot) end (length payload.now) × Stays D.content D.moment D.images disk.old disk.new))
        (λ part offset. ⊥)) }
    ensures not_full { IsTrue (D.kind disk.old).tells → OnOk result (IsShort ((D.content disk.old).reading slot) end (length payload.now)
        → room_for end (length payload.now) ≤ (D.kind disk.old).limit) }
{
    make_room(disk, slot, end, payload.len() as u64)?;
    put_region(disk, slot, end, payload)?;
    Ok(())
}

// Writes an open region, and a closed gate behind it.
fn put_region<D: Disk>(disk: &mut D, slot: Place, end: u64, payload: &[u8]) -> Result<(), DiskFault>
    requires end { end + 10 + length payload.now ≤ 2 ^ 62 }
    requires room { IsTrue (D.kind disk.old).tells → end + 10 + length payload.now ≤ length ((D.content disk.old).reading slot) }
    ensures kind { D.kind disk.new ≡ D.kind disk.old }
    ensures holds { IsTrue (D.kind disk.old).tells → (list : List (List ℕ)) → Holds list end ((D.content disk.old).reading slot) → OnOk result (
        Holds (list ++ payload.now ∷ []) (end + (9 + length payload.now)) ((D.content disk.new).reading slot)) }
    ensures long { IsTrue (D.kind disk.old).tells → OnOk result (length ((D.content disk.new).reading slot) ≡ length ((D.content disk.old).reading slot)) }
    ensures run { IsTrue (D.kind disk.old).tells → RunSpares D.content D.moment D.images slot disk.old disk.new }
    ensures cause { HasCause (D.faults disk.old) (D.faults disk.new) (IsErr result) }
{
    let size = payload.len() as u64;
    disk.write_at(slot, end + 1, &size.to_be_bytes())?;
    disk.write_at(slot, end + 9, payload)?;
    disk.write_at(slot, end + 9 + size, &[0])?;
    disk.write_at(slot, end, &[1])
}

// Makes these payloads all that a slot holds, and answers where they end. Nothing of it need be on the disk.
pub fn fill<D: Disk>(disk: &mut D, slot: Place, list: &[Blob]) -> Result<u64, GateError>
    ensures kind { D.kind disk.new ≡ D.kind disk.old }
    ensures later { D.faults disk.old ≤ D.faults disk.new }
    ensures end { IfOk result (λ end. (end ≡ length (open_regions list.now)) × (end ≤ 2 ^ 62)) }
    ensures holds { IsTrue (D.kind disk.old).tells → IfOk result (λ end. Holds list.now end ((D.content disk.new).reading slot)) }
    ensures filled { IsTrue (D.kind disk.old).tells → IfOk result (λ end. IsFilled end ((D.content disk.new).reading slot)) }
    ensures run { IsTrue (D.kind disk.old).tells → RunSpares D.content D.moment D.images slot disk.old disk.new }
    ensures refused { IfErr result (Because ⊥ (Rose (D.faults disk.old) (D.faults disk.new)) (PassesLimit D.Disk slot list.now disk.old disk.new) (λ part offset. ⊥)) }
    ensures not_full { IsTrue (D.kind disk.old).tells → IfOk result (λ end. (end ≡ 0) ⊎ (whole_chunks (end + 1) ≤ (D.kind disk.old).limit)) }
{
    clear(disk, slot)?;
    let mut end = 0;
    for payload in list {
        let bytes = payload.as_slice();
        push(disk, slot, end, bytes)?;
        end += 9 + bytes.len() as u64;
    }
    Ok(end)
}
