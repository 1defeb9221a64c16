// A payload more. A region counts if its gate is open (1). A closed gate stands behind the last one, on the disk before
// anything is written behind it.
ghost use Rattle.std.specs.Prelude.{◌≡◌, ◌+◌, ◌≤◌, ◌<◌, ◌^◌, ℕ, List, [], ◌∷◌, ◌++◌, IsTrue, IsErr, IfErr, OnOk, length, take};
ghost use Rattle.den_disk.specs.Crash.{Stays};
ghost use Rattle.den_disk.specs.Goes.{HasCause, Rose};
ghost use Rattle.den_model.specs.Spelling.{u64_word};
ghost use Rattle.den_gate.specs.Causes.{Because};
ghost use Rattle.den_gate.specs.Slot.{SlotGrows, IsShort, payloads_of, room_for};
ghost use Rattle.den_gate.specs.Steps.{IsOpen, IsStaged, RunKeeps, RunKeepsOrAdds};

use crate::GateError;
use crate::room::make_room;
use den_disk::{Disk, DiskFault, Place};

// What is put together in memory is at most so long.
const ROW: usize = 256;

// A payload of at most so many bytes is put together with what stands around it, and written by one call.
const SHORT: usize = ROW - 9;

// Adds a payload to the regions that end there.
pub fn add<D: Disk>(disk: &mut D, slot: Place, end: u64, payload: &[u8]) -> Result<(), GateError>
    requires end { end ≤ 2 ^ 62 }
    requires open { IsTrue (D.kind disk.old).tells → IsOpen slot (payloads_of ((D.content disk.old).reading slot)) end (D.content disk.old) }
    ensures kind { D.kind disk.new ≡ D.kind disk.old }
    ensures later { D.faults disk.old ≤ D.faults disk.new }
    ensures end { OnOk result (end + (9 + length payload.now) ≤ 2 ^ 62) }
    ensures open { IsTrue (D.kind disk.old).tells → (list : List (List ℕ)) → IsOpen slot list end (D.content disk.old) → OnOk result (
        IsOpen slot (list ++ payload.now ∷ []) (end + (9 + length payload.now)) (D.content disk.new)) }
    ensures grows { IsTrue (D.kind disk.old).tells → OnOk result (SlotGrows ((D.content disk.old).reading slot) ((D.content disk.new).reading slot) end (length payload.now)) }
    ensures run { IsTrue (D.kind disk.old).tells → (list : List (List ℕ)) → IsOpen slot list end (D.content disk.old)
        → RunKeepsOrAdds D.content D.moment D.images slot list payload.now disk.old disk.new }
    ensures refused { IfErr result (Because ⊥ (Rose (D.faults disk.old) (D.faults disk.new)) (λ needed limit.
        (needed ≡ room_for end (length payload.now)) × (limit ≡ (D.kind disk.old).limit) × (limit < needed) × (2 ^ 43 ≤ limit)
        × (IsTrue (D.kind disk.old).tells → IsShort ((D.content disk.old).reading slot) end (length payload.now) × Stays D.content D.moment D.images disk.old disk.new))
        (λ part offset. ⊥)) }
    ensures not_full { IsTrue (D.kind disk.old).tells → OnOk result (IsShort ((D.content disk.old).reading slot) end (length payload.now)
        → room_for end (length payload.now) ≤ (D.kind disk.old).limit) }
{
    make_room(disk, slot, end, payload.len() as u64)?;
    stage(disk, slot, end, payload)?;
    open_gate(disk, slot, end)?;
    Ok(())
}

// Writes a region but for its gate, and a closed gate behind it.
fn stage<D: Disk>(disk: &mut D, slot: Place, end: u64, payload: &[u8]) -> Result<(), DiskFault>
    requires end { end + 10 + length payload.now ≤ 2 ^ 62 }
    requires room { IsTrue (D.kind disk.old).tells → end + 10 + length payload.now ≤ length ((D.content disk.old).reading slot) }
    ensures kind { D.kind disk.new ≡ D.kind disk.old }
    ensures staged { IsTrue (D.kind disk.old).tells → (list : List (List ℕ)) → IsOpen slot list end (D.content disk.old) → OnOk result (
        IsStaged slot list payload.now end (D.content disk.new)) }
    ensures long { IsTrue (D.kind disk.old).tells → OnOk result (length ((D.content disk.new).reading slot) ≡ length ((D.content disk.old).reading slot)) }
    ensures run { IsTrue (D.kind disk.old).tells → (list : List (List ℕ)) → IsOpen slot list end (D.content disk.old)
        → RunKeeps D.content D.moment D.images slot list disk.old disk.new }
    ensures cause { HasCause (D.faults disk.old) (D.faults disk.new) (IsErr result) }
{
    if payload.len() <= SHORT {
        stage_short(disk, slot, end, payload)
    } else {
        stage_long(disk, slot, end, payload)
    }
}

// The same of a short payload, by one write.
fn stage_short<D: Disk>(
    disk: &mut D,
    slot: Place,
    end: u64,
    payload: &[u8],
) -> Result<(), DiskFault>
    requires short { length payload.now ≤ 247 }
    requires end { end + 10 + length payload.now ≤ 2 ^ 62 }
    requires room { IsTrue (D.kind disk.old).tells → end + 10 + length payload.now ≤ length ((D.content disk.old).reading slot) }
    ensures kind { D.kind disk.new ≡ D.kind disk.old }
    ensures staged { IsTrue (D.kind disk.old).tells → (list : List (List ℕ)) → IsOpen slot list end (D.content disk.old) → OnOk result (
        IsStaged slot list payload.now end (D.content disk.new)) }
    ensures long { IsTrue (D.kind disk.old).tells → OnOk result (length ((D.content disk.new).reading slot) ≡ length ((D.content disk.old).reading slot)) }
    ensures run { IsTrue (D.kind disk.old).tells → (list : List (List ℕ)) → IsOpen slot list end (D.content disk.old)
        → RunKeeps D.content D.moment D.images slot list disk.old disk.new }
    ensures cause { HasCause (D.faults disk.old) (D.faults disk.new) (IsErr result) }
{
    let row = behind_gate(payload);
    disk.write_at(slot, end + 1, &row[..9 + payload.len()])?;
    disk.sync()
}

// What stands behind a region's gate, in front of zeros: the payload's length, the payload, and a closed gate.
fn behind_gate(payload: &[u8]) -> [u8; ROW]
    requires { length payload.now ≤ 247 }
    ensures { take (9 + length payload.now) result ≡ u64_word (length payload.now) ++ payload.now ++ 0 ∷ [] }
{
    let size = payload.len();
    let mut row = [0; ROW];
    row[..8].copy_from_slice(&(size as u64).to_be_bytes());
    row[8..8 + size].copy_from_slice(payload);
    row
}

// The same of any payload, by three writes.
fn stage_long<D: Disk>(disk: &mut D, slot: Place, end: u64, payload: &[u8]) -> Result<(), DiskFault>
    requires end { end + 10 + length payload.now ≤ 2 ^ 62 }
    requires room { IsTrue (D.kind disk.old).tells → end + 10 + length payload.now ≤ length ((D.content disk.old).reading slot) }
    ensures kind { D.kind disk.new ≡ D.kind disk.old }
    ensures staged { IsTrue (D.kind disk.old).tells → (list : List (List ℕ)) → IsOpen slot list end (D.content disk.old) → OnOk result (
        IsStaged slot list payload.now end (D.content disk.new)) }
    ensures long { IsTrue (D.kind disk.old).tells → OnOk result (length ((D.content disk.new).reading slot) ≡ length ((D.content disk.old).reading slot)) }
    ensures run { IsTrue (D.kind disk.old).tells → (list : List (List ℕ)) → IsOpen slot list end (D.content disk.old)
        → RunKeeps D.content D.moment D.images slot list disk.old disk.new }
    ensures cause { HasCause (D.faults disk.old) (D.faults disk.new) (IsErr result) }
{
    let size = payload.len() as u64;
    disk.write_at(slot, end + 1, &size.to_be_bytes())?;
    disk.write_at(slot, end + 9, payload)?;
    disk.write_at(slot, end + 9 + size, &[0])?;
    disk.sync()
}

// Opens the gate before a region that stands on the disk.
fn open_gate<D: Disk>(disk: &mut D, slot: Place, end: u64) -> Result<(), DiskFault>
    requires { IsTrue (D.kind disk.old).tells → end < length ((D.content disk.old).reading slot) }
    ensures kind { D.kind disk.new ≡ D.kind disk.old }
    ensures open { IsTrue (D.kind disk.old).tells → (list : List (List ℕ)) → (payload : List ℕ) → IsStaged slot list payload end (D.content disk.old) → OnOk result (
        IsOpen slot (list ++ payload ∷ []) (end + (9 + length payload)) (D.content disk.new)) }
    ensures long { IsTrue (D.kind disk.old).tells → OnOk result (length ((D.content disk.new).reading slot) ≡ length ((D.content disk.old).reading slot)) }
    ensures run { IsTrue (D.kind disk.old).tells → (list : List (List ℕ)) → (payload : List ℕ) → IsStaged slot list payload end (D.content disk.old)
        → RunKeepsOrAdds D.content D.moment D.images slot list payload disk.old disk.new }
    ensures cause { HasCause (D.faults disk.old) (D.faults disk.new) (IsErr result) }
{
    disk.write_at(slot, end, &[1])?;
    disk.sync()
}
