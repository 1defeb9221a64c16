// From the slot that a family's head names to the other one, which holds a list: all of it on the disk, then the head, and
// then the old slot is emptied.
ghost use Rattle.std.specs.Prelude.{◌≡◌, ◌≤◌, ℕ, List, [], IsTrue, IsErr, IfErr, OnOk, length};
ghost use Rattle.den_disk.specs.declared.place.Part.TheVariants.{Head};
ghost use Rattle.den_disk.specs.Crash.{Leaves};
ghost use Rattle.den_disk.specs.Goes.{HasCause, Rose};
ghost use Rattle.den_model.specs.Image.{head_of};
ghost use Rattle.den_gate.specs.Causes.{Because};
ghost use Rattle.den_gate.specs.Slot.{Holds};
ghost use Rattle.den_gate.specs.Steps.{IsOpen, RunSpares, RunSparesOthers};
ghost use Rattle.den_gate.specs.Gate.{IsCurrent};
ghost use Rattle.den_gate.specs.Draft.{other_slot, Flips};
ghost use Rattle.den_gate.specs.Turning.{other_byte, Drafted};

use crate::GateError;
use crate::draft::clear;
use den_disk::{Disk, DiskFault, Part, Place};

// The slot of the family that is not this one.
pub fn other_of(slot: Place) -> Place
    ensures { result ≡ other_slot slot }
{
    let part = match slot.part {
        Part::Head => Part::A,
        Part::A => Part::B,
        Part::B => Part::A,
    };
    Place {
        family: slot.family,
        part,
    }
}

// Makes the list in the other slot the family's, and leaves no byte in this one.
pub fn commit<D: Disk>(disk: &mut D, slot: Place) -> Result<(), GateError>
    ensures kind { D.kind disk.new ≡ D.kind disk.old }
    ensures later { D.faults disk.old ≤ D.faults disk.new }
    ensures flips { IsTrue (D.kind disk.old).tells → (list now : List (List ℕ)) → Drafted slot list now (D.content disk.old)
        → Leaves D.content D.moment D.images (λ t files. Flips slot (other_slot slot) list now (D.images disk.old (D.moment disk.old)) files) disk.old disk.new }
    ensures run { IsTrue (D.kind disk.old).tells → RunSparesOthers D.content D.moment D.images slot.family disk.old disk.new }
    ensures done { IsTrue (D.kind disk.old).tells → (now : List (List ℕ)) (end : ℕ) → IsCurrent slot (D.content disk.old) → Holds now end ((D.content disk.old).reading (other_slot slot))
        → OnOk result (IsOpen (other_slot slot) now end (D.content disk.new) × IsCurrent (other_slot slot) (D.content disk.new)) }
    ensures cleared { IsTrue (D.kind disk.old).tells → OnOk result ((D.content disk.new).reading slot ≡ []) }
    ensures kept { IsTrue (D.kind disk.old).tells → (D.content disk.new).reading (other_slot slot) ≡ (D.content disk.old).reading (other_slot slot) }
    ensures refused { IfErr result (Because ⊥ (Rose (D.faults disk.old) (D.faults disk.new)) (λ needed limit. ⊥) (λ part offset. ⊥)) }
{
    disk.sync()?;
    flip(disk, slot)?;
    clear(disk, slot)?;
    Ok(())
}

// Names the family's other slot in its head, on the disk.
fn flip<D: Disk>(disk: &mut D, slot: Place) -> Result<(), DiskFault>
    ensures kind { D.kind disk.new ≡ D.kind disk.old }
    ensures run { IsTrue (D.kind disk.old).tells → RunSpares D.content D.moment D.images (head_of slot.family) disk.old disk.new }
    ensures current { IsTrue (D.kind disk.old).tells → (slot.part ≡ Head → ⊥) → OnOk result (IsCurrent (other_slot slot) (D.content disk.new)) }
    ensures cause { HasCause (D.faults disk.old) (D.faults disk.new) (IsErr result) }
{
    let head = Place {
        family: slot.family,
        part: Part::Head,
    };
    let name = other_name(slot.part);
    make_byte(disk, head)?;
    disk.write_at(head, 0, &[name])?;
    disk.sync()
}

// The byte of a head that names the slot that is not this one.
fn other_name(part: Part) -> u8
    ensures { result ≡ other_byte part }
{
    match part {
        Part::Head => 0,
        Part::A => 1,
        Part::B => 0,
    }
}

// Sees to it that a file has a byte: a head that has none gets a zero, which names the same slot.
fn make_byte<D: Disk>(disk: &mut D, place: Place) -> Result<(), DiskFault>
    ensures kind { D.kind disk.new ≡ D.kind disk.old }
    ensures long { IsTrue (D.kind disk.old).tells → OnOk result (1 ≤ length ((D.content disk.new).reading place)) }
    ensures run { IsTrue (D.kind disk.old).tells → RunSpares D.content D.moment D.images place disk.old disk.new }
    ensures cause { HasCause (D.faults disk.old) (D.faults disk.new) (IsErr result) }
{
    let limit = disk.limit();
    prove!(limit >= 1);
    let len = disk.len(place)?;
    if len > 0 {
        return Ok(());
    }
    disk.resize(place, 1)
}
