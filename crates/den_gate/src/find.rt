// Which slot a family's head names, and where the regions of a slot end.
ghost use Rattle.std.specs.Prelude.{◌≡◌, ◌≤◌, ◌^◌, ℕ, List, Err, IsTrue, IsErr, IfOk, IfErr};
ghost use Rattle.den_disk.specs.Crash.{Stays};
ghost use Rattle.den_disk.specs.Goes.{HasCause, Rose};
ghost use Rattle.den_model.specs.Regions.{regions};
ghost use Rattle.den_model.specs.Image.{slot_of};
ghost use Rattle.den_gate.specs.Causes.{Because};
ghost use Rattle.den_gate.specs.Slot.{payloads_of, Holds};

use crate::GateError;
use crate::look::{Found, look};
use crate::window::Window;
use den_disk::{Disk, DiskFault, Family, Part, Place};

// The slot that the family's head names.
pub fn find_slot<D: Disk>(disk: &mut D, family: Family) -> Result<Place, DiskFault>
    ensures kind { D.kind disk.new ≡ D.kind disk.old }
    ensures family { IfOk result (λ slot. slot.family ≡ family) }
    ensures slot { IsTrue (D.kind disk.old).tells → IfOk result (λ slot. slot ≡ slot_of family (D.content disk.old).reading) }
    ensures stays { IsTrue (D.kind disk.old).tells → Stays D.content D.moment D.images disk.old disk.new }
    ensures cause { HasCause (D.faults disk.old) (D.faults disk.new) (IsErr result) }
{
    let head = Place {
        family,
        part: Part::Head,
    };
    let len = disk.len(head)?;
    let mut name = [0];
    if len > 0 {
        disk.read_at(head, 0, &mut name)?;
    }
    let part = if name[0] == 1 { Part::B } else { Part::A };
    Ok(Place { family, part })
}

// Where the slot's regions end.
pub fn find_end<D: Disk>(disk: &mut D, slot: Place) -> Result<u64, GateError>
    ensures kind { D.kind disk.new ≡ D.kind disk.old }
    ensures later { D.faults disk.old ≤ D.faults disk.new }
    ensures end { IfOk result (λ end. end ≤ 2 ^ 62) }
    ensures holds { IsTrue (D.kind disk.old).tells → IfOk result (λ end. Holds (payloads_of ((D.content disk.old).reading slot)) end ((D.content disk.old).reading slot)) }
    ensures stays { IsTrue (D.kind disk.old).tells → Stays D.content D.moment D.images disk.old disk.new }
    ensures refused { IfErr result (Because ⊥ (Rose (D.faults disk.old) (D.faults disk.new)) (λ needed limit. ⊥) (λ part offset.
        IsTrue (D.kind disk.old).tells → (part ≡ slot.part) × (regions ((D.content disk.old).reading slot) ≡ Err offset))) }
{
    let limit = disk.limit();
    let len = disk.len(slot)?;
    prove!(len <= limit);
    let mut window = Window::new();
    let mut at = 0;
    while at < len {
        match look(disk, slot, at, len, &mut window)? {
            Found::Closed => return Ok(at),
            Found::Region { next } => at = next,
            Found::CutShort => {
                return Err(GateError::DataCorruption {
                    part: slot.part,
                    offset: at,
                });
            }
        }
    }
    Ok(at)
}
