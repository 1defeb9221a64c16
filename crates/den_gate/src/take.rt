// The payloads of a slot.
ghost use Rattle.std.specs.Prelude.{◌≡◌, ◌+◌, ◌-◌, ◌≤◌, ◌^◌, ℕ, List, Ok, Err, IsTrue, IfOk, IfErr, length, take, drop};
ghost use Rattle.den_disk.specs.Crash.{Stays};
ghost use Rattle.den_disk.specs.Goes.{Rose};
ghost use Rattle.den_model.specs.Regions.{regions};
ghost use Rattle.den_gate.specs.Causes.{Because};
ghost use Rattle.den_gate.specs.Slot.{payloads_of};
ghost use Rattle.den_gate.specs.Window.{Shows};

use crate::GateError;
use crate::look::{Found, look};
use crate::window::Window;
use den_disk::{Disk, Place};
use den_model::{Blob, Rows};
use std::alloc::Global;

// Takes the payloads of the slot's regions.
pub fn take_all<D: Disk>(alloc: Global, disk: &mut D, slot: Place) -> Result<Rows<Blob>, GateError>
    ensures kind { D.kind disk.new ≡ D.kind disk.old }
    ensures later { D.faults disk.old ≤ D.faults disk.new }
    ensures payloads { IsTrue (D.kind disk.old).tells → IfOk result (λ list. list ≡ payloads_of ((D.content disk.old).reading slot)) }
    ensures stays { IsTrue (D.kind disk.old).tells → Stays D.content D.moment D.images disk.old disk.new }
    ensures refused { IfErr result (Because (Unit {0}) (Rose (D.faults disk.old) (D.faults disk.new)) (λ needed limit. ⊥) (λ part offset.
        IsTrue (D.kind disk.old).tells → regions ((D.content disk.old).reading slot) ≡ Err offset)) }
{
    let limit = disk.limit();
    let len = disk.len(slot)?;
    prove!(len <= limit);
    let mut list = Vec::new(alloc);
    let mut window = Window::new();
    let mut at = 0;
    while at < len {
        match look(disk, slot, at, len, &mut window)? {
            Found::Closed => return Ok(Rows::of(list)),
            Found::Region { next } => {
                list.push(take_payload(alloc, disk, slot, at + 9, next, &window)?)?;
                at = next;
            }
            Found::CutShort => {
                return Err(GateError::DataCorruption {
                    part: slot.part,
                    offset: at,
                });
            }
        }
    }
    Ok(Rows::of(list))
}

// Takes the bytes of a slot from this offset up to that one, out of the window if it shows them.
fn take_payload<D: Disk>(
    alloc: Global,
    disk: &mut D,
    slot: Place,
    from: u64,
    to: u64,
    window: &Window,
) -> Result<Blob, GateError>
    requires sized { from ≤ to }
    requires most { to ≤ 2 ^ 62 }
    requires within { IsTrue (D.kind disk.old).tells → to ≤ length ((D.content disk.old).reading slot) }
    requires fits { window.now.filled ≤ 65536 }
    requires shows { IsTrue (D.kind disk.old).tells → Shows window.now ((D.content disk.old).reading slot) }
    ensures kind { D.kind disk.new ≡ D.kind disk.old }
    ensures later { D.faults disk.old ≤ D.faults disk.new }
    ensures payload { IsTrue (D.kind disk.old).tells → IfOk result (λ blob. blob ≡ take (to - from) (drop from ((D.content disk.old).reading slot))) }
    ensures stays { IsTrue (D.kind disk.old).tells → Stays D.content D.moment D.images disk.old disk.new }
    ensures refused { IfErr result (Because (Unit {0}) (Rose (D.faults disk.old) (D.faults disk.new)) (λ needed limit. ⊥) (λ part offset. ⊥)) }
{
    let size = (to - from) as usize;
    if window.shows(from, to) {
        return Ok(Blob::of(alloc, &window.behind(from)[..size])?);
    }
    let mut bytes = vec![in alloc; 0; size]?;
    disk.read_at(slot, from, &mut bytes)?;
    Ok(Blob::of(alloc, &bytes)?)
}
