// What stands at an offset of a slot.
ghost use Rattle.std.specs.Prelude.{◌≡◌, ◌+◌, ◌-◌, ◌≤◌, ◌<◌, ◌^◌, ℕ, List, min, IsTrue, IsErr, IfOk, OnOk, length, take, drop};
ghost use Rattle.den_disk.specs.Crash.{Stays};
ghost use Rattle.den_disk.specs.Goes.{HasCause};
ghost use Rattle.den_model.specs.Spelling.{u64_word};
ghost use Rattle.den_gate.specs.Loading.{IsFurther, Finds};
ghost use Rattle.den_gate.specs.Window.{Shows};

use crate::window::Window;
use den_disk::{Disk, DiskFault, Place};

// What stands at an offset.
pub enum Found {
    Closed,
    Region { next: u64 },
    CutShort,
}

// Looks at the offset of a slot of this length, through a window that shows some of it.
pub fn look<D: Disk>(
    disk: &mut D,
    slot: Place,
    at: u64,
    len: u64,
    window: &mut Window,
) -> Result<Found, DiskFault>
    requires len { IsTrue (D.kind disk.old).tells → len ≡ length ((D.content disk.old).reading slot) }
    requires at { at < len }
    requires most { len ≤ 2 ^ 62 }
    requires fits { window.old.filled ≤ 65536 }
    requires shows { IsTrue (D.kind disk.old).tells → Shows window.old ((D.content disk.old).reading slot) }
    ensures kind { D.kind disk.new ≡ D.kind disk.old }
    ensures goes_on { IfOk result (λ found. IsFurther at len found) }
    ensures found { IsTrue (D.kind disk.old).tells → IfOk result (λ found. Finds at ((D.content disk.old).reading slot) found) }
    ensures fits { window.new.filled ≤ 65536 }
    ensures shows { IsTrue (D.kind disk.old).tells → Shows window.new ((D.content disk.old).reading slot) }
    ensures stays { IsTrue (D.kind disk.old).tells → Stays D.content D.moment D.images disk.old disk.new }
    ensures cause { HasCause (D.faults disk.old) (D.faults disk.new) (IsErr result) }
{
    window.reach(disk, slot, at, len)?;
    Ok(found_in(window.behind(at), at, len))
}

// What a header tells that stands there, with what follows it.
fn found_in(header: &[u8], at: u64, len: u64) -> Found
    requires at { at < len }
    requires most { len ≤ 2 ^ 62 }
    requires long { min 9 (len - at) ≤ length header.now }
    ensures goes_on { IsFurther at len result }
    ensures found { (file : List ℕ) → length file ≡ len → header.now ≡ take (length header.now) (drop at file) → Finds at file result }
{
    if header[0] != 1 {
        return Found::Closed;
    }
    if len - at < 9 {
        return Found::CutShort;
    }
    let mut field = [0; 8];
    field.copy_from_slice(&header[1..9]);
    let size = field_value(&field);
    if len - at - 9 < size {
        return Found::CutShort;
    }
    Found::Region {
        next: at + 9 + size,
    }
}

// The length that a field tells.
fn field_value(field: &[u8; 8]) -> u64
    ensures { u64_word result ≡ field.now }
{
    u64::from_be_bytes(*field)
}
