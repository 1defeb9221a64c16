//! The regions of a gate file, read one after the other.
ghost use Rattle.std.specs.Prelude.{◌≡◌, ◌+◌, ◌-◌, ◌≤◌, ◌^◌, ℕ, List, IsTrue, IfOk, IfErr, OnOk, length, take, drop};
ghost use Rattle.den_disk.specs.Crash.{Stays};
ghost use Rattle.den_disk.specs.Goes.{Rose};
ghost use Rattle.den_gate.specs.Causes.{Because};
ghost use Rattle.den_gate.specs.Window.{Shows};

use crate::GateError;
use crate::look::{Found, look};
use crate::window::Window;
use den_disk::{Disk, Place};
use std::alloc::Global;

/// Reads the payloads of a gate file into a lent buffer, one a call, while the file stays as it is. It reads the file in
/// pieces of 65,536 bytes, and a payload that runs past a piece by a read of its own.
#[derive(Drop)]
pub struct RegionReader {
    slot: Place,
    len: u64,
    at: u64,
    given: u64,
    window: Window,
    ghost most: { len ≤ 2 ^ 62 },
    ghost within: { at ≤ len },
    ghost counted: { given ≤ at },
    ghost fits: { window.filled ≤ 65536 },
}

impl RegionReader {
    ghost use Rattle.den_gate.specs.Reader.{next_region, region_found, Advances, StandsIn};
    ghost use Rattle.den_gate.specs.Reads.{OnlyReads};

    // A reader of a slot of this length, before its first region.
    pub(crate) fn new(slot: Place, len: u64) -> RegionReader
        requires { len ≤ 2 ^ 62 }
        ensures slot { result.slot ≡ slot }
        ensures len { result.len ≡ len }
        ensures at { result.at ≡ 0 }
        ensures given { result.given ≡ 0 }
        ensures shows { (file : List ℕ) → Shows result.window file }
    {
        RegionReader {
            slot,
            len,
            at: 0,
            given: 0,
            window: Window::new(),
        }
    }

    /// Reads the next payload into the buffer, in place of what the buffer held, and tells its gate's offset; `None` behind
    /// the last one. On a disk that does not tell it answers DataCorruption where it finds other bytes than before.
    pub fn next<D: Disk>(
        &mut self,
        disk: &mut D,
        buffer: &mut Vec<u8>,
    ) -> Result<Option<u64>, GateError>
        requires stands { IsTrue (D.kind disk.old).tells → StandsIn self.old (D.content disk.old).reading }
        ensures disk { OnlyReads D.Disk disk.old disk.new }
        ensures found { IsTrue (D.kind disk.old).tells → IfOk result (λ offset.
            region_found offset buffer.new.items ≡ next_region self.old (D.content disk.old).reading) }
        ensures stands { IsTrue (D.kind disk.old).tells → StandsIn self.new (D.content disk.new).reading }
        ensures advances { Advances result buffer.new.items self.old self.new }
        ensures slot { self.new.slot ≡ self.old.slot }
        ensures len { self.new.len ≡ self.old.len }
        ensures refused { IfErr result (Because (Unit {0}) (Rose (D.faults disk.old) (D.faults disk.new)) (λ needed limit. ⊥)
            (λ part offset. IsTrue (D.kind disk.old).tells → ⊥)) }
    {
        if self.at >= self.len {
            return Ok(None);
        }
        match look(disk, self.slot, self.at, self.len, &mut self.window)? {
            Found::Closed => Ok(None),
            Found::Region { next } => {
                let offset = self.at;
                take_bytes(buffer, disk, self.slot, offset + 9, next, &self.window)?;
                self.at = next;
                self.given += 1;
                Ok(Some(offset))
            }
            Found::CutShort => Err(GateError::DataCorruption {
                part: self.slot.part,
                offset: self.at,
            }),
        }
    }
}

// Takes the bytes of a slot from this offset up to that one into the buffer, out of the window if it shows them.
fn take_bytes<D: Disk>(
    buffer: &mut Vec<u8>,
    disk: &mut D,
    slot: Place,
    from: u64,
    to: u64,
    window: &Window,
) -> Result<(), GateError>
    requires sized { from ≤ to }
    requires most { to ≤ 2 ^ 62 }
    requires within { IsTrue (D.kind disk.old).tells → to ≤ length ((D.content disk.old).reading slot) }
    requires fits { window.now.filled ≤ 65536 }
    requires shows { IsTrue (D.kind disk.old).tells → Shows window.now ((D.content disk.old).reading slot) }
    ensures kind { D.kind disk.new ≡ D.kind disk.old }
    ensures later { D.faults disk.old ≤ D.faults disk.new }
    ensures payload { IsTrue (D.kind disk.old).tells → OnOk result (
        buffer.new.items ≡ take (to - from) (drop from ((D.content disk.old).reading slot))) }
    ensures long { OnOk result (length buffer.new.items ≡ to - from) }
    ensures stays { IsTrue (D.kind disk.old).tells → Stays D.content D.moment D.images disk.old disk.new }
    ensures refused { IfErr result (Because (Unit {0}) (Rose (D.faults disk.old) (D.faults disk.new)) (λ needed limit. ⊥)
        (λ part offset. ⊥)) }
{
    let size = (to - from) as usize;
    buffer.clear();
    if window.shows(from, to) {
        buffer.extend_from_slice(&window.behind(from)[..size])?;
        return Ok(());
    }
    buffer.reserve_exact(size)?;
    buffer.resize(size, 0)?;
    disk.read_at(slot, from, buffer)?;
    Ok(())
}
