// A piece of a file that was read, so that small reads near one another take one call of the disk.
ghost use Rattle.std.specs.Prelude.{◌≡◌, ◌≤◌, ◌↔◌, ◌^◌, ◌+◌, ◌-◌, ◌<◌, ℕ, List, min, IsTrue, IsErr, OnOk, length, take, drop};
ghost use Rattle.den_disk.specs.Crash.{Stays};
ghost use Rattle.den_disk.specs.Goes.{HasCause};
ghost use Rattle.den_gate.specs.Window.{Shows};

use den_disk::{Disk, DiskFault, Place};

const PIECE: usize = 65_536;

// The bytes of a file from an offset on, as they were read.
#[derive(Drop)]
pub struct Window {
    bytes: [u8; PIECE],
    from: u64,
    filled: usize,
}

impl Window {
    // A window that shows nothing.
    pub fn new() -> Window
        ensures fits { result.filled ≤ 65536 }
        ensures shows { (file : List ℕ) → Shows result file }
    {
        Window {
            bytes: [0; PIECE],
            from: 0,
            filled: 0,
        }
    }

    // Whether it shows the bytes from this offset up to that one.
    pub fn shows(&self, from: u64, to: u64) -> bool
        ensures { IsTrue result ↔ ((self.now.from ≤ from) × (to ≤ self.now.from + self.now.filled)) }
    {
        self.from <= from && to.saturating_sub(self.from) <= self.filled as u64
    }

    // What it shows from this offset on.
    pub fn behind(&self, at: u64) -> &[u8]
        requires fits { self.now.filled ≤ 65536 }
        requires low { self.now.from ≤ at }
        requires high { at ≤ self.now.from + self.now.filled }
        ensures is { result.now ≡ take (self.now.from + self.now.filled - at) (drop (at - self.now.from) self.now.bytes) }
        ensures long { length result.now ≡ self.now.from + self.now.filled - at }
    {
        &self.bytes[(at - self.from) as usize..self.filled]
    }

    // Shows the header at this offset of a file of this length, or what there is of it; at a fault what it showed, or nothing.
    pub fn reach<D: Disk>(
        &mut self,
        disk: &mut D,
        place: Place,
        at: u64,
        len: u64,
    ) -> Result<(), DiskFault>
        requires len { IsTrue (D.kind disk.old).tells → len ≡ length ((D.content disk.old).reading place) }
        requires at { at < len }
        requires most { len ≤ 2 ^ 62 }
        requires fits { self.old.filled ≤ 65536 }
        requires shows { IsTrue (D.kind disk.old).tells → Shows self.old ((D.content disk.old).reading place) }
        ensures kind { D.kind disk.new ≡ D.kind disk.old }
        ensures fits { self.new.filled ≤ 65536 }
        ensures low { OnOk result (self.new.from ≤ at) }
        ensures high { OnOk result (min (at + 9) len ≤ self.new.from + self.new.filled) }
        ensures shows { IsTrue (D.kind disk.old).tells → Shows self.new ((D.content disk.old).reading place) }
        ensures stays { IsTrue (D.kind disk.old).tells → Stays D.content D.moment D.images disk.old disk.new }
        ensures cause { HasCause (D.faults disk.old) (D.faults disk.new) (IsErr result) }
    {
        if self.shows(at, len.min(at + 9)) {
            return Ok(());
        }
        self.fill(disk, place, at, len)
    }

    // Reads from this offset on. At a fault it shows nothing.
    fn fill<D: Disk>(
        &mut self,
        disk: &mut D,
        place: Place,
        at: u64,
        len: u64,
    ) -> Result<(), DiskFault>
        requires len { IsTrue (D.kind disk.old).tells → len ≡ length ((D.content disk.old).reading place) }
        requires at { at < len }
        requires fits { self.old.filled ≤ 65536 }
        ensures kind { D.kind disk.new ≡ D.kind disk.old }
        ensures fits { self.new.filled ≤ 65536 }
        ensures from { OnOk result (self.new.from ≡ at) }
        ensures filled { OnOk result (self.new.filled ≡ min (len - at) 65536) }
        ensures shows { IsTrue (D.kind disk.old).tells → Shows self.new ((D.content disk.old).reading place) }
        ensures stays { IsTrue (D.kind disk.old).tells → Stays D.content D.moment D.images disk.old disk.new }
        ensures cause { HasCause (D.faults disk.old) (D.faults disk.new) (IsErr result) }
    {
        let filled = (len - at).min(PIECE as u64) as usize;
        self.from = at;
        self.filled = 0;
        disk.read_at(place, at, &mut self.bytes[..filled])?;
        self.filled = filled;
        Ok(())
    }
}
