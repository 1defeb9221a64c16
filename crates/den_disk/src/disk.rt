//! A disk of twelve files: what a read returns, and what a crash may leave at each moment.
ghost use Rattle.std.specs.Prelude.{◌≡◌, ◌≤◌, ◌↔◌, ◌^◌, ◌+◌, ◌-◌, ℕ, List, IsTrue, IfOk, OnOk, IsErr, length, take, drop};
ghost use Rattle.den_disk.specs.Files.{Files, Kind, Content, IsImage, torn, resized};
ghost use Rattle.den_disk.specs.Crash.{Stays, Changes, IsWritten, IsHalfWritten, IsResized, IsSynced, IsEither};
ghost use Rattle.den_disk.specs.Goes.{HasCause};

use crate::Place;

/// A call that the machine's disk did not do.
#[derive(Clone, Copy, Debug, PartialEq, Eq)]
pub struct DiskFault;

/// Twelve files that are read, written, cut and synced, and what a crash at each moment may leave of them. Each call that
/// fails is counted.
pub trait Disk {
    /// Whether it tells its bytes, and how long a file may be.
    ghost kind: { Self → Kind };

    /// What is read, and what is pending. Only where it tells.
    ghost content: { Self → Content };

    /// A number that doesn't fall.
    ghost moment: { Self → ℕ };

    /// What a crash at a moment may leave.
    ghost images: { Self → ℕ → Files → Type 0 };

    /// How often it has failed. At 2 ^ 64 - 1 it counts as risen.
    ghost faults: { Self → ℕ };

    /// The length of a file.
    fn len(&mut self, place: Place) -> Result<u64, DiskFault>
        ensures kind { kind self.new ≡ kind self.old }
        ensures cause { HasCause (faults self.old) (faults self.new) (IsErr result) }
        ensures within { IfOk result (λ len. len ≤ (kind self.old).limit) }
        ensures read { IsTrue (kind self.old).tells → IfOk result (λ len. len ≡ length ((content self.old).reading place)) }
        ensures stays { IsTrue (kind self.old).tells → Stays content moment images self.old self.new };

    /// Fills the buffer from the file.
    fn read_at(&mut self, place: Place, at: u64, buffer: &mut [u8]) -> Result<(), DiskFault>
        requires { IsTrue (kind self.old).tells → at + length buffer.old ≤ length ((content self.old).reading place) }
        ensures kind { kind self.new ≡ kind self.old }
        ensures cause { HasCause (faults self.old) (faults self.new) (IsErr result) }
        ensures read { IsTrue (kind self.old).tells → OnOk result (buffer.new ≡ take (length buffer.old) (drop at ((content self.old).reading place))) }
        ensures stays { IsTrue (kind self.old).tells → Stays content moment images self.old self.new };

    /// Writes over what is there. Until a sync, a crash may leave any bytes in the range.
    fn write_at(&mut self, place: Place, at: u64, bytes: &[u8]) -> Result<(), DiskFault>
        requires { IsTrue (kind self.old).tells → at + length bytes.now ≤ length ((content self.old).reading place) }
        ensures kind { kind self.new ≡ kind self.old }
        ensures cause { HasCause (faults self.old) (faults self.new) (IsErr result) }
        ensures writes { IsTrue (kind self.old).tells → Changes content moment images result
            (IsWritten place at bytes.now (content self.old))
            (IsHalfWritten place at bytes.now (content self.old))
            (IsImage (torn place at (length bytes.now) (content self.old))) self.old self.new };

    /// Cuts a file, or fills it with zeros. A crash leaves the old length or the new one.
    fn resize(&mut self, place: Place, len: u64) -> Result<(), DiskFault>
        requires { len ≤ (kind self.old).limit }
        ensures kind { kind self.new ≡ kind self.old }
        ensures cause { HasCause (faults self.old) (faults self.new) (IsErr result) }
        ensures resizes { IsTrue (kind self.old).tells → Changes content moment images result
            (IsResized place len (content self.old))
            (IsResized place len (content self.old))
            (IsEither (content self.old) (resized place len (content self.old))) self.old self.new };

    /// After it, a crash leaves what is read.
    fn sync(&mut self) -> Result<(), DiskFault>
        ensures kind { kind self.new ≡ kind self.old }
        ensures cause { HasCause (faults self.old) (faults self.new) (IsErr result) }
        ensures syncs { IsTrue (kind self.old).tells → Changes content moment images result
            (IsSynced (content self.old))
            (λ _. ⊥)
            (IsImage (content self.old)) self.old self.new };

    /// How long a file may be.
    fn limit(&self) -> u64
        ensures limit { result ≡ (kind self.now).limit }
        ensures least { 2 ^ 43 ≤ result }
        ensures most { result ≤ 2 ^ 62 };

    /// The moment, told or not, so that a link can stamp with it what it sends.
    fn moment(&self) -> u64
        ensures { result ≡ moment self.now };

    /// At this moment a crash leaves what is read, but for what is pending.
    ghost images_now: { (disk : Self) (files : Files) → IsTrue (kind disk).tells → images disk (moment disk) files ↔ IsImage (content disk) files };
}
