// A value, made anew from the regions of its files.
ghost use Rattle.std.specs.Prelude.{◌≡◌, ◌≤◌, Ok, Err, IsTrue, IfOk, IfErr};
ghost use Rattle.den_disk.specs.Goes.{Rose};
ghost use Rattle.den_model.specs.Regions.{placed};
ghost use Rattle.den_gate.specs.Gate.{payloads, IsAtRest};
ghost use Rattle.den_gate.specs.Reads.{OnlyReads};
ghost use Rattle.den_journal.specs.Folding.{IsUnread};

use crate::Folded;
use crate::family::refusal;
use den_codec::Error;
use den_disk::Disk;
use den_gate::GateFile;
use std::alloc::Global;

// The value that a gate file's regions make, or the offset of the first that is no lawful word. It folds them one by one, as
// they are read.
pub(crate) fn replay<F: Folded, D: Disk>(
    alloc: Global,
    disk: &mut D,
    gate: &GateFile,
    place: u8,
) -> Result<F, Error>
    requires at_rest { IsTrue (D.kind disk.old).tells → IsAtRest gate.now (D.content disk.old) }
    ensures disk { OnlyReads D.Disk disk.old disk.new }
    ensures read { IsTrue (D.kind disk.old).tells → IfOk result (λ held. F.from F.empty (placed 0 (payloads gate.now (D.content disk.old).reading)) ≡ Ok (F.value held)) }
    ensures size { IsTrue (D.kind disk.old).tells → IfOk result (λ held. F.size (F.value held) ≤ gate.now.end) }
    ensures refused { IfErr result (IsUnread (Rose (D.faults disk.old) (D.faults disk.new)) (λ at offset. IsTrue (D.kind disk.old).tells →
        (at ≡ place) × (F.from F.empty (placed 0 (payloads gate.now (D.content disk.old).reading)) ≡ Err offset))) }
{
    let mut held = F::empty(alloc);
    let mut payload = Vec::new(alloc);
    let mut reader = match gate.reader(disk) {
        Ok(reader) => reader,
        Err(error) => return Err(refusal(F::FAMILY, error)),
    };
    'regions: loop {
        match reader.next(disk, &mut payload) {
            Ok(Some(offset)) => {
                if !held.take(alloc, payload.as_slice())? {
                    return Err(Error::DataCorruption { place, offset });
                }
            }
            Ok(None) => return Ok(held),
            Err(error) => return Err(refusal(F::FAMILY, error)),
        }
    }
}
