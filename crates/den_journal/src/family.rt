// The files of one family.
ghost use Rattle.std.specs.Prelude.{◌≡◌, false, IsTrue, Err, IfOk, IfErr};
ghost use Rattle.den_disk.specs.Place.{place_number};
ghost use Rattle.den_disk.specs.Goes.{DiskGoesOn, Rose};
ghost use Rattle.den_disk.specs.Families.{SparesAll, NoNewImages};
ghost use Rattle.den_model.specs.Regions.{regions};
ghost use Rattle.den_model.specs.Image.{slot_of};
ghost use Rattle.den_journal.specs.Folding.{IsUnread};
ghost use Rattle.den_journal.specs.Opening.{IsLoaded, AllSynced};
ghost use Rattle.den_journal.specs.Refused.{refusal};

use den_codec::Error;
use den_disk::{Disk, Family, Part, Place};
use den_gate::{GateError, GateFile};

// The number of a file of a family.
pub(crate) fn file_number(family: Family, part: Part) -> u8
    ensures { result ≡ place_number (record { family = family; part = part }) }
{
    Place { family, part }.number() as u8
}

// A gate file's refusal, as a store tells it.
pub(crate) fn refusal(family: Family, error: GateError) -> Error
    ensures { result ≡ refusal family error }
{
    match error {
        GateError::OutOfMemory => Error::OutOfMemory,
        GateError::StorageIoError => Error::StorageIoError,
        GateError::Full { needed, limit } => Error::DiskFull { needed, limit },
        GateError::DataCorruption { part, offset } => Error::DataCorruption {
            place: file_number(family, part),
            offset,
        },
    }
}

// Loads a family's gate file, with all of the disk's files as they read.
pub(crate) fn load<D: Disk>(family: Family, disk: &mut D) -> Result<GateFile, Error>
    ensures disk { DiskGoesOn D.kind D.moment D.images D.faults disk.old disk.new }
    ensures images { IsTrue (D.kind disk.old).tells → NoNewImages (D.images disk.old) (D.images disk.new) (D.moment disk.old) (D.moment disk.new) }
    ensures spares { IsTrue (D.kind disk.old).tells → SparesAll (D.content disk.old) (D.content disk.new) }
    ensures settled { IsTrue (D.kind disk.old).tells → AllSynced result (D.content disk.old) (D.content disk.new) }
    ensures loaded { IsTrue (D.kind disk.old).tells → IfOk result (λ gate. IsLoaded family gate (D.content disk.old) (D.content disk.new)) }
    ensures family { IfOk result (λ gate. gate.slot.family ≡ family) }
    ensures ready { IfOk result (λ gate. gate.failed ≡ false) }
    ensures refused { IfErr result (IsUnread (Rose (D.faults disk.old) (D.faults disk.new)) (λ place offset. IsTrue (D.kind disk.old).tells →
        (place ≡ place_number (slot_of family (D.content disk.old).reading))
        × (regions ((D.content disk.old).reading (slot_of family (D.content disk.old).reading)) ≡ Err offset))) }
{
    match GateFile::load(family, disk) {
        Ok(gate) => Ok(gate),
        Err(error) => Err(refusal(family, error)),
    }
}
