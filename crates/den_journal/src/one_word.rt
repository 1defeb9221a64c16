//! A family whose files hold one word: one region, read and written as a whole.
ghost use Rattle.std.specs.Prelude.{◌≡◌, [], false, IsTrue, IsErr, IfErr, IfOk, OnOk};
ghost use Rattle.den_disk.specs.Crash.{Leaves};
ghost use Rattle.den_disk.specs.Goes.{DiskGoesOn, HasCause, Rose};
ghost use Rattle.den_disk.specs.Families.{SparesOthers, SparesImages};
ghost use Rattle.den_model.specs.Image.{head_of};
ghost use Rattle.den_model.specs.Reading.{whole};
ghost use Rattle.den_gate.specs.Causes.{Because};
ghost use Rattle.den_gate.specs.Steps.{RunSparesOthers};
ghost use Rattle.den_gate.specs.Gate.{IsAtRest, IsCurrent};
ghost use Rattle.den_journal.specs.OneWord.{refusal_at_start, slot_at_start, HasWords, IsKept, KeepsOrEmpties, ReadsOne, WritesOne};

use crate::family::{file_number, refusal};
use den_codec::{Error, Word};
use den_disk::{Disk, DiskFault, Family, Part, Place};
use den_gate::{GateError, GateFile};
use den_model::Blob;
use std::alloc::Global;

/// The value whose word is the one region of a family's files, after a sync of all files. `DataCorruption` comes exactly
/// where they are not one region that is a word; it names the slot in use and offset 0.
pub fn read_one<W: Word, D: Disk>(alloc: Global, disk: &mut D, family: Family) -> Result<W, Error>
    ensures reads { ReadsOne D.Disk family (whole W.at) disk.old disk.new result }
{
    let gate = match GateFile::load(family, disk) {
        Ok(gate) => gate,
        Err(error) => return Err(refusal_at_start(family, error)),
    };
    let list = match gate.regions(alloc, disk) {
        Ok(list) => list,
        Err(error) => return Err(refusal_at_start(family, error)),
    };
    let place = file_number(family, gate.part());
    match list.as_slice() {
        [word] => match W::read(alloc, word.as_slice())? {
            Some(value) => Ok(value),
            None => Err(Error::DataCorruption { place, offset: 0 }),
        },
        _ => Err(Error::DataCorruption { place, offset: 0 }),
    }
}

/// Makes a family's files one region, of this word, after a sync of all files; files that cannot be read are emptied
/// first. It stands in the slot that was not in use, which is B where the files were emptied, and the other slot is empty
/// then. A crash inside leaves the word that stood there, or this one, or none where the files could not be read. It
/// takes no memory.
pub fn write_one<D: Disk>(disk: &mut D, family: Family, word: Blob) -> Result<(), Error>
    ensures writes { WritesOne D.Disk family word disk.old disk.new result }
{
    let mut gate = match load_or_empty(family, disk) {
        Ok(gate) => gate,
        Err(error) => return Err(refusal(family, error)),
    };
    match gate.rewrite(disk, &[word]) {
        Ok(()) => Ok(()),
        Err(error) => Err(refusal(family, error)),
    }
}

// A gate file's refusal, as a store tells it; files that cannot be read are no word from their first byte on.
fn refusal_at_start(family: Family, error: GateError) -> Error
    ensures { result ≡ refusal_at_start family error }
{
    match error {
        GateError::OutOfMemory => Error::OutOfMemory,
        GateError::StorageIoError => Error::StorageIoError,
        GateError::Full { needed, limit } => Error::DiskFull { needed, limit },
        GateError::DataCorruption { part, offset: _ } => Error::DataCorruption {
            place: file_number(family, part),
            offset: 0,
        },
    }
}

// A family's gate file. Files that cannot be read are emptied first.
fn load_or_empty<D: Disk>(family: Family, disk: &mut D) -> Result<GateFile, GateError>
    ensures disk { DiskGoesOn D.kind D.moment D.images D.faults disk.old disk.new }
    ensures others { IsTrue (D.kind disk.old).tells → SparesOthers family (D.content disk.old) (D.content disk.new) }
    ensures images { IsTrue (D.kind disk.old).tells → SparesImages family (D.images disk.old) (D.images disk.new) (D.moment disk.old) (D.moment disk.new) }
    ensures any_moment { IsTrue (D.kind disk.old).tells → Leaves D.content D.moment D.images
        (λ t files. IsKept family (D.images disk.old (D.moment disk.old)) (D.content disk.old).reading files) disk.old disk.new }
    ensures family { IfOk result (λ gate. gate.slot.family ≡ family) }
    ensures ready { IfOk result (λ gate. gate.failed ≡ false) }
    ensures at_rest { IsTrue (D.kind disk.old).tells → IfOk result (λ gate. IsAtRest gate (D.content disk.new)) }
    ensures current { IsTrue (D.kind disk.old).tells → IfOk result (λ gate. IsCurrent gate.slot (D.content disk.new)) }
    ensures slot { IsTrue (D.kind disk.old).tells → IfOk result (λ gate. gate.slot ≡ slot_at_start family (D.content disk.old).reading) }
    ensures refused { IfErr result (Because ⊥ (Rose (D.faults disk.old) (D.faults disk.new)) (λ needed limit. ⊥) (λ part offset. IsTrue (D.kind disk.old).tells → ⊥)) }
{
    match GateFile::load(family, disk) {
        Ok(gate) => Ok(gate),
        Err(GateError::DataCorruption { part: _, offset: _ }) => {
            empty(disk, family)?;
            GateFile::load(family, disk)
        }
        Err(GateError::OutOfMemory) => Err(GateError::OutOfMemory),
        Err(GateError::StorageIoError) => Err(GateError::StorageIoError),
        Err(GateError::Full { needed, limit }) => Err(GateError::Full { needed, limit }),
    }
}

// Takes all bytes of a family's files. The slots go before the head, so that no crash leaves a head that names an old
// word in the slot that was not in use.
fn empty<D: Disk>(disk: &mut D, family: Family) -> Result<(), DiskFault>
    ensures kind { D.kind disk.new ≡ D.kind disk.old }
    ensures cause { HasCause (D.faults disk.old) (D.faults disk.new) (IsErr result) }
    ensures run { IsTrue (D.kind disk.old).tells → RunSparesOthers D.content D.moment D.images family disk.old disk.new }
    ensures any_moment { IsTrue (D.kind disk.old).tells → (D.content disk.old).pending ≡ [] → Leaves D.content D.moment D.images
        (λ t files. KeepsOrEmpties family (D.content disk.old).reading files) disk.old disk.new }
    ensures emptied { IsTrue (D.kind disk.old).tells → OnOk result (HasWords family [] (D.content disk.new).reading) }
    ensures head { IsTrue (D.kind disk.old).tells → OnOk result ((D.content disk.new).reading (head_of family) ≡ []) }
{
    disk.resize(
        Place {
            family,
            part: Part::B,
        },
        0,
    )?;
    disk.resize(
        Place {
            family,
            part: Part::A,
        },
        0,
    )?;
    disk.resize(
        Place {
            family,
            part: Part::Head,
        },
        0,
    )
}
