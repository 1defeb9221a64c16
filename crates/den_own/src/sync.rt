// A sync of the disk, for stores that have no file there.
ghost use Rattle.std.specs.Prelude.{◌≡◌, [], OnOk, IfErr};
ghost use Rattle.den_codec.specs.declared.error.Error.TheVariants.{StorageIoError};
ghost use Rattle.den_disk.specs.Families.{NoNewImages, SparesAll};
ghost use Rattle.den_journal.specs.Writes.{DiskTells, Faulted, GoesOn};

use den_codec::Error;
use den_disk::Disk;

// Puts all files on the disk.
pub(crate) fn sync<D: Disk>(disk: &mut D) -> Result<(), Error>
    ensures goes_on { GoesOn D.Disk disk.old disk.new }
    ensures images { DiskTells D.Disk disk.old → NoNewImages (D.images disk.old) (D.images disk.new) (D.moment disk.old) (D.moment disk.new) }
    ensures spares { DiskTells D.Disk disk.old → SparesAll (D.content disk.old) (D.content disk.new) }
    ensures flushed { DiskTells D.Disk disk.old → OnOk result ((D.content disk.new).pending ≡ []) }
    ensures refused { IfErr result (λ e. (e ≡ StorageIoError) × Faulted D.Disk disk.old disk.new) }
{
    match disk.sync() {
        Ok(()) => Ok(()),
        Err(_) => Err(Error::StorageIoError),
    }
}
