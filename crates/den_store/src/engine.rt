//! A log store and a store of the hard state, kept together.
ghost use Rattle.std.specs.Prelude.{◌≡◌, ◌≤◌, IsTrue, Ok, IfOk, IfErr, refl};
ghost use Rattle.std.specs.Borrow.{sem, Lends};
ghost use Rattle.den_disk.specs.declared.place.Family.TheVariants.{Log as log_family, Meta as meta_family};
ghost use Rattle.den_disk.specs.Place.{place_number};
ghost use Rattle.den_disk.specs.Goes.{Rose};
ghost use Rattle.den_disk.specs.Families.{SparesAll, NoNewImages};
ghost use Rattle.den_model.specs.Image.{slot_of, log_in, hard_state_held};
ghost use Rattle.den_model.specs.Sizes.{entries_size, family_size};
ghost use Rattle.den_journal.specs.Folding.{IsUnread};
ghost use Rattle.den_journal.specs.Opening.{AllSynced};
ghost use Rattle.den_journal.specs.Writes.{GoesOn, IsOpened};
ghost use Rattle.den_store.specs.Engine.{IsFirstCorrupt};
ghost use Rattle.den_store.specs.FileLog.{file_place, log_shown};
ghost use Rattle.den_store.specs.FileMeta.{meta_shown};

use crate::{FileLogStore, FileMetaStore, LogStore, MetaStore};
use den_codec::{Error, Label};
use den_disk::Disk;
use std::alloc::Global;

/// A log store and a store of the hard state. What is done to the one leaves the other as it is.
pub trait StorageEngine<D: Disk>: Drop {
    type Log: LogStore<D>;

    type Meta: MetaStore<D>;

    /// The log store that it holds.
    ghost its_log: { Self → Self.Log };

    /// The store of the hard state that it holds.
    ghost its_meta: { Self → Self.Meta };

    /// It with another log store.
    ghost with_log: { Self → Self.Log → Self };

    /// It with another store of the hard state.
    ghost with_meta: { Self → Self.Meta → Self };

    /// Lends the log store.
    fn log_store(&mut self) -> &mut Self::Log
        ensures* writes_back { sem 𝓛 (Lends Self.row Self.Log.row self.entry result (with_log self.old)) }
        ensures value { result.now ≡ its_log self.old };

    /// Lends the store of the hard state.
    fn meta_store(&mut self) -> &mut Self::Meta
        ensures* writes_back { sem 𝓛 (Lends Self.row Self.Meta.row self.entry result (with_meta self.old)) }
        ensures value { result.now ≡ its_meta self.old };

    /// Both, as they are.
    fn split(self) -> (Self::Log, Self::Meta)
        ensures { result ≡ (its_log self, its_meta self) };

    ghost log_set: { (s : Self) (log : Self.Log) → its_log (with_log s log) ≡ log };

    ghost meta_kept: { (s : Self) (log : Self.Log) → its_meta (with_log s log) ≡ its_meta s };

    ghost meta_set: { (s : Self) (meta : Self.Meta) → its_meta (with_meta s meta) ≡ meta };

    ghost log_kept: { (s : Self) (meta : Self.Meta) → its_log (with_meta s meta) ≡ its_log s };
}

/// The log and the hard state of a folder.
#[derive(Drop)]
pub struct FileStorageEngine {
    data_dir: Label,
    log: FileLogStore,
    meta: FileMetaStore,
}

impl FileStorageEngine {
    /// Opens the log's files and then those of the hard state, whatever they are, after a sync of all files. The folder
    /// is the disk's; its name is kept beside. `DataCorruption` as the stores answer it, of the log first.
    pub fn new<D: Disk>(
        alloc: Global,
        data_dir: Label,
        disk: &mut D,
    ) -> Result<FileStorageEngine, Error>
        ensures goes_on { GoesOn D.Disk disk.old disk.new }
        ensures images { IsTrue (D.kind disk.old).tells → NoNewImages (D.images disk.old) (D.images disk.new) (D.moment disk.old) (D.moment disk.new) }
        ensures spares { IsTrue (D.kind disk.old).tells → SparesAll (D.content disk.old) (D.content disk.new) }
        ensures settled { IsTrue (D.kind disk.old).tells → AllSynced result (D.content disk.old) (D.content disk.new) }
        ensures data_dir { IfOk result (λ s. s.data_dir ≡ data_dir) }
        ensures log { IfOk result (λ s. IsOpened D.Disk log_family log_in (log_shown s.log) disk.old disk.new) }
        ensures meta { IfOk result (λ s. IsOpened D.Disk meta_family hard_state_held (meta_shown s.meta) disk.old disk.new) }
        ensures entries { IsTrue (D.kind disk.old).tells → IfOk result (λ s. entries_size (log_shown s.log).value.entries ≤ family_size log_family (D.content disk.old).reading) }
        ensures place { IsTrue (D.kind disk.old).tells → IfOk result (λ s. file_place s.log ≡ place_number (slot_of log_family (D.content disk.old).reading)) }
        ensures refused { IfErr result (IsUnread (Rose (D.faults disk.old) (D.faults disk.new)) (λ place offset. IsTrue (D.kind disk.old).tells → IsFirstCorrupt (D.content disk.old).reading place offset)) }
    {
        let log = match FileLogStore::new(alloc, disk) {
            Ok(log) => log,
            Err(error) => return Err(error),
        };
        match FileMetaStore::new(alloc, disk) {
            Ok(meta) => Ok(FileStorageEngine {
                data_dir,
                log,
                meta,
            }),
            Err(error) => Err(error),
        }
    }

    /// The folder's name.
    pub fn data_dir(&self) -> &Label
        ensures { result.now ≡ self.now.data_dir }
    {
        &self.data_dir
    }
}

impl<D: Disk> StorageEngine<D> for FileStorageEngine {
    type Log = FileLogStore;

    type Meta = FileMetaStore;

    ghost its_log = { λ s. s.log };

    ghost its_meta = { λ s. s.meta };

    ghost with_log = { λ s log. record s { log = log } };

    ghost with_meta = { λ s meta. record s { meta = meta } };

    ghost log_set = { λ s log. refl };

    ghost meta_kept = { λ s log. refl };

    ghost meta_set = { λ s meta. refl };

    ghost log_kept = { λ s meta. refl };

    fn log_store(&mut self) -> &mut FileLogStore {
        &mut self.log
    }

    fn meta_store(&mut self) -> &mut FileMetaStore {
        &mut self.meta
    }

    fn split(self) -> (FileLogStore, FileMetaStore) {
        (self.log, self.meta)
    }
}
