//! A store of the hard state in memory alone.
ghost use Rattle.std.specs.Prelude.{◌≡◌, false, None};
ghost use Rattle.den_disk.specs.declared.place.Family.TheVariants.{Meta as meta_family};
ghost use Rattle.den_own.specs.Memory.{in_memory, memory_lies, nothing_told};

use crate::sync::sync;
use den_codec::{Error, HardState};
use den_disk::Disk;
use den_store::MetaStore;

/// The last hard state that was saved.
#[derive(Drop)]
pub struct OwnMeta {
    last: Option<HardState>,
    // A sync of the disk failed.
    failed: bool,
}

impl OwnMeta {
    /// A store in which no hard state was saved.
    pub fn new() -> OwnMeta
        ensures { result ≡ record { last = None; failed = false } }
    {
        OwnMeta {
            last: None,
            failed: false,
        }
    }
}

impl<D: Disk> MetaStore<D> for OwnMeta {
    ghost shown = { λ s. in_memory s.failed (λ h. 0) s.last };

    ghost holds = { nothing_told };

    ghost lies = { memory_lies meta_family (λ h. 0) (λ s. s.failed) (λ s. s.last) };

    fn save_hard_state(&mut self, _disk: &mut D, state: &HardState) -> Result<(), Error> {
        self.last = Some(*state);
        Ok(())
    }

    /// Syncs the disk, of which it has no file: a flush answers for all of them.
    fn flush(&mut self, disk: &mut D) -> Result<(), Error> {
        let synced = sync(disk);
        self.failed = synced.is_err();
        synced
    }

    fn is_failed(&self) -> bool {
        self.failed
    }

    fn load_hard_state(&self) -> Option<HardState> {
        self.last
    }
}
