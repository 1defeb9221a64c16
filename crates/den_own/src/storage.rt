//! The two stores together.
ghost use Rattle.std.specs.Prelude.{◌≡◌, false, None, refl};
ghost use Rattle.den_model.specs.Log.{empty_log};
ghost use Rattle.den_own.specs.Logs.{log_of, log_shown};

use crate::{OwnLog, OwnMeta};
use den_disk::Disk;
use den_store::StorageEngine;
use std::alloc::Global;

/// A log and a hard state in memory.
#[derive(Drop)]
pub struct OwnStorage {
    log: OwnLog,
    meta: OwnMeta,
}

impl OwnStorage {
    /// An empty log, and no hard state.
    pub fn new(alloc: Global) -> OwnStorage
        ensures log { log_of result.log ≡ empty_log }
        ensures ready { (log_shown result.log).ready }
        ensures meta { result.meta ≡ record { last = None; failed = false } }
    {
        OwnStorage {
            log: OwnLog::new(alloc),
            meta: OwnMeta::new(),
        }
    }
}

impl<D: Disk> StorageEngine<D> for OwnStorage {
    type Log = OwnLog;

    type Meta = OwnMeta;

    ghost its_log = { λ s. s.log };

    ghost its_meta = { λ s. s.meta };

    ghost with_log = { λ s log. record s { log = log } };

    ghost with_meta = { λ s meta. record s { meta = meta } };

    ghost log_set = { λ s log. refl };

    ghost meta_kept = { λ s log. refl };

    ghost meta_set = { λ s meta. refl };

    ghost log_kept = { λ s meta. refl };

    fn log_store(&mut self) -> &mut OwnLog {
        &mut self.log
    }

    fn meta_store(&mut self) -> &mut OwnMeta {
        &mut self.meta
    }

    fn split(self) -> (OwnLog, OwnMeta) {
        (self.log, self.meta)
    }
}
