//! One voter over a disk, a link and a clock.
ghost use Rattle.den_server.specs.Promises.{Runs, AllGoOn, run_config};

use crate::folder::open_folder;
use den_codec::{Error, SoloConfig};
use den_core::run_from;
use den_disk::{Clock, Disk, Link};
use std::alloc::Global;

/// A server of one voter.
pub struct StandaloneEngine;

impl StandaloneEngine {
    /// Serves the frames of a link, to the end of its input, from the files of a folder. Each write is on the disk before
    /// a byte of its reply is sent. Files that stand for nothing are refused as `DataCorruption`, those that ask for a
    /// lease where the configuration enables none as `FeatureNotEnabled`, those that leave no term or index as
    /// `ProposeFailed`; nothing is written then.
    /// `StorageIoError` and `LinkFault` where the disk's or the link's count of faults rose, `DiskFull` where a file would
    /// pass the disk's limit.
    pub fn run<D: Disk, L: Link, C: Clock>(
        alloc: Global,
        disk: &mut D,
        link: &mut L,
        clock: &mut C,
        config: &SoloConfig,
    ) -> Result<(), Error>
        // What is sent, and what the files stand for: at Ok, at every exit and after a crash at any moment; why it
        // answers anything but Ok; what it turns away, and what it serves for sure.
        ensures runs { Runs D.Disk L.Link C.Clock (run_config config.now.node) disk.old disk.new link.old link.new clock.old clock.new result }

        // Disk, link and clock go on as over any call; the files of the snapshot stay as they are, and a crash leaves them
        // as it could at entry.
        ensures goes_on { AllGoOn D.Disk L.Link C.Clock disk.old disk.new link.old link.new clock.old clock.new }
    {
        let mut engine = match open_folder(alloc, disk, config.node()) {
            Ok(engine) => engine,
            Err(error) => return Err(error),
        };
        let limit = config.node().network.max_frame_size;
        run_from(&mut engine, disk, link, clock, limit, alloc)
    }
}
