//! One voter whose configuration is read from a source.
ghost use Rattle.std.specs.Prelude.{◌≡◌, IsTrue};
ghost use Rattle.den_config.specs.Sources.{solo_configuration_in};
ghost use Rattle.den_disk.specs.Goes.{Rose, SourceGoesOn};
ghost use Rattle.den_server.specs.Configured.{IsRun};
ghost use Rattle.den_server.specs.Promises.{Runs, AllGoOn};

use crate::StandaloneEngine;
use den_codec::Error;
use den_config::read_solo;
use den_disk::{Clock, Disk, Link, Source};
use std::alloc::Global;

impl StandaloneEngine {
    /// Reads the configuration of one voter from a source, and runs under it. The source is read to its end, or until it has
    /// given more than a text may have. `ConfigFault` where its count of faults rose, else `Config` with the first key
    /// whose test fails; nothing is opened, sent or timed then. From there on it is `run`.
    pub fn run_with<S: Source, D: Disk, L: Link, C: Clock>(
        alloc: Global,
        conf: &mut S,
        disk: &mut D,
        link: &mut L,
        clock: &mut C,
    ) -> Result<(), Error>
        // The count of faults of the source does not fall.
        ensures source { SourceGoesOn S.tells S.faults conf.old conf.new }

        // A run under the configuration that the source's bytes give, with all that a run promises, where it was read; else
        // its refusal, by a fault of the source or the key that the bytes are refused for, with nothing opened, sent or timed.
        ensures runs { IsRun (Rose (S.faults conf.old) (S.faults conf.new)) (IsTrue (S.tells conf.old)) (solo_configuration_in (S.left conf.old))
            ((disk.new ≡ disk.old) × (link.new ≡ link.old) × (clock.new ≡ clock.old))
            (λ config answer. Runs D.Disk L.Link C.Clock config disk.old disk.new link.old link.new clock.old clock.new answer) result }

        // Disk, link and clock go on as over any call; the files of the snapshot stay as they are, and a crash leaves them
        // as it could at entry.
        ensures goes_on { AllGoOn D.Disk L.Link C.Clock disk.old disk.new link.old link.new clock.old clock.new }
    {
        let config = match read_solo(alloc, conf) {
            Ok(config) => config,
            Err(error) => return Err(error),
        };
        StandaloneEngine::run(alloc, disk, link, clock, &config)
    }
}
