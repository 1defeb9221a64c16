//! One voter under the default configuration.
ghost use Rattle.std.specs.Prelude.{◌≡◌, IfOk, IfErr};
ghost use Rattle.den_codec.specs.declared.error.Error.TheVariants.{OutOfMemory};
ghost use Rattle.den_codec.specs.Standard.{IsStandard};
ghost use Rattle.den_server.specs.Default.{standard_run};
ghost use Rattle.den_server.specs.Promises.{Runs, AllGoOn};

use crate::StandaloneEngine;
use den_codec::{Error, RaftNodeConfig, SoloConfig};
use den_disk::{Clock, Disk, Link};
use std::alloc::Global;

// The default configuration, of one voter.
fn standard(alloc: Global) -> Result<SoloConfig, Error>
    ensures standard { IfOk result (λ c. IsStandard c.node) }
    ensures refused { IfErr result (λ e. e ≡ OutOfMemory) }
{
    let config = RaftNodeConfig::standard(alloc)?;
    match config.solo() {
        Ok(config) => Ok(config),
        Err(_) => Err(Error::OutOfMemory),
    }
}

impl StandaloneEngine {
    /// Runs under the default configuration: node 1 leads alone, with no lease. All else is `run`.
    pub fn run_default<D: Disk, L: Link, C: Clock>(
        alloc: Global,
        disk: &mut D,
        link: &mut L,
        clock: &mut C,
    ) -> Result<(), Error>
        // What a run promises, under the default configuration.
        ensures runs { Runs D.Disk L.Link C.Clock standard_run disk.old disk.new link.old link.new clock.old clock.new result }

        // Disk, link and clock go on as over any call; the files of the snapshot stay as they are, and a crash leaves them
        // as it could at entry.
        ensures goes_on { AllGoOn D.Disk L.Link C.Clock disk.old disk.new link.old link.new clock.old clock.new }
    {
        let config = match standard(alloc) {
            Ok(config) => config,
            Err(error) => return Err(error),
        };
        StandaloneEngine::run(alloc, disk, link, clock, &config)
    }
}
