//! A drive, and its line through the link.
ghost use Rattle.std.specs.Prelude.{◌≡◌, ◌≤◌};
ghost use Rattle.den_disk.specs.Goes.{LinkGoesOn};
ghost use Rattle.den_serving.specs.Serving.{IsDriven};

use den_codec::Error;
use den_disk::{Disk, Link};
use den_drive::drive;
use std::alloc::Global;

/// Drives so many requests in memory, and sends the line of what came of them. The disk is used by no call: it gives
/// the moment of the send.
pub fn serve_drive<D: Disk, L: Link>(
    alloc: Global,
    count: u32,
    disk: &D,
    link: &mut L,
) -> Result<(), Error>
    requires few { count ≤ 1000000 }
    ensures driven { IsDriven L.Link link.old link.new count result }
    ensures on { LinkGoesOn L.tells L.sent L.budget L.taken L.faults link.old link.new }
{
    let report = drive(alloc, count)?;
    let line = report.line(alloc)?;
    match link.send(line.as_bytes(), disk) {
        Ok(()) => Ok(()),
        Err(_) => Err(Error::LinkFault),
    }
}
