//! Leases of a run: keys that expire, between openings and frames.
ghost use Rattle.std.specs.Prelude.{◌≤◌};

use crate::server::{Ending, LOG, NO_PAIR, PAIR, PUT_C, READ, WRITTEN, is_joined, link_of, run_by};
use den_codec::{RaftNodeConfig, SoloConfig};
use den_disk::{ListClock, MemDisk};
use den_tests::Pieces;
use std::alloc::Global;
use std::test::Fail;

// Puts of a = b with a time to live of one second, and of the most seconds.
const PUT_FOR_ONE: &[u8] =
    b"\0\0\0\0\0\0\0\x20\x01\0\0\0\x01\x01\0\0\0\0\0\0\0\x01a\0\0\0\0\0\0\0\x01b\0\0\0\0\0\0\0\x01";

const PUT_FOR_EVER: &[u8] =
    b"\0\0\0\0\0\0\0\x20\x01\0\0\0\x01\x01\0\0\0\0\0\0\0\x01a\0\0\0\0\0\0\0\x01b\xff\xff\xff\xff\xff\xff\xff\xff";
// A log of one entry at moment 1000: a put of a = b with a time to live of one second.
const LOG_FOR_ONE: &[u8] =
    b"\x01\0\0\0\0\0\0\0\x3d\x01\0\0\0\0\0\0\0\x01\0\0\0\0\0\0\0\x01\0\0\0\0\0\0\0\x01\0\0\0\0\0\0\x03\xe8\x01\0\0\0\0\0\0\0\x01a\0\0\0\0\0\0\0\x01b\x01\0\0\0\0\0\0\0\x01";

// The default configuration with leases, and with so many milliseconds between two cleanups.
pub(crate) fn with_leases(alloc: Global, interval: u64) -> Result<SoloConfig, Fail>
    requires { 1 ≤ interval }
{
    let mut config = RaftNodeConfig::standard(alloc)?;
    config.raft.lease.enabled = true;
    config.raft.lease.cleanup_interval_ms = interval;
    Ok(config.solo()?)
}

// Whether a run with leases at these readings ends well and has sent this.
fn sends_at(
    alloc: Global,
    disk: &mut MemDisk,
    config: &SoloConfig,
    readings: &[u64],
    input: Pieces,
    sent: Pieces,
) -> Result<bool, Fail> {
    let mut link = link_of(alloc, input, &[])?;
    let mut clock = ListClock::new(readings.to_vec(alloc)?);
    let ended = run_by(alloc, disk, &mut link, &mut clock, config);
    Ok(ended == Ending::Well && is_joined(link.sent(), sent))
}

// The same over a folder whose log has these bytes.
fn expires(
    alloc: Global,
    log: &[u8],
    interval: u64,
    readings: &[u64],
    input: Pieces,
    sent: Pieces,
) -> Result<bool, Fail>
    requires { 1 ≤ interval }
{
    let config = with_leases(alloc, interval)?;
    let mut disk = MemDisk::new(alloc);
    disk.set(LOG, log)?;
    sends_at(alloc, &mut disk, &config, readings, input, sent)
}

// A lease ends at its moment and not before, also at the greatest; a put without a time to live keeps an older expiry.
#[test]
fn leases_end(rt: HostRuntime) -> Result<(), Fail> {
    let cases: [(&[u64], Pieces, Pieces); 3] = [
        (
            &[1000, 1000, 1999, 2000],
            &[PUT_FOR_ONE, READ, READ],
            &[WRITTEN, PAIR, NO_PAIR],
        ),
        (
            &[1000, 1000, u64::MAX - 1, u64::MAX],
            &[PUT_FOR_EVER, READ, READ],
            &[WRITTEN, PAIR, NO_PAIR],
        ),
        (
            &[1000, 1000, 1500, 3000],
            &[PUT_FOR_ONE, PUT_C, READ],
            &[WRITTEN, WRITTEN, NO_PAIR],
        ),
    ];
    for (readings, input, sent) in cases {
        assert!(rt;
            expires(rt.alloc(), b"", 1, readings, input, sent)?,
            "at {readings:?}"
        );
    }
    Ok(())
}

// An entry that the map lacks expires by its own moment, and goes at the opening where it is due.
#[test]
fn leases_end_at_the_opening(rt: HostRuntime) -> Result<(), Fail> {
    let cases: [(&[u64], Pieces); 2] = [(&[1999, 1999], &[PAIR]), (&[2000, 2000], &[NO_PAIR])];
    for (readings, sent) in cases {
        assert!(rt;
            expires(rt.alloc(), LOG_FOR_ONE, 1000, readings, &[READ], sent)?,
            "at {readings:?}"
        );
    }
    Ok(())
}
