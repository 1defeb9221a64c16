//! Runs whose configuration is read from a source.
use crate::server::{NO_PAIR, PAIR, READ, is_joined, link_of};
use den_codec::{ConfigPlace, Error};
use den_disk::{Clock, Disk, Link, ListClock, MemDisk, MemSource, Source};
use den_server::StandaloneEngine;
use den_tests::Pieces;
use std::alloc::Global;
use std::test::Fail;

// A text that enables leases, and one whose interval is none.
const LEASES: &[u8] = b"[raft.state_machine.lease]\nenabled = true\ncleanup_interval_ms = 1\n";

const BAD_INTERVAL: &[u8] = b"[raft.state_machine.lease]\ncleanup_interval_ms = 0";
// A put of a = b with a time to live of one second, and its reply.
const PUT_FOR_ONE: &[u8] =
    b"\0\0\0\0\0\0\0\x20\x01\0\0\0\x01\x01\0\0\0\0\0\0\0\x01a\0\0\0\0\0\0\0\x01b\0\0\0\0\0\0\0\x01";

const WRITTEN: &[u8] = b"\0\0\0\0\0\0\0\x06\x01\0\0\0\x01\x01";

// How a run under the source ends: well, or for a reason.
fn end_of<S: Source, D: Disk, L: Link, C: Clock>(
    alloc: Global,
    conf: &mut S,
    disk: &mut D,
    link: &mut L,
    clock: &mut C,
) -> Option<Error> {
    match StandaloneEngine::run_with(alloc, conf, disk, link, clock) {
        Ok(()) => None,
        Err(error) => Some(error),
    }
}

// How a run of a put for a second and two reads ends, and whether it has sent this.
fn ends(
    alloc: Global,
    conf: &mut MemSource,
    disk: &mut MemDisk,
    sent: Pieces,
) -> Result<(Option<Error>, bool), Fail> {
    let mut link = link_of(alloc, &[PUT_FOR_ONE, READ, READ], &[])?;
    let mut clock = ListClock::new([1000, 1000, 1999, 2000].to_vec(alloc)?);
    let ended = end_of(alloc, conf, disk, &mut link, &mut clock);
    Ok((ended, is_joined(link.sent(), sent)))
}

// Whether it ends so, and has sent this.
fn ends_so(
    alloc: Global,
    mut conf: MemSource,
    ended: Option<Error>,
    sent: Pieces,
) -> Result<bool, Fail> {
    let mut disk = MemDisk::new(alloc);
    let found = ends(alloc, &mut conf, &mut disk, sent)?;
    Ok(found.0 == ended && found.1)
}

// Leases by a text; a key that is refused; and a source that is not read.
#[test]
fn runs_under_a_text(rt: HostRuntime) -> Result<(), Fail> {
    let conf = MemSource::new(LEASES.to_vec(rt.alloc())?);
    assert!(rt; ends_so(rt.alloc(), conf, None, &[WRITTEN, PAIR, NO_PAIR])?);
    let conf = MemSource::new(BAD_INTERVAL.to_vec(rt.alloc())?);
    let refused = Some(Error::Config(ConfigPlace::CleanupInterval));
    assert!(rt; ends_so(rt.alloc(), conf, refused, &[])?);
    let mut conf = MemSource::new(LEASES.to_vec(rt.alloc())?);
    conf.fail_after(0);
    assert!(rt; ends_so(rt.alloc(), conf, Some(Error::ConfigFault), &[])?);
    Ok(())
}
