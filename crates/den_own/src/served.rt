//! A run over stores, a state machine and a core of one's own.
use crate::{OwnCore, OwnMachine, OwnStorage};
use den_codec::{Error, RaftNodeConfig};
use den_disk::{Clock, Disk, Family, Link, ListClock, MemDisk, MemLink, Part, Place};
use den_server::StandaloneEngine;
use std::alloc::Global;
use std::test::Fail;

// A put of a = b, a read of a, and a scan of what begins with a.
const REQUESTS: &[u8] =
    b"\0\0\0\0\0\0\0\x20\x01\0\0\0\x01\x01\0\0\0\0\0\0\0\x01a\0\0\0\0\0\0\0\x01b\0\0\0\0\0\0\0\0\
    \0\0\0\0\0\0\0\x17\x02\0\0\0\x01\0\0\0\0\0\0\0\0\x01\0\0\0\0\0\0\0\x01a\
    \0\0\0\0\0\0\0\x0e\x03\0\0\0\x01\0\0\0\0\0\0\0\x01a";

// The put is done; a = b; and a = b at revision 2, behind the entry of the opening.
const REPLIES: &[u8] = b"\0\0\0\0\0\0\0\x06\x01\0\0\0\x01\x01\
    \0\0\0\0\0\0\0\x1f\x01\0\0\0\x02\0\0\0\0\0\0\0\x01\0\0\0\0\0\0\0\x01a\0\0\0\0\0\0\0\x01b\
    \0\0\0\0\0\0\0\x23\x02\0\0\0\0\0\0\0\x02\0\0\0\0\0\0\0\x01\0\0\0\0\0\0\0\x01a\0\0\0\0\0\0\0\x01b";

// Serves over them, over any disk.
fn serve<D: Disk, L: Link, C: Clock>(
    alloc: Global,
    disk: &mut D,
    link: &mut L,
    clock: &mut C,
) -> Result<(), Error> {
    let config = RaftNodeConfig::standard(alloc)?;
    let storage = OwnStorage::new(alloc);
    let machine = OwnMachine::new(alloc, false);
    let core = OwnCore::new(1);
    StandaloneEngine::run_custom(alloc, disk, storage, machine, core, link, clock, &config)
}

// Whether the run ends well, and what it sends are the replies.
fn replies(alloc: Global, disk: &mut MemDisk) -> Result<bool, Fail> {
    let mut link = MemLink::new(alloc, REQUESTS.to_vec(alloc)?, Vec::new(alloc));
    let mut clock = ListClock::steps(1000, 0);
    let ended = serve(alloc, disk, &mut link, &mut clock);
    Ok(ended.is_ok() && link.sent() == REPLIES)
}

#[test]
fn serves_from_memory(rt: HostRuntime) -> Result<(), Fail> {
    let mut disk = MemDisk::new(rt.alloc());
    assert!(rt; replies(rt.alloc(), &mut disk)?);
    let log = Place {
        family: Family::Log,
        part: Part::A,
    };
    assert!(rt; disk.get(log).is_empty());
    Ok(())
}
