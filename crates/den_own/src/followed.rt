//! A run over the stores of a folder under a core that follows.
use den_codec::{Error, Label, NodeMeta, RaftNodeConfig};
use den_core::FollowerCore;
use den_disk::{Clock, Disk, Link, ListClock, MemDisk, MemLink};
use den_server::StandaloneEngine;
use den_state::FileStateMachine;
use den_store::FileStorageEngine;
use std::alloc::Global;
use std::test::Fail;

// A put of a = b, and a read of a from what the node has.
const REQUESTS: &[u8] =
    b"\0\0\0\0\0\0\0\x20\x01\0\0\0\x01\x01\0\0\0\0\0\0\0\x01a\0\0\0\0\0\0\0\x01b\0\0\0\0\0\0\0\0\
    \0\0\0\0\0\0\0\x17\x02\0\0\0\x01\x03\0\0\0\0\0\0\0\x01\0\0\0\0\0\0\0\x01a";

// It does not lead, and node 2 at h:2 does; and no pair.
const REPLIES: &[u8] = b"\0\0\0\0\0\0\0\x14\x01\x0c\x01\0\0\0\x02\0\0\0\0\0\0\0\x03h:2\0\0\
    \0\0\0\0\0\0\0\x0d\x01\0\0\0\x02\0\0\0\0\0\0\0\0";

// A node of one voice.
fn node(alloc: Global, id: u32, address: &str) -> Result<NodeMeta, Error> {
    Ok(NodeMeta {
        id,
        address: Label::of(alloc, address)?,
        role: 0,
        status: 0,
    })
}

// Node 1, which follows node 2.
fn follower(alloc: Global) -> Result<FollowerCore, Error> {
    let leader = node(alloc, 2, "h:2")?;
    Ok(FollowerCore::new(node(alloc, 1, "h:1")?, Some(leader)))
}

// Opens a folder's stores, and serves over them under that core.
fn serve<D: Disk, L: Link, C: Clock>(
    alloc: Global,
    disk: &mut D,
    link: &mut L,
    clock: &mut C,
) -> Result<(), Error> {
    let config = RaftNodeConfig::standard(alloc)?;
    let core = follower(alloc)?;
    let data_dir = Label::of(alloc, "d")?;
    let storage = FileStorageEngine::new(alloc, data_dir, disk)?;
    let machine = FileStateMachine::new(alloc, disk, None)?;
    StandaloneEngine::run_custom(alloc, disk, storage, machine, core, link, clock, &config)
}

#[test]
fn refers_to_the_leader(rt: HostRuntime) -> Result<(), Fail> {
    let alloc = rt.alloc();
    let mut disk = MemDisk::new(alloc);
    let mut link = MemLink::new(alloc, REQUESTS.to_vec(alloc)?, Vec::new(alloc));
    let mut clock = ListClock::steps(1000, 0);
    assert!(rt; serve(alloc, &mut disk, &mut link, &mut clock).is_ok());
    assert!(rt; link.sent() == REPLIES);
    Ok(())
}
