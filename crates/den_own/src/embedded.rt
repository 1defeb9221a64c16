//! An engine that is embedded over stores of one's own: turns whose events wait, what is taken, and its end.
use crate::{OwnCore, OwnMachine, OwnStorage};
use den_codec::{
    Blob, ClientWriteRequest, Error, Frame, RaftNodeConfig, Request, Rows, WatchEvent,
    WriteOperation,
};
use den_core::Engine;
use den_disk::{Clock, Disk, ListClock, MemDisk};
use den_store::StorageEngine;
use den_watch::{WatchError, WatcherHandle};
use std::alloc::Global;

// A watch of a.
fn watch(alloc: Global) -> Result<Frame, Error> {
    Ok(Frame::Good(Request::Watch {
        client_id: 1,
        prefix: false,
        prev_kv: false,
        key: Blob::of(alloc, b"a")?,
    }))
}

// A put of a = b.
fn put(alloc: Global) -> Result<Frame, Error> {
    Ok(Frame::Good(Request::Write(ClientWriteRequest {
        client_id: 1,
        command: Some(WriteOperation::Insert {
            key: Blob::of(alloc, b"a")?,
            value: Blob::of(alloc, b"b")?,
            ttl_secs: None,
        }),
    })))
}

// How many events were taken.
fn count(taken: Result<Rows<WatchEvent>, WatchError>) -> usize {
    match taken {
        Ok(events) => events.as_slice().len(),
        Err(_) => 0,
    }
}

// Opens an engine over them, watches, puts twice, and lets it go: how many events waited.
fn embeds<D: Disk, C: Clock>(alloc: Global, disk: &mut D, clock: &mut C) -> Result<usize, Error> {
    let config = RaftNodeConfig::standard(alloc)?;
    let storage = OwnStorage::new(alloc);
    let (log, meta) = StorageEngine::<D>::split(storage);
    let machine = OwnMachine::new(alloc, false);
    let core = OwnCore::new(1);
    let mut engine = Engine::begin(alloc, disk, log, meta, machine, core, &config, clock)?;
    engine.step_kept(disk, watch(alloc)?, 1000)?;
    engine.step_kept(disk, put(alloc)?, 1000)?;
    engine.step_kept(disk, put(alloc)?, 1000)?;
    let taken = engine.registry().take(&WatcherHandle { id: 1 });
    engine.close(disk)?;
    Ok(count(taken))
}

#[test]
fn keeps_events(rt: HostRuntime) {
    let alloc = rt.alloc();
    let mut disk = MemDisk::new(alloc);
    let mut clock = ListClock::steps(1000, 0);
    assert!(rt; embeds(alloc, &mut disk, &mut clock) == Ok(2));
}
