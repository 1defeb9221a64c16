//! Watches by a registry: what waits for a watcher, and its end.
use den_codec::{Blob, Change, WatchEventType};
use den_watch::{WatchError, WatchRegistry, WatcherHandle};
use std::alloc::Global;

// A put of a at an index.
fn put_of(alloc: Global, index: u64, value: &[u8]) -> Result<Change, WatchError> {
    Ok(Change {
        index,
        kind: WatchEventType::Put,
        key: Blob::of(alloc, b"a")?,
        value: Blob::of(alloc, value)?,
        prev: None,
    })
}

// Delivers two puts of a.
fn deliver_two(alloc: Global, registry: &mut WatchRegistry) -> Result<(), WatchError> {
    registry.deliver(&put_of(alloc, 1, b"b")?)?;
    registry.deliver(&put_of(alloc, 2, b"c")?)
}

// Whether a take gives one event, of this index.
fn takes_one(registry: &mut WatchRegistry, watcher: &WatcherHandle, index: u64) -> bool {
    match registry.take(watcher) {
        Ok(events) => events.as_slice().len() == 1 && events.as_slice()[0].revision == index,
        Err(_) => false,
    }
}

// Whether a watcher with room for one event ends at the second, and says so once the first was taken.
fn ends_full(alloc: Global) -> Result<bool, WatchError> {
    let mut registry = WatchRegistry::new(alloc, 1, 1000);
    let watcher = registry.register(Blob::of(alloc, b"a")?, false)?;
    let again = WatcherHandle { id: watcher.id };
    deliver_two(alloc, &mut registry)?;
    let first = takes_one(&mut registry, &watcher, 1);
    let ended = registry.take(&watcher).err() == Some(WatchError::WatchBufferOverflow);
    let stood = registry.unregister(watcher);
    let gone = registry.take(&again).err() == Some(WatchError::NotRegistered);
    Ok(first && ended && stood && gone)
}

#[test]
fn ends_full_watchers(rt: HostRuntime) {
    assert!(rt; ends_full(rt.alloc()) == Ok(true));
}
